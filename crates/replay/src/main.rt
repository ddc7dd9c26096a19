// Reads recorded scenes and what the Rust answered to them from standard input, asks the list entries and the one over records, and writes
// how many scenes there were, how many recorded numbers were compared, and how many differ.
#![tactic(auto)]

mod answers;
mod compare;
mod input;

use compare::{Replay, TEXT, Tally};

// More scenes than any input has.
const SCENES: u64 = 1 << 32;

// Replays all scenes of standard input, accepted ones and those to be refused. Behind the end of a text there are zeros.
fn replay_all(replay: &mut Replay) {
    replay.go_on();
    for _ in 0..SCENES {
        if replay.text[0] == 0 {
            return;
        }
        if replay.text[0] == b'r' {
            replay.replay_refused();
        } else {
            replay.replay_scene();
        }
    }
}

// Writes a line of the result.
fn print_count(name: &[u8], count: u64) {
    io::write_all(1, name);
    io::print_decimal(1, count);
    io::write_all(1, b"\n");
}

fn main() {
    let mut replay = Replay {
        text: [0; TEXT],
        tally: Tally {
            at: TEXT,
            scenes: 0,
            compared: 0,
            different: 0,
        },
    };
    replay_all(&mut replay);
    print_count(b"scenes=", replay.tally.scenes);
    print_count(b"compared=", replay.tally.compared);
    print_count(b"different=", replay.tally.different);
}
