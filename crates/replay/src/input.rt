// The recorded lists, read from a text: a line `word=count`, and then so many numbers, one to a line.
ghost use Rattle.std.specs.Prelude.{◌≤◌, length, drop};
ghost use Rattle.replay.specs.Recorded.{read_numbers, read_list, Filled, ReadFrom};
ghost use Rattle.replay.specs.Bounds.{AtMost};

use lines::read::{read_count, read_number};

// Drops the text before `at`, and reads on behind what is left; zeros stand where nothing is read.
pub(crate) fn refill(text: &mut [u8], at: usize) {
    if text.len() < at {
        return;
    }
    let left = text.len() - at;
    text.copy_within(at.., 0);
    text[left..].fill(0);
    io::read_full(0, &mut text[left..]);
}

// Fills `out` with the numbers at `at`, and answers where they end.
#[tactic(auto, using(crate::proofs::Numbers::numbers))]
fn read_numbers(text: &[u8], at: usize, out: &mut [i64]) -> Option<usize>
    requires { at ≤ length text.now }
    ensures { Filled (length text.now) (read_numbers (length out.old) (drop at text.now)) out.new result }
{
    let mut end = at;
    for number in out.iter_mut() {
        let (value, next) = read_number(text, end)?;
        *number = value;
        end = next;
    }
    Some(end)
}

// Reads the list of a word at `at` to the front of `out`, and answers how many numbers it has, and the position after it.
#[tactic(auto, using(crate::proofs::Lists::lists))]
pub fn read_list(text: &[u8], at: usize, word: &[u8], out: &mut [i64]) -> Option<(usize, usize)>
    ensures at_most { AtMost (length out.old) result }
    ensures read_from { ReadFrom (length text.now) (read_list word.now (drop at text.now)) out.old out.new result }
{
    let (count, start) = read_count(text, at, word)?;
    let n = count as usize;
    if out.len() < n {
        return None;
    }
    let end = read_numbers(text, start, &mut out[..n])?;
    Some((n, end))
}
