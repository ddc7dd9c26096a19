// The liveness entry over a lent list of records: their numbers are copied into the flat form, and the entry over that answers.
// Lent slices stay parameters: a struct of `&mut` fields would owe a ghost name for what each is left as.
#![tactic(auto)]

ghost use Rattle.std.specs.Prelude.{◌≡◌, ◌*◌, ◌≤◌, length, take};
ghost use Rattle.lists.specs.Limits.{port_width};
ghost use Rattle.lists.specs.Rules.{rules_of};
ghost use Rattle.lists.specs.Slices.{laid};
ghost use Rattle.liveness.specs.Entry.{Analyzed};
ghost use Rattle.records.specs.declared.PortRecord.{PortRecord};
ghost use Rattle.records.specs.Records.{fields, flatten, room, Stands};

use lists::{CONNECTIONS, PORT, Refusal};
use liveness::{Analysis, analyze_signal_liveness};

// A port connection: ids 0..4294967295, ports 0..255, transfer 0..6.
#[derive(Clone, Copy)]
pub struct PortRecord {
    pub source: i64,
    pub source_port: i64,
    pub sink: i64,
    pub sink_port: i64,
    pub transfer: i64,
}

// The numbers of the flat array: as many as the most records have, and one more.
const ROOM: usize = CONNECTIONS * PORT + 1;

impl PortRecord {
    // Its five numbers.
    fn numbers(&self) -> [i64; PORT]
        ensures { result ≡ fields self.now }
    {
        [
            self.source,
            self.source_port,
            self.sink,
            self.sink_port,
            self.transfer,
        ]
    }
}

// Copies the numbers of the records to the front of the flat list. Not one with `encode`, of bytes: a function over both would take the
// width and a closure with a clause of its own, for a loop of two lines.
fn copy_records(records: &[PortRecord], flat: &mut [i64])
    requires { length records.now * port_width ≤ length flat.old }
    ensures { flat.new ≡ laid (flatten records.now) flat.old }
{
    for (i, record) in records.iter().enumerate() {
        let at = i * PORT;
        flat[at..at + PORT].copy_from_slice(&record.numbers());
    }
}

// Fills the flat list, and answers how many of its numbers stand for the records. For records over the limit that is all of it, as it
// stands: it has as many whole records as the limit, and a number more, so it is refused in the same words.
fn stand_in(records: &[PortRecord], flat: &mut [i64]) -> usize
    requires { length flat.old ≡ room }
    ensures { (result ≤ room) × Stands records.now (take result flat.new) }
{
    if records.len() > CONNECTIONS {
        return ROOM;
    }
    copy_records(records, flat);
    records.len() * PORT
}

// The liveness entry over a list of records.
pub fn analyze_records(
    rules: i64,
    components: &[i64],
    ports: &[PortRecord],
    frontiers: &[i64],
    regions: &mut [u64],
    sources: &mut [u64],
    inputs: &mut [u64],
    stack: &mut [usize],
) -> Result<Analysis, Refusal>
    ensures { Analyzed (rules_of rules) components.now (flatten ports.now) frontiers.now
        regions.old regions.new sources.old sources.new inputs.old inputs.new stack.old stack.new result }
{
    let mut flat = [0i64; ROOM];
    let count = stand_in(ports, &mut flat);
    analyze_signal_liveness(
        rules,
        components,
        &flat[..count],
        frontiers,
        regions,
        sources,
        inputs,
        stack,
    )
}
