// What the program plotreport prints for the bytes that it read. Its limits stand here.
ghost use Rattle.std.specs.Prelude.{◌≡◌, Ok};
ghost use Rattle.plotreport.specs.Program.{ProgramPrinted, RegionsOfSheet, program_checked, printed, report_bytes};

use blocks::answer::put_refusal;
use forms::Counts;
use lists::{COMPONENT, CONNECTION, FRONTIER, Fault, Refusal};
use report::report;

// The most bytes of a sheet, and of a report.
pub const BYTES: usize = 65536;

// How many bytes the program reads at most: one more, by which it sees that a sheet is too long.
pub const READ: usize = BYTES + 1;

const COMPONENTS: usize = 256;

const CONNECTIONS: usize = 1024;

const FRONTIERS: usize = 256;

// The report of a sheet, with the program's limits.
fn report_sheet(text: &[u8], out: &mut [u8]) -> Result<usize, Refusal>
    ensures { ProgramPrinted text.now out.old out.new result }
{
    if BYTES < text.len() {
        return Err(Refusal {
            fault: Fault::ListLength,
            list: None,
            item: BYTES,
        });
    }
    let mut components = [0i64; COMPONENTS * COMPONENT];
    let mut connections = [0i64; CONNECTIONS * CONNECTION];
    let mut frontiers = [0i64; FRONTIERS * FRONTIER];
    let limits = Counts {
        components: COMPONENTS,
        connections: CONNECTIONS,
        frontiers: FRONTIERS,
    };
    report(
        text,
        limits,
        &mut components,
        &mut connections,
        &mut frontiers,
        out,
    )
}

// The bytes to print, made in `out`: the report, or the lines of the refusal. The buffer is long enough for both. `room` is a slice, since a
// part of an array behind a reference is not covered.
pub fn answer<'a>(text: &[u8], out: &'a mut [u8; BYTES]) -> &'a [u8]
    ensures printed { result.now ≡ printed text.now }
    ensures demand { program_checked text.now report_bytes ≡ Ok tt → RegionsOfSheet text.now result.now }
{
    let room: &'a mut [u8] = out;
    match report_sheet(text, room) {
        Ok(count) => &room[..count],
        Err(refusal) => {
            let count = put_refusal(room, 0, refusal);
            &room[..count]
        }
    }
}
