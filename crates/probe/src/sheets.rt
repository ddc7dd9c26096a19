// The sheet entry for the tests from Rust, its answer as one number.
ghost use Rattle.std.specs.Prelude.{◌≡◌};
ghost use Rattle.std.specs.Option.{unwrap_or};
ghost use Rattle.lists.specs.Rules.{rules_limit};
ghost use Rattle.forms.specs.Sheet.{parse};
ghost use Rattle.probe.specs.Sheets.{no_room, packed_refusal, packed_report, ReportedAs};

use forms::Counts;
use lists::{Refusal, list_number};
use report::report;

const ITEMS: usize = 1 << 48;

// Number, list and item in their digits, where each has room there.
fn in_digits(number: u64, list: u64, item: usize) -> Option<u64>
    ensures { unwrap_or result no_room ≡ packed_refusal number list item }
{
    if 256 <= number {
        return None;
    }
    if 256 <= list {
        return None;
    }
    if ITEMS <= item {
        return None;
    }
    Some(number + 256 * list + 65536 * item as u64)
}

// The answer as one number, for C: the greatest, where it has no room.
fn pack_printed(printed: Result<usize, Refusal>) -> u64
    ensures { result ≡ packed_report printed }
{
    let digits = match printed {
        Ok(n) => in_digits(0, 0, n),
        Err(refusal) => in_digits(
            u64::from(refusal.fault),
            list_number(refusal.list),
            refusal.item,
        ),
    };
    digits.unwrap_or(u64::MAX)
}

// The report of a sheet, given the most records of each list.
#[unsafe(no_mangle)]
pub extern "C" fn probe_report(
    text: &[u8],
    component_limit: usize,
    connection_limit: usize,
    frontier_limit: usize,
    components: &mut [i64],
    connections: &mut [i64],
    frontiers: &mut [i64],
    out: &mut [u8],
) -> u64
    ensures { ReportedAs (parse rules_limit component_limit connection_limit frontier_limit text.now)
        components.old components.new connections.old connections.new frontiers.old frontiers.new out.old out.new result }
{
    let limits = Counts {
        components: component_limit,
        connections: connection_limit,
        frontiers: frontier_limit,
    };
    let printed = report(text, limits, components, connections, frontiers, out);
    pack_printed(printed)
}
