// The report of a sheet: the sheet is read into lent work lists, its lists are checked and analyzed, and the report is written into a lent
// buffer where it fits. Crate `blocks` has the text, block by block.
// Lent slices stay parameters: a struct of `&mut` fields would owe a ghost name for what each is left as.
#![tactic(auto)]

pub mod fill;
mod print;
pub mod rows;
pub mod unread;

ghost use Rattle.lists.specs.Rules.{rules_limit};
ghost use Rattle.forms.specs.Sheet.{parse};
ghost use Rattle.report.specs.Entry.{Reported};

use forms::Counts;
use lists::{COMPONENT, CONNECTION, FRONTIER, Refusal};
use print::print_lists;
use sheet::read_sheet;

// The report of a sheet, given the most records of each list, work lists for them, and the buffer.
pub fn report(
    text: &[u8],
    limits: Counts,
    components: &mut [i64],
    connections: &mut [i64],
    frontiers: &mut [i64],
    out: &mut [u8],
) -> Result<usize, Refusal>
    ensures { Reported (parse rules_limit limits.components limits.connections limits.frontiers text.now)
        components.old components.new connections.old connections.new frontiers.old frontiers.new out.old out.new result }
{
    let sheet = read_sheet(text, limits, components, connections, frontiers)?;
    let counts = sheet.counts;
    let printed = print_lists(
        sheet.rules,
        &components[..counts.components * COMPONENT],
        &connections[..counts.connections * CONNECTION],
        &frontiers[..counts.frontiers * FRONTIER],
        out,
    );
    components.fill(0);
    connections.fill(0);
    frontiers.fill(0);
    printed
}
