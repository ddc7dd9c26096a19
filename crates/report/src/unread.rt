// The last block, which rules 3 have: the devices whose facing was left blank, connected or not.
ghost use Rattle.std.specs.Prelude.{◌≤◌, ◌<◌, length};
ghost use Rattle.lists.specs.Records.{component, component_count};
ghost use Rattle.assessment.specs.Rows.{Put, Scanned};
ghost use Rattle.blocks.specs.Printed.{Printed};
ghost use Rattle.report.specs.Report.{unread_row, unread_ids};
ghost use Rattle.report.specs.Printing.{unread_text};

use assessment::verdicts::put_row;
use blocks::{Block, put_block};
use faces::ports::is_unread;
use lists::rules::blanks_unread;
use lists::views::ComponentList;

// Writes the id of a component at a place where its facing was left blank, and answers the place after it.
fn put_id(rules: u64, components: ComponentList, p: usize, rows: &mut [u64], at: usize) -> usize
    requires component_in_bounds { p < component_count components.numbers.now }
    requires row_in_bounds { at < length rows.old }
    ensures { Put (unread_row rules (component components.entry.numbers.now p)) at rows.old rows.new result }
{
    if is_unread(rules, components.kind(p), components.facing(p)) {
        return put_row(rows, at, &[components.id(p)]);
    }
    at
}

// Fills the ids of these devices, in list order, and answers how many there are.
pub fn fill_unread(rules: u64, components: ComponentList, rows: &mut [u64]) -> usize
    requires { component_count components.numbers.now ≤ length rows.old }
    ensures { let cs = components.entry.numbers.now in
        Scanned (unread_ids rules cs (component_count cs)) 1 rows.old rows.new result }
{
    let mut at = 0;
    for p in 0..components.count() {
        at = put_id(rules, components, p, rows, at);
    }
    at
}

// Writes the block of these ids from `at` on where it fits, if the rules have it, and answers where it ends.
pub fn put_unread(out: &mut [u8], at: usize, rules: u64, ids: &[u64]) -> usize
    ensures { Printed at (unread_text rules ids.now) out.old out.new result }
{
    if blanks_unread(rules) {
        return put_block(out, at, Block::Unread, ids);
    }
    at
}
