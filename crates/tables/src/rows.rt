// Hints of where the keys of each row end, a row being the keys that are alike from some bit on. A wrong hint costs time and nothing
// else: what it says is tested, and the table is searched where it is wrong.
ghost use Rattle.std.specs.Prelude.{◌≡◌, ◌<◌, length};
ghost use Rattle.tables.specs.Order.{LowerBound};

use super::{lower_bound, lower_bound_near};

// Stores the place after the last key of each row that has keys.
fn mark_ends(keys: &[u64], shift: u64, rows: &mut [usize])
    requires { shift < 64 }
    ensures { length rows.new ≡ length rows.old }
{
    for (i, key) in keys.iter().enumerate() {
        if let Some(end) = rows.get_mut((*key >> shift) as usize) {
            *end = i + 1;
        }
    }
}

// Replaces each end by the greatest up to it: a row without keys ends where the one before it does.
fn carry_ends(rows: &mut [usize])
    ensures { length rows.new ≡ length rows.old }
{
    let mut top = 0;
    for end in rows.iter_mut() {
        top = top.max(*end);
        *end = top;
    }
}

// Fills in the hints of a table's rows, in numbers that are 0; the row of a key is the number of its bits from `shift` on.
pub fn hint_rows(keys: &[u64], shift: u64, rows: &mut [usize])
    requires { shift < 64 }
    ensures { length rows.new ≡ length rows.old }
{
    mark_ends(keys, shift, rows);
    carry_ends(rows);
}

// Where a row begins: where the one before it ends.
fn begin_of(rows: &[usize], row: usize) -> usize
    requires { row < length rows.now }
{
    if row == 0 { 0 } else { rows[row - 1] }
}

// What `lower_bound` gives, without the search where the key comes before all others of its row or after them.
pub fn lower_bound_in(keys: &[u64], key: u64, rows: &[usize], row: usize) -> usize
    ensures { LowerBound keys.now key result }
{
    if row < rows.len() {
        return lower_bound_near(keys, key, begin_of(rows, row), rows[row]);
    }
    lower_bound(keys, key)
}
