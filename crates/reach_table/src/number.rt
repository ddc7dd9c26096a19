// The numbers of the classes of equal rows.
ghost use Rattle.std.specs.Prelude.{◌<◌, ◌≡◌, length};
ghost use Rattle.reach_table.specs.Square.{Side, PlacesIn, ClassNumbered, AllNumbered};

use super::table::same_rows;

// Gives each row that is equal to row a the number `count`.
fn number_class(square: &[u8], a: usize, count: usize, numbered: &mut [bool], regions: &mut [u64])
    requires square { Side (length regions.old) square.now }
    requires row { a < length regions.old }
    requires numbered { length numbered.old ≡ length regions.old }
    ensures { ClassNumbered (length regions.old) square.now a count
        numbered.old regions.old numbered.new regions.new }
{
    let n = regions.len();
    for b in 0..n {
        if same_rows(square, n, a, b) {
            numbered[b] = true;
            regions[b] = count as u64;
        }
    }
}

// Numbers the classes of the rows of an order, from the last to the first; answers how many there are.
pub(crate) fn number_all(
    square: &[u8],
    order: &[u16],
    numbered: &mut [bool],
    regions: &mut [u64],
) -> usize
    requires square { Side (length regions.old) square.now }
    requires order { PlacesIn (length regions.old) order.now }
    requires numbered { length numbered.old ≡ length regions.old }
    ensures { AllNumbered (length regions.old) square.now order.now numbered.new regions.new result }
{
    numbered.fill(false);
    regions.fill(0);
    let mut count = 0;
    for a in order.iter().rev() {
        let row = usize::from(*a);
        if !numbered[row] {
            number_class(square, row, count, numbered, regions);
            count += 1;
        }
    }
    count
}
