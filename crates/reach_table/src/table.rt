// The square of 1 and 0: n rows of n, one after the other. The middles are filled in by three loops, of one function each.
ghost use Rattle.std.specs.Prelude.{◌+◌, ◌*◌, ◌<◌, ◌≤◌, length};
ghost use Rattle.regions.specs.Graph.{Edges};
ghost use Rattle.reach_table.specs.Table as Table;
ghost use Rattle.reach_table.specs.Table.{middles_below, start, filled};
ghost use Rattle.reach_table.specs.Square.{Holds, Side, Makes, Joined, Compared};

use lists::COMPONENTS;

// The innermost loop, over columns: the row gets a 1 wherever the middle's row has one. There is no branch, so that many places are
// joined at a time.
fn join_row(row: &mut [u8], middle: &[u8])
    requires { length row.old ≤ length middle.now }
    ensures { Joined middle.now row.old row.new }
{
    for (c, place) in row.iter_mut().enumerate() {
        *place |= middle[c];
    }
}

// The loop in the middle, over rows: admits one middle. Each row that has a 1 in its column gets the 1s of its row, which is copied
// first: the rows that are written are parts of the same slice. Where the table says who reaches whom over the components before m, it
// now says it over m too.
fn admit(square: &mut [u8], n: usize, m: usize)
    requires { Side n square.old × (m < n) }
    ensures makes { Makes n (Table.admit m) square.old square.new }
    ensures middles { (edge : Edges) →
        Holds n (middles_below m edge) square.old → Holds n (middles_below (m + 1) edge) square.new }
{
    let mut middle = [0u8; COMPONENTS];
    middle[..n].copy_from_slice(&square[m * n..m * n + n]);
    for a in 0..n {
        if square[a * n + m] == 1 {
            join_row(&mut square[a * n..a * n + n], &middle);
        }
    }
}

// The outermost loop, over middles: admits one after the other.
pub(crate) fn fill(square: &mut [u8], n: usize)
    requires { Side n square.old }
    ensures { (edge : Edges) → Holds n (start edge) square.old → Holds n (filled n edge) square.new }
{
    for m in 0..n {
        admit(square, n, m);
    }
}

// Whether two rows are equal.
pub(crate) fn same_rows(square: &[u8], n: usize, a: usize, b: usize) -> bool
    requires { Side n square.now × (a < n) × (b < n) }
    ensures { Compared n square.now a b result }
{
    square[a * n..a * n + n] == square[b * n..b * n + n]
}
