// The square before any middle is admitted.
ghost use Rattle.std.specs.Prelude.{ℕ, ◌*◌, ◌<◌, ◌≡◌, ◌&&◌, ◌||◌, eqb, length, get_or};
ghost use Rattle.tables.specs.Order.{member};
ghost use Rattle.lists.specs.Ids.{member_of};
ghost use Rattle.lists.specs.Records.{component_count};
ghost use Rattle.signals.specs.Signals.{signals};
ghost use Rattle.graph.specs.Rows.{Rows, edges_of};
ghost use Rattle.reach_table.specs.Table.{start};
ghost use Rattle.reach_table.specs.Scene.{listed};
ghost use Rattle.reach_table.specs.Square.{Holds, Side, Makes};

use graph::Graph;
use lists::ids::place_at;
use liveness::plot::Plot;

// Sets the diagonal to 1: each component reaches itself.
fn put_diagonal(square: &mut [u8], n: usize)
    requires { Side n square.old }
    ensures { Makes n (λ t a b. t a b || eqb a b) square.old square.new }
{
    for a in 0..n {
        square[a * n + a] = 1;
    }
}

// Sets the place of each neighbour in a row to 1. Neighbours are members, and the columns are by list place.
fn put_row(plot: &Plot, neighbours: &[u16], row: usize, square: &mut [u8])
    requires room { let n = component_count plot.now.components.now in (row < n) × (length square.old ≡ n * n) }
    requires members { (i : ℕ) → i < length neighbours.now → get_or neighbours.now i 0 < component_count plot.now.components.now }
    ensures { let cs = plot.now.components.now in
        Makes (component_count cs) (λ t a b. t a b || (eqb a row && member (member_of cs b) neighbours.now)) square.old square.new }
{
    let keys = plot.keys;
    let n = keys.len();
    for neighbour in neighbours {
        let column = place_at(keys, usize::from(*neighbour));
        square[row * n + column] = 1;
    }
}

// Sets the place of each edge to 1.
fn put_edges(plot: &Plot, graph: Graph, square: &mut [u8])
    requires { let n = component_count plot.now.components.now in (length graph.ends.now ≡ n) × (length square.old ≡ n * n) }
    ensures { let cs = plot.now.components.now in let edge = edges_of graph.entry.ends.now graph.entry.next.now in
        Makes (component_count cs) (λ t a b. t a b || edge (member_of cs a) (member_of cs b)) square.old square.new }
{
    for m in 0..graph.ends.len() {
        let row = place_at(plot.keys, m);
        put_row(plot, graph.row(m), row, square);
    }
}

// The table before any middle is admitted.
pub(crate) fn start_square(plot: &Plot, graph: Graph, square: &mut [u8])
    requires room { length square.old ≡ component_count plot.now.components.now * component_count plot.now.components.now }
    requires edges { let l = plot.now in
        Rows (component_count l.components.now) (signals l.components.now l.ports.now) graph.ends.now graph.next.now }
    ensures { let l = plot.now in
        Holds (component_count l.components.now) (start (listed l.components.now l.ports.now)) square.new }
{
    square.fill(0);
    put_diagonal(square, plot.keys.len());
    put_edges(plot, graph, square);
}
