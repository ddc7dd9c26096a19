// The reach table and the regions of a plot.
ghost use Rattle.lists.specs.Records.{component_count};
ghost use Rattle.graph.specs.Rows.{edges_of};
ghost use Rattle.reach_table.specs.Square.{FinishRoom, Finished, LentRoom, Tables};

use super::number::number_all;
use super::start::start_square;
use super::table::fill;
use graph::Graph;
use lists::ids::place_at;
use lists::{COMPONENTS, CONNECTIONS};
use liveness::plot::Plot;

// The list places of the components in the order in which the quick walk finishes them: the numbers of the classes follow it.
fn finish_places(plot: &Plot, graph: Graph, places: &mut [u16], stack: &mut [usize])
    requires { FinishRoom plot.now.components.now graph.ends.now places.old stack.old }
    ensures { Finished plot.now.components.now (edges_of graph.entry.ends.now graph.entry.next.now) places.new stack.new }
{
    let keys = plot.keys;
    let mut visited = [false; COMPONENTS];
    graph.finish_order(&mut visited[..keys.len()], places, stack);
    for place in places.iter_mut() {
        *place = place_at(keys, usize::from(*place)) as u16;
    }
}

// Fills the square with the finished table and writes the region of each component, by the order in which the quick walk finishes; answers how
// many there are. Leaves the stack zero.
pub(crate) fn table_plot(
    plot: &Plot,
    square: &mut [u8],
    regions: &mut [u64],
    stack: &mut [usize],
) -> usize
    requires { LentRoom plot.now.components.now square.old regions.old stack.old }
    ensures { Tables plot.now.components.now plot.now.ports.now square.new regions.new stack.new result }
{
    let n = plot.keys.len();
    let mut row_ends = [0u16; COMPONENTS];
    let mut next = [0u16; CONNECTIONS];
    let mut back_ends = [0u16; COMPONENTS];
    let mut back = [0u16; CONNECTIONS];
    let mut order = [0u16; COMPONENTS];
    let mut numbered = [false; COMPONENTS];
    let ends = &mut row_ends[..n];
    let places = &mut order[..n];
    plot.rows(ends, &mut next, &mut back_ends[..n], &mut back);
    let graph = Graph { ends, next: &next };
    start_square(plot, graph, square);
    fill(square, n);
    stack.fill(0);
    finish_places(plot, graph, places, stack);
    number_all(square, places, &mut numbered[..n], regions)
}
