// A prepared graph: its rows, forward and backward, and its regions.
ghost use Rattle.std.specs.Prelude.{◌≡◌, ◌*◌, ◌≤◌, length};
ghost use Rattle.lists.specs.Limits.{component_limit, connection_limit};
ghost use Rattle.regions.specs.Graph.{flip};
ghost use Rattle.regions.specs.Search.{Zeros, Regions};
ghost use Rattle.graph.specs.Linked.{linked};
ghost use Rattle.graph.specs.Rows.{Rows};

use super::Graph;
use super::build::build_rows;
use super::walk::regions;

// Builds the rows of the edges that some connection makes and of the edges turned around, and finds the regions; answers how many there
// are.
pub fn prepare(
    sources: &[u16],
    sinks: &[u16],
    ends: &mut [u16],
    next: &mut [u16],
    back_ends: &mut [u16],
    back: &mut [u16],
    labels: &mut [u16],
    stack: &mut [usize],
) -> usize
    requires few { (length sources.now ≤ connection_limit) × (length sources.now ≤ length sinks.now) }
    requires nodes { let n = length labels.old in
        (n ≤ component_limit) × (length ends.old ≡ n) × (length back_ends.old ≡ n) }
    requires places { (length sources.now ≤ length next.old) × (length sources.now ≤ length back.old) }
    requires lent { (2 * length labels.old ≤ length stack.old) × Zeros stack.old }
    ensures forward { let n = length labels.old in Rows n (linked n sources.now sinks.now) ends.new next.new }
    ensures backward { let n = length labels.old in Rows n (flip (linked n sources.now sinks.now)) back_ends.new back.new }
    ensures regions { let n = length labels.old in Regions n (linked n sources.now sinks.now) labels.new result stack.new }
{
    build_rows(sources, sinks, ends, next, back_ends, back);
    let forward = Graph { ends, next };
    let backward = Graph {
        ends: back_ends,
        next: back,
    };
    regions(forward, backward, labels, stack)
}
