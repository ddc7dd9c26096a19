// The inferred inputs upstream of each region, in one table: a set of them for each region.
ghost use Rattle.std.specs.Prelude.{◌≡◌, ◌≤◌, ◌<◌, length};
ghost use Rattle.sets.specs.Members.{member_limit};
ghost use Rattle.lists.specs.Limits.{component_limit};
ghost use Rattle.regions.specs.Kosaraju.{region_of};
ghost use Rattle.graph.specs.Rows.{edges_of};
ghost use Rattle.graph.specs.inner.Marks.{ByRegion, Labels};
ghost use Rattle.signals.specs.Flags.{Indices};
ghost use Rattle.assessment.specs.Upstream.{RowsEmpty, Seeded, RowHanded, RowsCarried, UpstreamRows};

use graph::Graph;
use graph::marks::by_region;
use lists::COMPONENTS;
use sets::{ComponentSet, WORDS};

// How many words the table has: a set for each region, of which there are no more than components.
pub const TABLE: usize = COMPONENTS * WORDS;

// Puts each flagged member into the row of its region; the rows are empty before.
fn seed_rows(labels: &[u16], flags: &[bool], rows: &mut [ComponentSet; COMPONENTS])
    requires indices { Indices (length labels.now) component_limit labels.now
        × ((length labels.now ≤ member_limit) × (length labels.now ≤ length flags.now)) }
    requires rows_empty { RowsEmpty rows.old }
    ensures { Seeded (length labels.now) labels.now flags.now rows.new }
{
    for (k, label) in labels.iter().enumerate() {
        if flags[k] {
            let region = usize::from(*label);
            rows[region] = rows[region].insert(k);
        }
    }
}

// Joins the row of region r into those of the regions of the nodes. To join it into itself would change nothing, and most edges lead from a
// region into itself.
fn hand_row(nodes: &[u16], labels: &[u16], r: usize, rows: &mut [ComponentSet; COMPONENTS])
    requires region { r < component_limit }
    requires labels { Labels nodes.now labels.now component_limit }
    ensures { RowHanded nodes.now labels.now (length nodes.now) r rows.old rows.new }
{
    for node in nodes {
        let t = usize::from(labels[usize::from(*node)]);
        if t != r {
            rows[t] = rows[t].union(rows[r]);
        }
    }
}

// Carries the rows along the edges, given the nodes by rising region.
fn carry_rows(graph: Graph, labels: &[u16], nodes: &[u16], rows: &mut [ComponentSet; COMPONENTS])
    requires few { length graph.ends.now ≤ component_limit }
    requires labels { labels.now ≡ region_of (length graph.ends.now) (edges_of graph.ends.now graph.next.now) }
    requires nodes { ByRegion (length graph.ends.now) labels.now nodes.now }
    ensures { RowsCarried (length graph.entry.ends.now) (edges_of graph.entry.ends.now graph.entry.next.now) rows.old rows.new }
{
    for i in 0..graph.ends.len() {
        let x = usize::from(nodes[i]);
        hand_row(graph.row(x), labels, usize::from(labels[x]), rows);
    }
}

// Fills the rows, which are empty before, with the flagged members upstream of each region.
pub fn upstream_rows(
    graph: Graph,
    labels: &[u16],
    flags: &[bool],
    rows: &mut [ComponentSet; COMPONENTS],
)
    requires nodes { let n = length graph.ends.now in (n ≤ component_limit) × (n ≤ length flags.now) }
    requires labels { labels.now ≡ region_of (length graph.ends.now) (edges_of graph.ends.now graph.next.now) }
    requires rows_empty { RowsEmpty rows.old }
    ensures { UpstreamRows (length graph.entry.ends.now) (edges_of graph.entry.ends.now graph.entry.next.now) flags.now rows.new }
{
    let mut ends = [0u16; COMPONENTS];
    let mut nodes = [0u16; COMPONENTS];
    by_region(labels, &mut ends, &mut nodes);
    seed_rows(labels, flags, rows);
    carry_rows(graph, labels, &nodes, rows);
}
