// The pass itself: each region, by rising number, hands its mark on to the regions that it feeds.
ghost use Rattle.std.specs.Prelude.{◌≡◌, List, ℕ, ◌<◌, length, ℤ};
ghost use Rattle.lists.specs.Limits.{component_limit};
ghost use Rattle.regions.specs.Graph.{at};
ghost use Rattle.regions.specs.Kosaraju.{region_of};
ghost use Rattle.graph.specs.Rows.{edges_of};
ghost use Rattle.graph.specs.Carried.{Carried};
ghost use Rattle.graph.specs.inner.Marks.{ByRegion, Handed, Labels};
ghost use Rattle.signals.specs.Regions.{region_count, holds_drive};
ghost use Rattle.signals.specs.Flags.{Flags};
ghost use Rattle.lighting.specs.Pass as Pass;

use graph::Graph;
use graph::marks::by_region;
use lists::COMPONENTS;
use liveness::plot::PreparedPlot;
use liveness::steps::flag_drive;

// Hands the mark of region r on to the regions of the nodes: `graph::marks::hand_on` with one list.
fn hand_on(nodes: &[u16], labels: &[u16], r: usize, marks: &mut [bool])
    requires region { r < length marks.old }
    requires labels { Labels nodes.now labels.now (length marks.old) }
    ensures { Handed nodes.now labels.now (length nodes.now) r marks.old marks.new }
{
    for node in nodes {
        let t = usize::from(labels[usize::from(*node)]);
        marks[t] |= marks[r];
    }
}

// Hands the marks of regions on along the edges of a graph, given the nodes by rising region, so that a region hands on its mark once all
// that feed it have.
fn pass(graph: Graph, labels: &[u16], nodes: &[u16], marks: &mut [bool])
    requires labels { labels.now ≡ region_of (length graph.ends.now) (edges_of graph.ends.now graph.next.now) }
    requires nodes { ByRegion (length graph.ends.now) labels.now nodes.now }
    requires below { (x : ℕ) → x < length graph.ends.now → at labels.now x < length marks.old }
    ensures { Carried (length graph.entry.ends.now) (edges_of graph.entry.ends.now graph.entry.next.now) marks.old marks.new }
{
    for i in 0..graph.ends.len() {
        let x = usize::from(nodes[i]);
        hand_on(graph.row(x), labels, usize::from(labels[x]), marks);
    }
}

// Lights the regions of a plot, given marks at those that hold a drive source.
pub fn light_from(plot: &PreparedPlot, marks: &mut [bool])
    requires { length marks.old ≡ component_limit }
    ensures { let p = plot.now.plot in let cs = p.components.now in (fs : List ℤ) →
        Flags component_limit (holds_drive cs p.ports.now fs) marks.old →
        Flags (region_count cs p.ports.now) (Pass.lit cs p.ports.now fs) marks.new }
{
    let mut ends = [0u16; COMPONENTS];
    let mut nodes = [0u16; COMPONENTS];
    by_region(plot.labels, &mut ends, &mut nodes);
    pass(plot.forward, plot.labels, &nodes, marks);
}

// Lights the regions of a plot.
pub fn light(plot: &PreparedPlot, lit: &mut [bool])
    requires { length lit.old ≡ component_limit }
    ensures { let p = plot.now.plot in let cs = p.components.now in
        Flags (region_count cs p.ports.now) (Pass.lit cs p.ports.now p.frontiers.now) lit.new }
{
    let mut on_frontier = [false; COMPONENTS];
    let mut drive_at = [false; COMPONENTS];
    flag_drive(plot, &mut on_frontier, &mut drive_at, lit);
    light_from(plot, lit);
}
