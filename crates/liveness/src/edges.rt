// The signal edges of a plot as rows, forward and backward.
ghost use Rattle.std.specs.Prelude.{◌≡◌, cond, ℕ, ◌≤◌, ◌<◌, length, get_or};
ghost use Rattle.lists.specs.Limits.{component_limit};
ghost use Rattle.lists.specs.Records.{component_count, port_count};
ghost use Rattle.lists.specs.Ends.{sources_of, sinks_of};
ghost use Rattle.regions.specs.Graph.{flip};
ghost use Rattle.signals.specs.Signals.{is_signal, signals};
ghost use Rattle.graph.specs.Rows.{Rows};
ghost use Rattle.liveness.specs.Scene.{NarrowEnds};

use super::plot::Plot;
use graph::build::{build_one_way, build_rows};
use lists::ends::Ends;
use lists::ids::SUPPORT;
use lists::views::PortList;
use lists::{COMPONENTS, CONNECTIONS};

// No node has this number: a connection with it as an end makes no edge.
const NOWHERE: u16 = COMPONENTS as u16;

// The sink of port connection k, or a number that no node has where it is a support.
fn narrow_sink(ports: PortList, k: usize, sink: usize) -> u16
    requires k_bound { k < port_count ports.numbers.now }
    requires sink_bound { sink ≤ component_limit }
    ensures { result ≡ cond (is_signal ports.entry.numbers.now k) sink component_limit }
{
    if ports.transfer(k) == SUPPORT {
        return NOWHERE;
    }
    sink as u16
}

// Writes the members at the ends of each port connection, in as many bits as a row has for a node.
fn narrow_ends(ports: PortList, ends: &[Ends], sources: &mut [u16], sinks: &mut [u16])
    requires in_bounds { port_count ports.numbers.now ≤ length ends.now }
    requires members { (k : ℕ) → k < port_count ports.numbers.now
        → (get_or (sources_of ends.now) k 0 ≤ component_limit) × (get_or (sinks_of ends.now) k 0 ≤ component_limit) }
    requires places { (length sources.old ≡ port_count ports.numbers.now) × (length sinks.old ≡ port_count ports.numbers.now) }
    ensures { NarrowEnds ports.entry.numbers.now (sources_of ends.now) (sinks_of ends.now) sources.new sinks.new }
{
    for k in 0..ports.count() {
        let Ends { source, sink } = ends[k];
        sources[k] = source as u16;
        sinks[k] = narrow_sink(ports, k, sink);
    }
}

impl Plot<'_> {
    // Builds the rows of the signal edges, and of the same turned around.
    pub fn rows(&self, ends: &mut [u16], next: &mut [u16], back_ends: &mut [u16], back: &mut [u16])
        requires nodes { let n = component_count self.now.components.now in (length ends.old ≡ n) × (length back_ends.old ≡ n) }
        requires places { let m = port_count self.now.ports.now in (m ≤ length next.old) × (m ≤ length back.old) }
        ensures forward { let p = self.now in
            Rows (component_count p.components.now) (signals p.components.now p.ports.now) ends.new next.new }
        ensures backward { let p = self.now in
            Rows (component_count p.components.now) (flip (signals p.components.now p.ports.now)) back_ends.new back.new }
    {
        let m = self.port_list().count();
        let mut from = [0u16; CONNECTIONS];
        let mut to = [0u16; CONNECTIONS];
        let sources = &mut from[..m];
        let sinks = &mut to[..m];
        narrow_ends(self.port_list(), self.ends, sources, sinks);
        build_rows(sources, sinks, ends, next, back_ends, back);
    }

    // Builds the rows of the signal edges turned around alone.
    pub fn back_rows(&self, ends: &mut [u16], next: &mut [u16])
        requires nodes { length ends.old ≡ component_count self.now.components.now }
        requires places { port_count self.now.ports.now ≤ length next.old }
        ensures { let p = self.now in
            Rows (component_count p.components.now) (flip (signals p.components.now p.ports.now)) ends.new next.new }
    {
        let m = self.port_list().count();
        let mut from = [0u16; CONNECTIONS];
        let mut to = [0u16; CONNECTIONS];
        let sources = &mut from[..m];
        let sinks = &mut to[..m];
        narrow_ends(self.port_list(), self.ends, sources, sinks);
        build_one_way(sinks, sources, ends, next);
    }
}
