// The stages of the analysis over local arrays: edges by the port that they feed, members, cyclic regions.
ghost use Rattle.std.specs.Prelude.{None};
ghost use Rattle.std.specs.Prelude.{◌≡◌, ◌||◌, List, ◌*◌, ◌≤◌, leb, length, get_or, ℤ};
ghost use Rattle.tables.specs.Order.{member};
ghost use Rattle.lists.specs.Limits.{component_limit};
ghost use Rattle.lists.specs.Records.{component_count, port_count};
ghost use Rattle.lists.specs.Ids.{IdTable, IsIdTable, member_of, first_repeated};
ghost use Rattle.lists.specs.Ends.{Settled, sources_of, sinks_of};
ghost use Rattle.regions.specs.Graph.{at, marked};
ghost use Rattle.graph.specs.Rows.{edges_of};
ghost use Rattle.signals.specs.Flags.{Flags, Numbers, GatheredBy, Indices};
ghost use Rattle.signals.specs.Stages.{FedTable, cyclic_at};

use super::edges::{PORTS, settle_slots, signal_keys};
use super::flags::count_into;
use graph::Graph;
use lists::ends::Ends;
use lists::ids::place_at;
use lists::views::PortList;
use lists::{COMPONENTS, CONNECTIONS};

// Sorts the signal edges by the port that they feed, given their settled ends.
pub fn build_fed(ports: PortList, ends: &[Ends], fed: &mut [u64])
    requires settled { (cs : List ℤ) × ((component_count cs ≤ component_limit)
        × (Settled cs ports.numbers.now 0 (sources_of ends.now) × Settled cs ports.numbers.now 2 (sinks_of ends.now))) }
    requires ports_in_bounds { (port_count ports.numbers.now ≤ length ends.now) × (length fed.old ≡ port_count ports.numbers.now) }
    ensures { FedTable ports.entry.numbers.now (sources_of ends.now) (sinks_of ends.now) fed.new }
{
    let mut feeds = [Ends { source: 0, sink: 0 }; CONNECTIONS];
    let mut spare = [0u64; CONNECTIONS];
    settle_slots(ports, ends, &mut feeds);
    signal_keys(ports, &feeds, COMPONENTS * PORTS, fed, &mut spare);
}

// The member of each component, by list place.
pub fn place_members(keys: &[u64], members: &mut [u16])
    requires { IsIdTable keys.now × (length keys.now ≤ length members.old) × (length keys.now ≤ component_limit) }
    ensures { (cs : List ℤ) → IdTable cs keys.now → first_repeated cs ≡ None → Numbers (component_count cs) (member_of cs) members.new }
{
    for m in 0..keys.len() {
        members[place_at(keys, m)] = m as u16;
    }
}

// Flags the regions of two nodes or more.
fn flag_large(sizes: &[usize], flags: &mut [bool])
    requires { length sizes.now ≤ length flags.old }
    ensures { Flags (length sizes.now) (λ r. leb 2 (get_or sizes.now r 0) || marked flags.old r) flags.new }
{
    for (r, size) in sizes.iter().enumerate() {
        flags[r] |= 2 <= *size;
    }
}

// Whether a node stands in a row.
fn holds(row: &[u16], x: usize) -> bool
    ensures { result ≡ member x row.now }
{
    let mut found = false;
    for neighbour in row {
        found |= usize::from(*neighbour) == x;
    }
    found
}

// Flags the regions with an edge from a node to itself, and clears the others.
fn flag_selves(graph: Graph, labels: &[u16], flags: &mut [bool])
    requires nodes { length graph.ends.now ≡ length labels.now }
    requires indices { Indices (length labels.now) (length flags.old) labels.now }
    ensures { let edge = edges_of graph.entry.ends.now graph.entry.next.now in
        GatheredBy (length labels.now) (at labels.now) (λ a. edge a a) flags.new }
{
    flags.fill(false);
    for (x, label) in labels.iter().enumerate() {
        flags[usize::from(*label)] |= holds(graph.row(x), x);
    }
}

// Flags the cyclic regions: those of two nodes or more, or with an edge from a node to itself.
pub fn find_cyclic(graph: Graph, labels: &[u16], flags: &mut [bool])
    requires nodes { length graph.ends.now ≡ length labels.now }
    requires indices { Indices (length labels.now) (length flags.old) labels.now × (length flags.old ≤ component_limit) }
    ensures { Flags (length flags.old) (cyclic_at (edges_of graph.entry.ends.now graph.entry.next.now) labels.now) flags.new }
{
    let count = flags.len();
    let mut sizes = [0usize; COMPONENTS];
    flag_selves(graph, labels, flags);
    count_into(labels, &mut sizes[..count]);
    flag_large(&sizes[..count], flags);
}
