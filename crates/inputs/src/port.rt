// What a search from one port of a plot is made from and to: its immediate sources, and the drive sources.
ghost use Rattle.std.specs.Prelude.{◌≡◌, ℕ, ◌<◌, length};
ghost use Rattle.lists.specs.Records.{component, component_count, port_count};
ghost use Rattle.inputs.specs.Port.{drive_sources, immediate_sources, feeds_id};

use assessment::sources::{drive_flags, frontier_flags};
use lists::ids::SUPPORT;
use lists::views::PortList;
use lists::{COMPONENT, COMPONENTS};
use liveness::plot::Plot;
use signals::flags::gather;
use signals::stages::place_members;

// Whether port connection k carries a signal to the port of the component with the id.
fn feeds(ports: PortList, k: usize, id: u64, port: u64) -> bool
    requires { k < port_count ports.numbers.now }
    ensures { result ≡ feeds_id ports.entry.numbers.now id port k }
{
    ports.transfer(k) != SUPPORT && ports.sink(k) == id && ports.sink_port(k) == port
}

// Flags the members that feed the port of the component with the id, and clears the others.
pub fn flag_immediate(plot: &Plot, id: u64, port: u64, starts: &mut [bool])
    requires { length starts.old ≡ component_count plot.now.components.now }
    ensures { let l = plot.now in
        (p : ℕ) → (component l.components.now p).id ≡ id → starts.new ≡ immediate_sources l.components.now l.ports.now p port }
{
    starts.fill(false);
    let ports = plot.port_list();
    for k in 0..ports.count() {
        if feeds(ports, k, id, port) {
            starts[plot.ends[k].source] = true;
        }
    }
}

// Flags the drive sources, by member.
pub fn drive_members(plot: &Plot, goals: &mut [bool])
    requires { length goals.old ≡ component_count plot.now.components.now }
    ensures { goals.new ≡ drive_sources plot.now.components.now plot.now.frontiers.now }
{
    let mut on_frontier = [false; COMPONENTS];
    let mut drive_at = [false; COMPONENTS];
    let mut members = [0u16; COMPONENTS];
    frontier_flags(plot.components, plot.frontiers, &mut on_frontier);
    drive_flags(plot.component_list(), &on_frontier, &mut drive_at);
    place_members(plot.keys, &mut members);
    let count = plot.components.len() / COMPONENT;
    gather(&members[..count], &drive_at, goals);
}
