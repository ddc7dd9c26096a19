// The check of a trail. It shares no search with the finder.
ghost use Rattle.std.specs.Prelude.{Some, None, ◌≡◌, ◌<◌, length, get_or, drop};
ghost use Rattle.lists.specs.declared.Fault.{Fault};
ghost use Rattle.lists.specs.Records.{component_count, port_count};
ghost use Rattle.signals.specs.Sources.{is_drive};
ghost use Rattle.inputs.specs.Query.{row_place};
ghost use Rattle.trail.specs.Trail.{onward};
ghost use Rattle.trail.specs.Port.{is_drive_id, carries, feeds_next, feeds_into, port_trail};
ghost use Rattle.trail.specs.Entries.{row_refusal, CheckingBy};

use assessment::sources::{drive_flags, frontier_flags};
use inputs::row::row_place;
use lists::ids::{SUPPORT, place_of};
use lists::views::PortList;
use lists::{COMPONENTS, Fault, IDS, Refusal};
use liveness::plot::Plot;

// Whether port connection k carries a signal from one id to another.
fn carries_signal(ports: PortList, k: usize, a: u64, b: u64) -> bool
    requires { k < port_count ports.numbers.now }
    ensures { result ≡ carries ports.entry.numbers.now a b k }
{
    let signal = ports.transfer(k) != SUPPORT;
    let source = ports.source(k) == a;
    signal & (source & (ports.sink(k) == b))
}

// Whether the component with one id feeds that with another.
fn feeds_next(ports: PortList, a: u64, b: u64) -> bool
    ensures { result ≡ feeds_next ports.entry.numbers.now a b }
{
    for k in 0..ports.count() {
        if carries_signal(ports, k, a, b) {
            return true;
        }
    }
    false
}

// Whether the component with an id feeds a port of that with another.
fn feeds_into(ports: PortList, a: u64, id: u64, port: u64) -> bool
    ensures { result ≡ feeds_into ports.entry.numbers.now id port a }
{
    for k in 0..ports.count() {
        if carries_signal(ports, k, a, id) && ports.sink_port(k) == port {
            return true;
        }
    }
    false
}

// Whether each next one is fed by the one before, and the last feeds the port.
fn goes_on(ports: PortList, id: u64, port: u64, trail: &[u64]) -> bool
    requires { 0 < length trail.now }
    ensures { let ps = ports.entry.numbers.now in
        result ≡ onward (feeds_next ps) (feeds_into ps id port) (get_or trail.now 0 0) (drop 1 trail.now) }
{
    for i in 1..trail.len() {
        if !feeds_next(ports, trail[i - 1], trail[i]) {
            return false;
        }
    }
    feeds_into(ports, trail[trail.len() - 1], id, port)
}

// Whether the component at a place is a drive source.
fn is_drive(plot: &Plot, p: usize) -> bool
    requires { p < component_count plot.now.components.now }
    ensures { result ≡ is_drive plot.now.components.now plot.now.frontiers.now p }
{
    let mut on_frontier = [false; COMPONENTS];
    let mut drive_at = [false; COMPONENTS];
    frontier_flags(plot.components, plot.frontiers, &mut on_frontier);
    drive_flags(plot.component_list(), &on_frontier, &mut drive_at);
    drive_at[p]
}

// Whether the component with the id is a drive source.
fn is_drive_id(plot: &Plot, id: u64) -> bool
    ensures { result ≡ is_drive_id plot.now.components.now plot.now.frontiers.now id }
{
    if IDS <= id {
        return false;
    }
    match place_of(plot.keys, id) {
        Some(p) => is_drive(plot, p),
        None => false,
    }
}

// Whether a list of ids is a trail of the port.
fn is_trail(plot: &Plot, id: u64, port: u64, trail: &[u64]) -> bool
    ensures { let l = plot.now in result ≡ port_trail l.components.now l.ports.now l.frontiers.now id port trail.now }
{
    if trail.is_empty() {
        return false;
    }
    is_drive_id(plot, trail[0]) & goes_on(plot.port_list(), id, port, trail)
}

// The check of a trail of a plot; 8 where the port has no verdict row.
pub(crate) fn check_plot(plot: &Plot, id: u64, port: u64, trail: &[u64]) -> Result<bool, Refusal>
    ensures { let l = plot.now in CheckingBy (row_refusal (row_place l.rules l.components.now id port))
        l.components.now l.ports.now l.frontiers.now id port trail.now result }
{
    row_place(plot.rules, plot.keys, plot.component_list(), id, port).ok_or(Refusal {
        fault: Fault::NoVerdictRow,
        list: None,
        item: 0,
    })?;
    Ok(is_trail(plot, id, port, trail))
}
