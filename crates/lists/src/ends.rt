// The ends of port connections: the member of each, looked up once, and the first connection that lacks one.
// Ports and ends stay two parameters, here and where they are read: the ends are lent to be filled, and what is known of them grows by stage
// (`Settled`, `SettledEnds`, `SignalEnds`), so that a struct could hold no more than that there are enough.
ghost use Rattle.std.specs.Prelude.{◌≡◌, List, ◌≤◌, ◌<◌, length, ℤ};
ghost use Rattle.lists.specs.Records.{port_count};
ghost use Rattle.lists.specs.Ids.{has_component, end_missing, first_end_missing, IdTable, smaller_ids};
ghost use Rattle.lists.specs.Ends.{SettledEnds, sources_of, sinks_of};

use super::hints::{SLOTS, hint_ids, member_near};
use super::ids::SUPPORT;
use super::views::PortList;
use tables::SPAN;

// The numbers of the two ends of a connection.
#[derive(Clone, Copy)]
pub struct Ends {
    pub source: usize,
    pub sink: usize,
}

// The members at the ends of each port connection.
pub fn settle_ends(keys: &[u64], ports: PortList, ends: &mut [Ends])
    requires { port_count ports.numbers.now ≤ length ends.old }
    ensures { (cs : List ℤ) → IdTable cs keys.now → SettledEnds cs ports.entry.numbers.now (sources_of ends.new) (sinks_of ends.new) }
{
    let mut hints = [[0u16; 2]; SLOTS];
    hint_ids(keys, &mut hints);
    for k in 0..ports.count() {
        ends[k] = Ends {
            source: member_near(keys, &hints, ports.source(k)),
            sink: member_near(keys, &hints, ports.sink(k)),
        };
    }
}

// Whether a component has the id, given the member that would stand for it. No plainer by `get`: it was tried, and takes a law more.
#[tactic(auto, using(crate::proofs::EndLaws::member_stands, crate::proofs::EndLaws::member_past))]
fn stands_at(keys: &[u64], m: usize, id: u64) -> bool
    ensures { (cs : List ℤ) → IdTable cs keys.now → m ≡ smaller_ids cs id → result ≡ has_component cs id }
{
    m < keys.len() && keys[m] / SPAN == id
}

// Whether port connection k is no support and has an end that is no component.
fn end_missing(keys: &[u64], ports: PortList, ends: &[Ends], k: usize) -> bool
    requires { (k < port_count ports.numbers.now) × (k < length ends.now) }
    ensures { (cs : List ℤ) → IdTable cs keys.now →
        SettledEnds cs ports.entry.numbers.now (sources_of ends.now) (sinks_of ends.now) →
        result ≡ end_missing cs ports.entry.numbers.now k }
{
    let settled = ends[k];
    let transfer = ports.transfer(k);
    let source = stands_at(keys, settled.source, ports.source(k));
    let sink = stands_at(keys, settled.sink, ports.sink(k));
    !(transfer == SUPPORT) & !(source & sink)
}

// The first port connection with a missing end, given their settled ends.
pub fn first_end_missing(keys: &[u64], ports: PortList, ends: &[Ends]) -> Option<usize>
    requires { port_count ports.numbers.now ≤ length ends.now }
    ensures { (cs : List ℤ) → IdTable cs keys.now →
        SettledEnds cs ports.entry.numbers.now (sources_of ends.now) (sinks_of ends.now) →
        result ≡ first_end_missing cs ports.entry.numbers.now }
{
    for k in 0..ports.count() {
        if end_missing(keys, ports, ends, k) {
            return Some(k);
        }
    }
    None
}
