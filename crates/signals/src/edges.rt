// The signal edges of a scene as a sorted table of keys: by the port that they feed.
ghost use Rattle.std.specs.Prelude.{◌≡◌, ℕ, ◌+◌, ◌*◌, ◌^◌, ◌≤◌, ◌<◌, length, get_or};
ghost use Rattle.tables.specs.Pairs.{span};
ghost use Rattle.lists.specs.Records.{port_connection, port_count};
ghost use Rattle.lists.specs.Limits.{component_limit};
ghost use Rattle.lists.specs.Ends.{sources_of, sinks_of};
ghost use Rattle.signals.specs.Signals.{is_signal};
ghost use Rattle.signals.specs.Keys.{Slots, slot, signal_key, signal_keys, KeysOf, Sortable};

use lists::COMPONENTS;
use lists::ends::Ends;
use lists::ids::SUPPORT;
use lists::views::PortList;
use tables::SPAN;

// A port of a member: ports are 0 to 255.
pub const PORTS: usize = 1 << 8;

// The port that port connection k feeds, as one number: its sink's member, then the port.
pub fn fed_port(ports: PortList, k: usize, sink: usize) -> usize
    requires { (k < port_count ports.numbers.now) × (sink ≤ component_limit) }
    ensures { result ≡ slot sink (port_connection ports.entry.numbers.now k).sink_port_of }
{
    sink * PORTS + ports.sink_port(k) as usize
}

// For each port connection the port that it feeds, and the member that feeds it: as `Ends`, of which keys are made.
pub(crate) fn settle_slots(ports: PortList, ends: &[Ends], fed: &mut [Ends])
    requires ports_in_bounds { (port_count ports.numbers.now ≤ length ends.now) × (port_count ports.numbers.now ≤ length fed.old) }
    requires by_index { (k : ℕ) → k < port_count ports.numbers.now → get_or (sinks_of ends.now) k 0 ≤ component_limit }
    ensures slots { Slots ports.entry.numbers.now (sinks_of ends.now) (sources_of fed.new) }
    ensures sources { (k : ℕ) → k < port_count ports.entry.numbers.now → get_or (sinks_of fed.new) k 0 ≡ get_or (sources_of ends.now) k 0 }
{
    for k in 0..ports.count() {
        let Ends { source, sink } = ends[k];
        fed[k] = Ends {
            source: fed_port(ports, k, sink),
            sink: source,
        };
    }
}

// The key of port connection k: the pair of two numbers, or of `nowhere` and COMPONENTS where it is a support. A number and no Option:
// the key is sorted with the others, behind them.
fn signal_key(ports: PortList, k: usize, first: usize, second: usize, nowhere: usize) -> u64
    requires k_bound { k < port_count ports.numbers.now }
    requires first_bound { (first < 2 ^ 32) × ((second < span) × (nowhere < 2 ^ 32)) }
    ensures { result ≡ signal_key (is_signal ports.entry.numbers.now k) first second nowhere }
{
    if ports.transfer(k) == SUPPORT {
        return nowhere as u64 * SPAN + COMPONENTS as u64;
    }
    first as u64 * SPAN + second as u64
}

// Lists the keys of the port connections: pairs of their ends.
pub(crate) fn list_keys(ports: PortList, ends: &[Ends], nowhere: usize, keys: &mut [u64])
    requires { Sortable (port_count ports.numbers.now) (sources_of ends.now) (sinks_of ends.now) nowhere
        × (length keys.old ≡ port_count ports.numbers.now) }
    ensures { keys.new ≡ signal_keys ports.entry.numbers.now (sources_of ends.now) (sinks_of ends.now) nowhere }
{
    for (k, key) in keys.iter_mut().enumerate() {
        *key = signal_key(ports, k, ends[k].source, ends[k].sink, nowhere);
    }
}

// The same sorted. The spare is for the sort.
pub fn signal_keys(
    ports: PortList,
    ends: &[Ends],
    nowhere: usize,
    keys: &mut [u64],
    spare: &mut [u64],
)
    requires sortable { Sortable (port_count ports.numbers.now) (sources_of ends.now) (sinks_of ends.now) nowhere }
    requires keys_len { (length keys.old ≡ port_count ports.numbers.now) × (port_count ports.numbers.now ≤ length spare.old) }
    ensures { KeysOf ports.entry.numbers.now (sources_of ends.now) (sinks_of ends.now) nowhere keys.new }
{
    list_keys(ports, ends, nowhere, keys);
    tables::sort(keys, spare);
}
