// Whether the connections that are held are such that clicks can leave them: in range, between components, and none twice.
ghost use Rattle.std.specs.Prelude.{◌≡◌, true, false, None, IfSome, cond, List, ℤ, ◌^◌, ◌≤◌, ◌<◌, length};
ghost use Rattle.lists.specs.Limits.{component_limit, connection_limit, id_limit};
ghost use Rattle.lists.specs.Records.{port_count};
ghost use Rattle.lists.specs.Ids.{has_component, first_repeated, smaller_ids, IdTable};
ghost use Rattle.held.specs.Inspected.{member_if, way_of, key_if, KeysFor, NeighboursDiffer, Differ, connections_pass};

use checks::ranges::PORT_RANGES;
use lists::hints::{Hints, SLOTS, hint_ids, member_near};
use lists::numbers::natural_at;
use lists::views::PortList;
use lists::{COMPONENTS, CONNECTIONS, PORT};
use tables::SPAN;

// A port is parted in a key, and so is below 8 one digit: keys of such ports are short, and sorted in two rounds.
const DIGIT: u64 = 8;

// The higher digits of a port are below this.
const HIGH: u64 = 256 / DIGIT;

// Ports and transfer as one number.
fn way_of(source_port: u64, sink_port: u64, transfer: u64) -> u64
    requires { (source_port < 256) × ((sink_port < 256) × (transfer < 8)) }
    ensures value { result ≡ way_of source_port sink_port transfer }
    ensures below { result < 2 ^ 19 }
{
    let high = source_port / DIGIT * HIGH + sink_port / DIGIT;
    let low = source_port % DIGIT * DIGIT + sink_port % DIGIT;
    high * (DIGIT * DIGIT * DIGIT) + (low * DIGIT + transfer)
}

// Whether a component has the id, given the member that would stand for it.
#[tactic(auto, using(lists::proofs::EndLaws::member_stands, lists::proofs::EndLaws::member_past))]
fn stands_at(table: &[u64], m: usize, id: u64) -> bool
    ensures stands { (cs : List ℤ) → IdTable cs table.now → m ≡ smaller_ids cs id → result ≡ has_component cs id }
    ensures below { result ≡ true → m < length table.now }
{
    m < table.len() && table[m] / SPAN == id
}

// The member that stands for the component with the id.
fn member_if(table: &[u64], hints: &Hints, id: u64) -> Option<u64>
    requires { id < id_limit }
    ensures member { (cs : List ℤ) → IdTable cs table.now → result ≡ member_if cs id }
    ensures below { IfSome result (λ m. m < length table.now) }
{
    let m = member_near(table, hints, id);
    if stands_at(table, m, id) {
        Some(m as u64)
    } else {
        None
    }
}

// The key of connection k, if both its ends are components: two connections of one key are the same.
fn key_if(table: &[u64], hints: &Hints, ports: PortList, k: usize) -> Option<u64>
    requires { (length table.now ≤ component_limit) × (k < port_count ports.numbers.now) }
    ensures { (cs : List ℤ) → IdTable cs table.now → result ≡ key_if cs ports.entry.numbers.now k }
{
    let source = member_if(table, hints, ports.source(k))?;
    let sink = member_if(table, hints, ports.sink(k))?;
    let source_port = natural_at(ports.numbers, k * PORT + 1);
    let way = way_of(source_port, ports.sink_port(k), ports.transfer(k));
    let members = COMPONENTS as u64;
    Some((way * members + source) * members + sink)
}

// Fills in the key of each connection, as far as both ends are components. Answers whether they all are.
fn connection_keys(table: &[u64], ports: PortList, keys: &mut [u64]) -> bool
    requires { (length table.now ≤ component_limit) × (port_count ports.numbers.now ≤ length keys.old) }
    ensures { (cs : List ℤ) → IdTable cs table.now → KeysFor cs ports.entry.numbers.now keys.new result }
{
    let mut hints = [[0u16; 2]; SLOTS];
    hint_ids(table, &mut hints);
    for k in 0..ports.count() {
        match key_if(table, &hints, ports, k) {
            Some(key) => keys[k] = key,
            None => return false,
        }
    }
    true
}

// Whether no two neighbours are the same.
fn neighbours_differ(keys: &[u64]) -> bool
    ensures { NeighboursDiffer keys.now result }
{
    for k in 1..keys.len() {
        if keys[k - 1] == keys[k] {
            return false;
        }
    }
    true
}

// Whether no two keys are the same.
fn all_differ(keys: &mut [u64], spare: &mut [u64]) -> bool
    requires { length keys.old ≤ length spare.old }
    ensures { Differ keys.old result }
{
    tables::sort(keys, spare);
    neighbours_differ(keys)
}

// Whether connections are in range, have components at both ends, and none is there twice.
pub fn connections_pass(table: &[u64], ports: &[i64]) -> bool
    requires { (length table.now ≤ component_limit) × (port_count ports.now ≤ connection_limit) }
    ensures { (cs : List ℤ) → IdTable cs table.now → first_repeated cs ≡ None → result ≡ connections_pass cs ports.now }
{
    if PORT_RANGES.first_outside(ports).is_some() {
        return false;
    }
    let mut room = [0u64; CONNECTIONS];
    let mut spare = [0u64; CONNECTIONS];
    let keys = &mut room[..ports.len() / PORT];
    if !connection_keys(table, PortList { numbers: ports }, keys) {
        return false;
    }
    all_differ(keys, &mut spare)
}
