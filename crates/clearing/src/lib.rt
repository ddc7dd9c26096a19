// Clearing up a plot after digging: a scene that names blocks which are gone is given back without the port connections to them.
#![tactic(auto)]

ghost use Rattle.std.specs.Prelude.{◌≡◌, ◌*◌, ◌≤◌, ◌<◌, length, List, ℤ};
ghost use Rattle.lists.specs.Limits.{port_width, id_limit};
ghost use Rattle.lists.specs.Records.{port_count};
ghost use Rattle.lists.specs.Ids.{has_component, IdTable};
ghost use Rattle.lists.specs.Rules.{rules_of};
ghost use Rattle.clearing.specs.Parts.{missing_number, dropped_width};
ghost use Rattle.clearing.specs.Entry.{Clears};
ghost use Rattle.clearing.specs.Written.{fate_of, PartedFor};

use assessment::verdicts::put_row;
use checks::ranges::PORT_RANGES;
use checks::refusals::{refuse_scene, room_for};
use lists::hints::{Hints, SLOTS, hint_ids, place_near};
use lists::ids::SUPPORT;
use lists::rules::rules_of;
use lists::views::PortList;
use lists::{COMPONENT, COMPONENTS, PORT, Refusal};

// A dropped row: the old item number, and which ends were missing.
pub const DROPPED: usize = 2;

// Which ends of a dropped port connection are no component, in the order of their numbers in dropped rows.
#[derive(Clone, Copy)]
pub enum Missing {
    Source,
    Sink,
    Both,
}

impl From<Missing> for u64 {
    ghost from_gives = { λ missing number. number ≡ missing_number missing };

    fn from(missing: Missing) -> u64 {
        missing as u64
    }
}

// How many port connections are kept, and how many dropped.
#[derive(Clone, Copy)]
pub struct Cleared {
    pub kept: usize,
    pub dropped: usize,
}

// Whether a component has the id.
fn is_component(keys: &[u64], hints: &Hints, id: u64) -> bool
    requires { id < id_limit }
    ensures { (cs : List ℤ) → IdTable cs keys.now → result ≡ has_component cs id }
{
    place_near(keys, hints, id).is_some()
}

// Which ends of port connection k are missing, where it is dropped.
fn fate_of(keys: &[u64], hints: &Hints, ports: PortList, k: usize) -> Option<Missing>
    requires { k < port_count ports.numbers.now }
    ensures { (cs : List ℤ) → IdTable cs keys.now → result ≡ fate_of cs ports.entry.numbers.now k }
{
    if ports.transfer(k) == SUPPORT {
        return None;
    }
    let source = is_component(keys, hints, ports.source(k));
    let sink = is_component(keys, hints, ports.sink(k));
    match (source, sink) {
        (true, true) => None,
        (true, false) => Some(Missing::Sink),
        (false, true) => Some(Missing::Source),
        (false, false) => Some(Missing::Both),
    }
}

// Parts the port connections, in order, into those kept and those dropped.
fn part(keys: &[u64], ports: PortList, kept: &mut [i64], dropped: &mut [u64]) -> Cleared
    requires kept_room { port_count ports.numbers.now * port_width ≤ length kept.old }
    requires dropped_room { port_count ports.numbers.now * dropped_width ≤ length dropped.old }
    ensures { (cs : List ℤ) → IdTable cs keys.now →
        PartedFor cs ports.entry.numbers.now kept.old kept.new dropped.old dropped.new result }
{
    let mut hints = [[0u16; 2]; SLOTS];
    hint_ids(keys, &mut hints);
    let mut kept_end = 0;
    let mut dropped_end = 0;
    for k in 0..ports.count() {
        match fate_of(keys, &hints, ports, k) {
            None => {
                let at = k * PORT;
                kept[kept_end..kept_end + PORT].copy_from_slice(&ports.numbers[at..at + PORT]);
                kept_end += PORT;
            }
            Some(missing) => {
                let row = [k as u64, u64::from(missing)];
                dropped_end = put_row(dropped, dropped_end, &row);
            }
        }
    }
    Cleared {
        kept: kept_end / PORT,
        dropped: dropped_end / DROPPED,
    }
}

// The port connections that name no missing block, at the front of `kept`, and the items of those that do, at the front of
// `dropped`. Which these are is the same under all rules, whose number is only checked.
pub fn clear_missing(
    rules: i64,
    components: &[i64],
    ports: &[i64],
    frontiers: &[i64],
    kept: &mut [i64],
    dropped: &mut [u64],
) -> Result<Cleared, Refusal>
    ensures { Clears (rules_of rules) components.now ports.now frontiers.now kept.old kept.new dropped.old dropped.new result }
{
    let rules = rules_of(rules);
    let mut keys = [0u64; COMPONENTS];
    let places = ports.len() / PORT;
    let enough = room_for(places, PORT, kept.len()) & room_for(places, DROPPED, dropped.len());
    let found = PORT_RANGES.first_outside(ports);
    refuse_scene(
        rules,
        components,
        PORT,
        ports.len(),
        found,
        frontiers,
        enough,
        &mut keys,
    )?;
    let listed = PortList { numbers: ports };
    let count = components.len() / COMPONENT;
    Ok(part(&keys[..count], listed, kept, dropped))
}
