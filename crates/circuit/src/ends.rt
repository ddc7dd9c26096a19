// Where the ends of connections stand: hints by id, as `lists::hints` has them for any table of ids. In a table of places no two entries
// have one id, so that an entry with the id is the one, and its neighbours are not looked at.
ghost use Rattle.std.specs.Prelude.{◌≡◌, true, ◌<◌, List, ℤ, length};
ghost use Rattle.lists.specs.First.{is_found};
ghost use Rattle.lists.specs.Ids.{place_of};
ghost use Rattle.lists.specs.Limits.{id_limit};
ghost use Rattle.lists.specs.Places.{PlacesOfIds};

use lists::IDS;
use lists::hints::{Hints, SLOTS};
use lists::ids::place_of;
use tables::SPAN;

// Spreads ids that are near each other: 2^32 over the golden ratio, by Knuth.
const SPREAD: u64 = 2654435769;

// The slot of an id.
fn slot_of(id: u64) -> usize
    ensures { result < 4096 }
{
    ((id % IDS * SPREAD >> 20) % SLOTS as u64) as usize
}

// Fills in the hints of a table of places.
pub(crate) fn hint_ends(keys: &[u64], hints: &mut Hints)
    ensures { length hints.new ≡ length hints.old }
{
    for (k, key) in keys.iter().enumerate() {
        let slot = slot_of(*key / SPAN);
        let [first, _] = hints[slot];
        hints[slot] = [(k % SPAN as usize) as u16, first];
    }
}

// The place beside the id, where the hinted entry has it.
#[tactic(auto, using(crate::proofs::Entry::entry_found))]
fn place_beside(keys: &[u64], hint: u16, id: u64) -> Option<usize>
    ensures { (cs : List ℤ) → PlacesOfIds cs keys.now → is_found result ≡ true → result ≡ place_of cs id }
{
    let key = *keys.get(hint as usize)?;
    if key / SPAN == id {
        Some((key % SPAN) as usize)
    } else {
        None
    }
}

// What `place_of` gives, by the hints.
pub(crate) fn end_place(keys: &[u64], hints: &Hints, id: u64) -> Option<usize>
    requires { id < id_limit }
    ensures { (cs : List ℤ) → PlacesOfIds cs keys.now → result ≡ place_of cs id }
{
    let [first, second] = hints[slot_of(id)];
    let found = place_beside(keys, first, id);
    if found.is_some() {
        return found;
    }
    let found = place_beside(keys, second, id);
    if found.is_some() {
        return found;
    }
    place_of(keys, id)
}
