// Hints of where an id stands in the table of ids, two to a slot. A wrong hint costs time and nothing else: what it says is
// tested, and the table is searched where it is wrong.
ghost use Rattle.std.specs.Prelude.{◌≡◌, ◌+◌, ◌*◌, ◌≤◌, ◌<◌, List, ℤ, length};
ghost use Rattle.tables.specs.Order.{LowerBound};
ghost use Rattle.tables.specs.Pairs.{span};
ghost use Rattle.lists.specs.Limits.{id_limit};
ghost use Rattle.lists.specs.Ids.{place_of, IdTable, smaller_ids};

use super::IDS;
use super::ids::found_at;
use tables::SPAN;

// Four times as many slots as components: one id of a hundred finds its slot taken twice.
pub const SLOTS: usize = 1 << 12;

// The two hints of each slot.
pub type Hints = [[u16; 2]; SLOTS];

// Spreads ids that are near each other: 2^32 over the golden ratio, by Knuth.
const SPREAD: u64 = 2654435769;

// The slot of an id.
fn slot_of(id: u64) -> usize
    ensures { result < 4096 }
{
    ((id % IDS * SPREAD >> 20) % SLOTS as u64) as usize
}

// Fills in the hints of a table of ids.
pub fn hint_ids(keys: &[u64], hints: &mut Hints)
    ensures { length hints.new ≡ length hints.old }
{
    for (k, key) in keys.iter().enumerate() {
        let slot = slot_of(*key / SPAN);
        let [first, _] = hints[slot];
        hints[slot] = [(k % SPAN as usize) as u16, first];
    }
}

// The first position of the table whose key is of the id or above it.
fn position_of(keys: &[u64], hints: &Hints, id: u64) -> usize
    requires { id < id_limit }
    ensures { LowerBound keys.now (id * span) result }
{
    let [first, second] = hints[slot_of(id)];
    tables::lower_bound_near(keys, id * SPAN, usize::from(first), usize::from(second))
}

// What `place_of` gives, by the hints. Keys and hints go to three functions alone; where more stands on them, `scene`'s `Scene` holds both.
pub fn place_near(keys: &[u64], hints: &Hints, id: u64) -> Option<usize>
    requires { id < id_limit }
    ensures { (cs : List ℤ) → IdTable cs keys.now → result ≡ place_of cs id }
{
    found_at(keys, position_of(keys, hints, id), id)
}

// What `member_of` gives, by the hints.
pub fn member_near(keys: &[u64], hints: &Hints, id: u64) -> usize
    requires { id < id_limit }
    ensures { (cs : List ℤ) → IdTable cs keys.now → result ≡ smaller_ids cs id }
{
    position_of(keys, hints, id)
}
