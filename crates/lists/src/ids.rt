// Where an id stands in the list of components: a table of (id, list place), sorted once.
ghost use Rattle.std.specs.Prelude.{◌≡◌, true, ◌+◌, ◌*◌, ◌≤◌, ◌<◌, length, take, ℤ, List};
ghost use Rattle.tables.specs.Order.{LowerBound};
ghost use Rattle.tables.specs.Pairs.{pair, span};
ghost use Rattle.lists.specs.Limits.{id_limit};
ghost use Rattle.lists.specs.Records.{component, component_count};
ghost use Rattle.lists.specs.Ids.{place_of, has_component, used_earlier, first_repeated, IdTable};
ghost use Rattle.lists.specs.Ids.{Unrepeated, smaller_ids, MemberPlace, MemberId};

use super::kinds::TransferKind;
use super::views::ComponentList;
use tables::SPAN;

// The pair of the id of component k and its place.
fn id_key(components: ComponentList, k: usize) -> u64
    requires { k < component_count components.numbers.now }
    ensures { result ≡ pair (component components.entry.numbers.now k).id k }
{
    components.id(k) * SPAN + k as u64
}

// Fills `keys` with the table of ids.
pub fn id_table(components: ComponentList, keys: &mut [u64], spare: &mut [u64])
    requires { (length keys.old ≡ component_count components.numbers.now) × (length keys.old ≤ length spare.old) }
    ensures { IdTable components.entry.numbers.now keys.new }
{
    for (k, key) in keys.iter_mut().enumerate() {
        *key = id_key(components, k);
    }
    // The keys were made by rising place.
    tables::sort_pairs(keys, spare);
}

// The list place of an id, given the first position of its key or of one above it.
#[tactic(auto, using(crate::proofs::Table::place_found, crate::proofs::Table::place_none))]
pub(crate) fn found_at(keys: &[u64], i: usize, id: u64) -> Option<usize>
    requires { (id < id_limit) × LowerBound keys.now (id * span) i }
    ensures { (cs : List ℤ) → IdTable cs keys.now → result ≡ place_of cs id }
{
    let key = *keys.get(i)?;
    if key / SPAN == id {
        Some((key % SPAN) as usize)
    } else {
        None
    }
}

// The list place of an id.
pub fn place_of(keys: &[u64], id: u64) -> Option<usize>
    requires { id < id_limit }
    ensures { (cs : List ℤ) → IdTable cs keys.now → result ≡ place_of cs id }
{
    let i = tables::lower_bound(keys, id * SPAN);
    found_at(keys, i, id)
}

// Whether a component has the id.
pub fn has_component(keys: &[u64], id: u64) -> bool
    requires { id < id_limit }
    ensures { (cs : List ℤ) → IdTable cs keys.now → result ≡ has_component cs id }
{
    place_of(keys, id).is_some()
}

// Whether an earlier component has the id of component k.
fn used_earlier(keys: &[u64], components: ComponentList, k: usize) -> bool
    requires { (k < component_count components.numbers.now) × IdTable components.numbers.now keys.now }
    ensures { result ≡ used_earlier components.entry.numbers.now k }
{
    place_of(keys, components.id(k)).is_some_and(|p| p < k)
}

// Whether no neighbours in the table have one id. No id is used twice then.
fn none_repeated(keys: &[u64]) -> bool
    ensures { result ≡ true → Unrepeated keys.now }
{
    for k in 1..keys.len() {
        if keys[k - 1] / SPAN == keys[k] / SPAN {
            return false;
        }
    }
    true
}

// The first component whose id an earlier one has.
pub fn first_repeated(keys: &[u64], components: ComponentList) -> Option<usize>
    requires { IdTable components.numbers.now keys.now }
    ensures { result ≡ first_repeated components.entry.numbers.now }
{
    if none_repeated(keys) {
        return None;
    }
    for k in 0..components.count() {
        if used_earlier(keys, components, k) {
            return Some(k);
        }
    }
    None
}

// A support makes no signal edge. A number as it stands in lists: to turn one into a kind for one test is longer.
pub const SUPPORT: u64 = TransferKind::StructuralSupport as u64;

// The member that stands for the component with the id: how many ids are below it.
pub fn member_of(keys: &[u64], id: u64) -> usize
    requires { id < id_limit }
    ensures { (cs : List ℤ) → IdTable cs keys.now → result ≡ smaller_ids cs id }
{
    tables::lower_bound(keys, id * SPAN)
}

// The list place of the component that member k stands for: the table rises by id.
pub fn place_at(keys: &[u64], k: usize) -> usize
    requires { k < length keys.now }
    ensures { (cs : List ℤ) → IdTable cs keys.now → MemberPlace cs k result }
{
    (keys[k] % SPAN) as usize
}

// The id of the component that member k stands for.
pub fn id_at(keys: &[u64], k: usize) -> u64
    requires { k < length keys.now }
    ensures { (cs : List ℤ) → IdTable cs keys.now → MemberId cs k result }
{
    keys[k] / SPAN
}
