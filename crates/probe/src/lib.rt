// What the tests from Rust call and no entry gives: the list checks of a sheet, the table of ids, a fragment's nets, any step, and a report under limits.
#![tactic(auto)]

mod groups;
mod sheets;
mod steps;

ghost use Rattle.std.specs.Prelude.{◌≡◌, ℕ, Some, true, [], take};
ghost use Rattle.lists.specs.Rules.{rules_of};
ghost use Rattle.lists.specs.Ids.{IdTable};
ghost use Rattle.checks.specs.Refusals.{grouping_lists, sheet_refusal, packed};
ghost use Rattle.probe.specs.Places.{IsPlace, answer_of, count_among, place_among, MemberAnswer};

use checks::refusals::{grouping_lists, pack};
use lists::ids::{place_at, place_of};
use lists::rules::rules_of;
use lists::{COMPONENT, COMPONENTS, IDS};

// What the list checks of a sheet say, as one number.
#[unsafe(no_mangle)]
pub extern "C" fn probe_sheet_refusal(
    rules: i64,
    components: &[i64],
    connections: &[i64],
    frontiers: &[i64],
) -> u64
    ensures { result ≡ packed (sheet_refusal (rules_of rules) components.now connections.now frontiers.now) }
{
    let (mut keys, rules) = ([0u64; COMPONENTS], rules_of(rules));
    pack(grouping_lists(rules, components, connections, frontiers, true, &mut keys))
}

// One more than a place, or 0 for none.
fn answer(found: Option<usize>) -> u64
    requires { IsPlace found }
    ensures { result ≡ answer_of found }
{
    found.map_or(0, |place| place as u64 + 1)
}

// The table of ids at the front of `keys`, and how many these are, where the checks accept the components. It is the same under all rules:
// rules 1 stand for them here and below.
fn accepted_ids(components: &[i64], keys: &mut [u64; COMPONENTS]) -> Option<usize>
    ensures count { result ≡ count_among (grouping_lists 1 components.now [] [] true) components.now }
    ensures table { (n : ℕ) → result ≡ Some n → IdTable components.now (take n keys.new) }
{
    let none = &components[..0];
    grouping_lists(1, components, none, none, true, keys).ok()?;
    Some(components.len() / COMPONENT)
}

// The list place of an id among components that the checks accept, or nothing.
fn find(components: &[i64], id: u64) -> Option<usize>
    ensures value { result ≡ place_among (grouping_lists 1 components.now [] [] true) components.now id }
    ensures place { IsPlace result }
{
    let mut keys = [0u64; COMPONENTS];
    let count = accepted_ids(components, &mut keys)?;
    if IDS <= id {
        return None;
    }
    place_of(&keys[..count], id)
}

#[unsafe(no_mangle)]
pub extern "C" fn probe_place_of(components: &[i64], id: u64) -> u64
    ensures { result ≡ answer_of (place_among (grouping_lists 1 components.now [] [] true) components.now id) }
{
    answer(find(components, id))
}

// The list place of the component with the k-th smallest id, where the components are accepted and there are so many.
fn find_member(components: &[i64], k: usize) -> Option<usize>
    ensures member { MemberAnswer (grouping_lists 1 components.now [] [] true) components.now k (answer_of result) }
    ensures place { IsPlace result }
{
    let mut keys = [0u64; COMPONENTS];
    let count = accepted_ids(components, &mut keys)?;
    if count <= k {
        return None;
    }
    Some(place_at(&keys[..count], k))
}

#[unsafe(no_mangle)]
pub extern "C" fn probe_place_of_member(components: &[i64], k: usize) -> u64
    ensures { MemberAnswer (grouping_lists 1 components.now [] [] true) components.now k result }
{
    answer(find_member(components, k))
}
