// The sources of one input of a scene. The lists are lent as numbers and read where they stand.
ghost use Rattle.std.specs.Prelude.{◌≡◌, ◌*◌, ◌≤◌, length};
ghost use Rattle.sets.specs.Members.{word_count};
ghost use Rattle.lists.specs.Slices.{laid};
ghost use Rattle.lists.specs.Rules.{rules_of};
ghost use Rattle.capi.specs.InputSets.{InputByLists};

use super::alive::refuse_short;
use checks::refusals::{pack_refusal, room_for};
use inputs::{InputSources, required_input};
use lists::rules::rules_of;
use sets::WORDS;

// Writes both sets at the front of their slices.
fn put_sources(found: InputSources, immediate: &mut [u64], inferred: &mut [u64]) -> u64
    requires { (word_count ≤ length immediate.old) × (word_count ≤ length inferred.old) }
    ensures immediate_set { immediate.new ≡ laid found.immediate.words immediate.old }
    ensures inferred_set { inferred.new ≡ laid found.inferred.words inferred.old }
    ensures count { result ≡ 0 }
{
    immediate[..WORDS].copy_from_slice(&found.immediate.words);
    inferred[..WORDS].copy_from_slice(&found.inferred.words);
    0
}

// The set of the components that feed the port of the component with the id, and that of the inferred inputs among these and all upstream
// of them, at the front of the lent slices. Without room for the sets the lists alone decide on the refusal: 2 comes before 8, and before
// 3 to 7.
#[unsafe(no_mangle)]
pub extern "C" fn dustroute_input(
    rules: i64,
    components: &[i64],
    ports: &[i64],
    frontiers: &[i64],
    id: u64,
    port: u64,
    immediate: &mut [u64],
    inferred: &mut [u64],
    stack: &mut [usize],
) -> u64
    ensures { InputByLists (rules_of rules) components.now ports.now frontiers.now id port
        immediate.old immediate.new inferred.old inferred.new stack.old stack.new result }
{
    let room = room_for(1, WORDS, immediate.len()) & room_for(1, WORDS, inferred.len());
    if !room {
        return refuse_short(rules_of(rules), components, ports, frontiers);
    }
    match required_input(rules, components, ports, frontiers, id, port, stack) {
        Err(refusal) => pack_refusal(refusal),
        Ok(found) => put_sources(found, immediate, inferred),
    }
}
