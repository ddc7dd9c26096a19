// Whether one input of a scene is driven. The lists are lent as numbers and read where they stand.
ghost use Rattle.std.specs.Prelude.{◌≡◌, ◌*◌, ◌≤◌, length};
ghost use Rattle.sets.specs.Members.{word_count, as_nat};
ghost use Rattle.lists.specs.Slices.{laid};
ghost use Rattle.lists.specs.Rules.{rules_of};
ghost use Rattle.capi.specs.OneInput.{DrivenByLists};

use super::alive::refuse_short;
use checks::refusals::{pack_refusal, room_for};
use driven::{DrivenInput, is_driven};
use lists::rules::rules_of;
use sets::WORDS;

// Writes the set of an answer at the front of a slice, and answers yes or no as the count of a number.
fn put_driven(answer: DrivenInput, met: &mut [u64]) -> u64
    requires { word_count ≤ length met.old }
    ensures set { met.new ≡ laid answer.met.words met.old }
    ensures count { result ≡ 65536 * as_nat answer.driven }
{
    met[..WORDS].copy_from_slice(&answer.met.words);
    65536 * u64::from(answer.driven)
}

// Whether the port of the component with the id is driven, and the set of the components met on the way, at the front of the lent slice.
// Without room for the set the lists alone decide on the refusal: 2 comes before 8, and before 3 to 7.
#[unsafe(no_mangle)]
pub extern "C" fn dustroute_driven(
    rules: i64,
    components: &[i64],
    ports: &[i64],
    frontiers: &[i64],
    id: u64,
    port: u64,
    met: &mut [u64],
    stack: &mut [usize],
) -> u64
    ensures { DrivenByLists (rules_of rules) components.now ports.now frontiers.now id port met.old met.new stack.old stack.new result }
{
    if !room_for(1, WORDS, met.len()) {
        return refuse_short(rules_of(rules), components, ports, frontiers);
    }
    match is_driven(rules, components, ports, frontiers, id, port, stack) {
        Err(refusal) => pack_refusal(refusal),
        Ok(answer) => put_driven(answer, met),
    }
}
