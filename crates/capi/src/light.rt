// The one pass over the regions of a scene. The lists are lent as numbers and read where they stand.
ghost use Rattle.std.specs.Prelude.{◌≡◌, ◌*◌, ◌≤◌, length};
ghost use Rattle.sets.specs.Members.{word_count};
ghost use Rattle.lists.specs.Limits.{component_limit};
ghost use Rattle.lists.specs.Slices.{laid};
ghost use Rattle.lists.specs.Rules.{rules_of};
ghost use Rattle.capi.specs.Light.{LightByLists};

use super::alive::refuse_short;
use checks::refusals::{pack_refusal, room_for};
use lighting::{Lit, light_regions};
use lists::rules::rules_of;
use sets::WORDS;

// Writes the sets of an answer at the front of their slices, and answers how many regions there are as the count of a number.
fn put_lit(answer: Lit, lit: &mut [u64], driven: &mut [u64]) -> u64
    requires few { answer.count ≤ component_limit }
    requires room { (word_count ≤ length lit.old) × (word_count ≤ length driven.old) }
    ensures lit_set { lit.new ≡ laid answer.lit.words lit.old }
    ensures driven_set { driven.new ≡ laid answer.driven.words driven.old }
    ensures count { result ≡ 65536 * answer.count }
{
    lit[..WORDS].copy_from_slice(&answer.lit.words);
    driven[..WORDS].copy_from_slice(&answer.driven.words);
    65536 * answer.count as u64
}

// The region of each component, the set of the regions that one pass lights, and that of the members that are driven, at the front of the
// lent slices. Without room for the sets the lists alone decide on the refusal: 2 comes before 3 to 7.
#[unsafe(no_mangle)]
pub extern "C" fn dustroute_light(
    rules: i64,
    components: &[i64],
    ports: &[i64],
    frontiers: &[i64],
    regions: &mut [u64],
    lit: &mut [u64],
    driven: &mut [u64],
    stack: &mut [usize],
) -> u64
    ensures { LightByLists (rules_of rules) components.now ports.now frontiers.now
        regions.old regions.new lit.old lit.new driven.old driven.new stack.old stack.new result }
{
    let room = room_for(1, WORDS, lit.len()) & room_for(1, WORDS, driven.len());
    if !room {
        return refuse_short(rules_of(rules), components, ports, frontiers);
    }
    match light_regions(rules, components, ports, frontiers, regions, stack) {
        Err(refusal) => pack_refusal(refusal),
        Ok(answer) => put_lit(answer, lit, driven),
    }
}
