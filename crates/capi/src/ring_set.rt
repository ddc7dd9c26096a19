// Which regions of a scene have a ring. The lists are lent as numbers and read where they stand.
ghost use Rattle.std.specs.Prelude.{◌≡◌, ◌*◌, ◌≤◌, length};
ghost use Rattle.sets.specs.Members.{word_count};
ghost use Rattle.lists.specs.Limits.{component_limit};
ghost use Rattle.lists.specs.Slices.{laid};
ghost use Rattle.lists.specs.Rules.{rules_of};
ghost use Rattle.capi.specs.Rings.{RingsByLists};

use super::alive::refuse_short;
use checks::refusals::{pack_refusal, room_for};
use lists::rules::rules_of;
use rings::{Rings, find_rings};
use sets::WORDS;

// Writes the set of an answer at the front of its slice, and answers how many regions there are as the count of a number.
fn put_rings(answer: Rings, rings: &mut [u64]) -> u64
    requires few { answer.count ≤ component_limit }
    requires room { word_count ≤ length rings.old }
    ensures set { rings.new ≡ laid answer.rings.words rings.old }
    ensures count { result ≡ 65536 * answer.count }
{
    rings[..WORDS].copy_from_slice(&answer.rings.words);
    65536 * answer.count as u64
}

// The region of each component, and the set of the regions that have a ring, at the front of the lent slices. Without room for the set the
// lists alone decide on the refusal: 2 comes before 3 to 7.
#[unsafe(no_mangle)]
pub extern "C" fn dustroute_rings(
    rules: i64,
    components: &[i64],
    ports: &[i64],
    frontiers: &[i64],
    regions: &mut [u64],
    rings: &mut [u64],
    stack: &mut [usize],
) -> u64
    ensures { RingsByLists (rules_of rules) components.now ports.now frontiers.now
        regions.old regions.new rings.old rings.new stack.old stack.new result }
{
    if !room_for(1, WORDS, rings.len()) {
        return refuse_short(rules_of(rules), components, ports, frontiers);
    }
    match find_rings(rules, components, ports, frontiers, regions, stack) {
        Err(refusal) => pack_refusal(refusal),
        Ok(answer) => put_rings(answer, rings),
    }
}
