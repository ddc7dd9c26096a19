// The way from a drive source to one input, and the check of a way. The lists are lent as numbers and read where they stand.
ghost use Rattle.lists.specs.Rules.{rules_of};
ghost use Rattle.capi.specs.TheWay.{TrailByLists, CheckByLists};

use checks::refusals::pack_refusal;
use trail::{check_trail, find_trail};

// The ids of the best trail of a port of the component with the id, at the front of the lent slice; answers how many.
#[unsafe(no_mangle)]
pub extern "C" fn dustroute_trail(
    rules: i64,
    components: &[i64],
    ports: &[i64],
    frontiers: &[i64],
    id: u64,
    port: u64,
    trail: &mut [u64],
) -> u64
    ensures { TrailByLists (rules_of rules) components.now ports.now frontiers.now id port trail.old trail.new result }
{
    match find_trail(rules, components, ports, frontiers, id, port, trail) {
        Err(refusal) => pack_refusal(refusal),
        Ok(count) => 65536 * count as u64,
    }
}

// Whether a list of ids is a trail of the port: 1 for yes, 0 for no.
#[unsafe(no_mangle)]
pub extern "C" fn dustroute_check_trail(
    rules: i64,
    components: &[i64],
    ports: &[i64],
    frontiers: &[i64],
    id: u64,
    port: u64,
    trail: &[u64],
) -> u64
    ensures { CheckByLists (rules_of rules) components.now ports.now frontiers.now id port trail.now result }
{
    match check_trail(rules, components, ports, frontiers, id, port, trail) {
        Err(refusal) => pack_refusal(refusal),
        Ok(yes) => 65536 * u64::from(yes),
    }
}
