// The slow region finder. The lists are lent as numbers and read where they stand, the square as bytes, one to a place.
ghost use Rattle.lists.specs.Rules.{rules_of};
ghost use Rattle.capi.specs.ReachTable.{TabledByLists};

use checks::refusals::pack_refusal;
use reach_table::slow_regions;

// The finished reach table, row after row in list order, at the front of the square, and the region of each component.
#[unsafe(no_mangle)]
pub extern "C" fn dustroute_reach_table(
    rules: i64,
    components: &[i64],
    ports: &[i64],
    frontiers: &[i64],
    square: &mut [u8],
    regions: &mut [u64],
    stack: &mut [usize],
) -> u64
    ensures { TabledByLists (rules_of rules) components.now ports.now frontiers.now
        square.old square.new regions.old regions.new stack.old stack.new result }
{
    match slow_regions(rules, components, ports, frontiers, square, regions, stack) {
        Err(refusal) => pack_refusal(refusal),
        Ok(count) => 65536 * count as u64,
    }
}
