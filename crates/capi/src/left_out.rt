// Why grouping connections are left out. The lists are lent as numbers and read where they stand.
ghost use Rattle.lists.specs.Rules.{rules_of};
ghost use Rattle.capi.specs.LeftOut.{ReasonsByLists};

use checks::refusals::pack_refusal;
use scene::reasons::reasons as tell_reasons;

// One number to each grouping connection, at the front of the lent slice: 0 where `dustroute_ports` keeps it, else why it is left out. The
// count of those that are kept stands above the sixteen lowest bits.
#[unsafe(no_mangle)]
pub extern "C" fn dustroute_reasons(
    rules: i64,
    components: &[i64],
    connections: &[i64],
    reasons: &mut [u64],
) -> u64
    ensures { ReasonsByLists (rules_of rules) components.now connections.now reasons.old reasons.new result }
{
    match tell_reasons(rules, components, connections, reasons) {
        Err(refusal) => pack_refusal(refusal),
        Ok(count) => 65536 * count as u64,
    }
}
