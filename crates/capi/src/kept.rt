// The port connections that are kept of a scene. The lists are lent as numbers and read where they stand.
ghost use Rattle.lists.specs.Rules.{rules_of};
ghost use Rattle.capi.specs.Kept.{PortsByLists};

use checks::refusals::pack_refusal;
use scene::connections::port_connections;

// The port connections that are kept of grouping connections, each with the slope of its step, as rows of six numbers at the front of the
// lent slice. Their count stands above the sixteen lowest bits.
#[unsafe(no_mangle)]
pub extern "C" fn dustroute_ports(
    rules: i64,
    components: &[i64],
    connections: &[i64],
    ports: &mut [i64],
) -> u64
    ensures { PortsByLists (rules_of rules) components.now connections.now ports.old ports.new result }
{
    match port_connections(rules, components, connections, ports) {
        Err(refusal) => pack_refusal(refusal),
        Ok(count) => 65536 * count as u64,
    }
}
