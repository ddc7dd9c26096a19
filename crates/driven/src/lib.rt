// Whether one input is driven: a search upstream from it that stops at the first drive source. Nothing else of the plot is analyzed.
#![tactic(auto)]

mod plot;
pub mod seek;

ghost use Rattle.lists.specs.Rules.{rules_of};
ghost use Rattle.driven.specs.Driven.{Asked};

use checks::refusals::room_for;
use lists::rules::rules_of;
use lists::{COMPONENT, Refusal};
use liveness::accept::Tables;
use plot::driven_plot;
use sets::ComponentSet;

// Whether an input has status 0, and the components that the search met.
#[derive(Clone, Copy)]
pub struct DrivenInput {
    pub driven: bool,
    pub met: ComponentSet,
}

// The refusal of the checks, or whether a port that has a verdict row, by the id of its component, has status 0, and the components met on
// the way: all upstream of the port, or those up to the first drive source. Any id and port may be asked for.
pub fn is_driven(
    rules: i64,
    components: &[i64],
    ports: &[i64],
    frontiers: &[i64],
    id: u64,
    port: u64,
    stack: &mut [usize],
) -> Result<DrivenInput, Refusal>
    ensures { Asked (rules_of rules) components.now ports.now frontiers.now id port stack.old stack.new result }
{
    let rules = rules_of(rules);
    let count = components.len() / COMPONENT;
    let enough = room_for(count, 2, stack.len());
    let mut tables = Tables::new();
    let plot = tables.plot(rules, components, ports, frontiers, enough)?;
    driven_plot(&plot, id, port, stack)
}
