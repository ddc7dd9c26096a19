// Which regions of a plot have a ring: a closed chain through three distinct components or more, or a component that feeds itself.
#![tactic(auto)]

mod count;
mod plot;

ghost use Rattle.lists.specs.Rules.{rules_of};
ghost use Rattle.rings.specs.Entry.{RingsFound};

use checks::refusals::room_for;
use lists::rules::rules_of;
use lists::{COMPONENT, Refusal};
use liveness::accept::Tables;
use plot::rings_plot;
use sets::ComponentSet;

// Of an accepted scene how many regions there are, and which of them have a ring.
#[derive(Clone, Copy)]
pub struct Rings {
    pub count: usize,
    pub rings: ComponentSet,
}

// The refusal of the checks, or which regions have a ring; the region of each component, in list order, at the front of the lent slice.
// A refusal writes nothing.
pub fn find_rings(
    rules: i64,
    components: &[i64],
    ports: &[i64],
    frontiers: &[i64],
    regions: &mut [u64],
    stack: &mut [usize],
) -> Result<Rings, Refusal>
    ensures { RingsFound (rules_of rules) components.now ports.now frontiers.now regions.old regions.new stack.old stack.new result }
{
    let rules = rules_of(rules);
    let count = components.len() / COMPONENT;
    let enough = room_for(count, 1, regions.len()) & room_for(count, 2, stack.len());
    let mut tables = Tables::new();
    let plot = tables.plot(rules, components, ports, frontiers, enough)?;
    Ok(rings_plot(&plot, regions, stack))
}
