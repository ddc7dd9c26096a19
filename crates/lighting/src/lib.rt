// One pass over the regions of a plot, by rising number, lights what its drive sources reach.
#![tactic(auto)]

pub mod pass;
mod plot;

ghost use Rattle.lists.specs.Rules.{rules_of};
ghost use Rattle.lighting.specs.Entry.{Lighted};

use checks::refusals::room_for;
use lists::rules::rules_of;
use lists::{COMPONENT, Refusal};
use liveness::accept::Tables;
use plot::light_plot;
use sets::ComponentSet;

// Of an accepted scene how many regions there are, which of them are lit, and the members that are driven.
#[derive(Clone, Copy)]
pub struct Lit {
    pub count: usize,
    pub lit: ComponentSet,
    pub driven: ComponentSet,
}

// The refusal of the checks, or what one pass over the regions lights; the region of each component, in list order, at the front of the
// lent slice. A refusal writes nothing.
pub fn light_regions(
    rules: i64,
    components: &[i64],
    ports: &[i64],
    frontiers: &[i64],
    regions: &mut [u64],
    stack: &mut [usize],
) -> Result<Lit, Refusal>
    ensures { Lighted (rules_of rules) components.now ports.now frontiers.now regions.old regions.new stack.old stack.new result }
{
    let rules = rules_of(rules);
    let count = components.len() / COMPONENT;
    let enough = room_for(count, 1, regions.len()) & room_for(count, 2, stack.len());
    let mut tables = Tables::new();
    let plot = tables.plot(rules, components, ports, frontiers, enough)?;
    Ok(light_plot(&plot, regions, stack))
}
