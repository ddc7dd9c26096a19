// The input query: the immediate sources of a port, and the inferred inputs among these and all upstream of them.
// `slot < 2 ^ 32` stands at each function that takes a slot: a member and a port as one number, which nothing but its use bounds.
// Lent slices stay parameters: a struct of `&mut` fields would owe a ghost name for what each is left as.
#![tactic(auto)]

pub mod asked;
pub mod port;
mod query;
pub mod row;
mod slot;

ghost use Rattle.std.specs.Prelude.{List, ℕ, ℤ, None};
ghost use Rattle.lists.specs.Rules.{rules_of};
ghost use Rattle.inputs.specs.Query.{Answered, PortSets};

use checks::refusals::room_for;
use lists::rules::rules_of;
use lists::{COMPONENT, Refusal};
use liveness::accept::Tables;
use query::query_plot;
use sets::ComponentSet;

// Of a port the immediate sources, and the inferred inputs among these and all upstream of them.
#[derive(Clone, Copy)]
pub struct InputSources {
    pub immediate: ComponentSet,
    pub inferred: ComponentSet,
}

impl InputSources {
    // Those of a port that has no verdict row, or that nothing feeds. A report writes them as empty lists, so that no Option stands for
    // them.
    pub fn none() -> InputSources
        ensures { (rules : ℕ) (cs ps fs : List ℤ) (port : ℕ) → PortSets rules cs ps fs None port result }
    {
        InputSources {
            immediate: ComponentSet::empty(),
            inferred: ComponentSet::empty(),
        }
    }
}

// The refusal of the checks, or the immediate sources of a port that has a verdict row, by the id of its component, and the inferred inputs
// among these and all upstream of them. Any id and port may be asked for.
pub fn required_input(
    rules: i64,
    components: &[i64],
    ports: &[i64],
    frontiers: &[i64],
    id: u64,
    port: u64,
    stack: &mut [usize],
) -> Result<InputSources, Refusal>
    ensures { Answered (rules_of rules) components.now ports.now frontiers.now id port stack.old stack.new result }
{
    let rules = rules_of(rules);
    let count = components.len() / COMPONENT;
    let enough = room_for(count, 2, stack.len());
    let mut tables = Tables::new();
    let plot = tables.plot(rules, components, ports, frontiers, enough)?;
    query_plot(&plot, id, port, stack)
}
