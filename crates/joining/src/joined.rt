// The joined lists: how many records they have, which list has the next one, and whether they are refused.
ghost use Rattle.std.specs.Prelude.{◌≡◌, ◌≤◌};
ghost use Rattle.lists.specs.Limits.{connection_limit, component_width, connection_width};
ghost use Rattle.lists.specs.Records.{component_count, connection_count};
ghost use Rattle.lists.specs.Order.{component_order, connection_order};
ghost use Rattle.lists.specs.Ids.{IdTable};
ghost use Rattle.checks.specs.Refusals.{◌or_else◌};
ghost use Rattle.joining.specs.Merge.{merged};
ghost use Rattle.joining.specs.Plot.{plot_of, joined, over, conflict_of, too_many};

use super::Plot;
use super::conflict::first_conflict;
use super::merging::merged_count;
use checks::refusals::refuse_at;
use lists::views::ComponentList;
use lists::{
    COMPONENT, COMPONENTS, CONNECTION, CONNECTIONS, FRONTIER, FRONTIERS, Fault, Refusal, Section,
};

// By x, y, z, id.
pub const COMPONENT_ORDER: [usize; 4] = [1, 2, 3, 0];

// By source, sink, kind.
pub const CONNECTION_ORDER: [usize; 3] = [0, 1, 2];

// How many components there are in all.
pub fn component_count(first: &[i64], second: &[i64]) -> usize
    requires { (component_count first.now ≤ connection_limit) × (component_count second.now ≤ connection_limit) }
    ensures { result ≡ component_count (merged component_order component_width first.now second.now) }
{
    merged_count(&COMPONENT_ORDER, COMPONENT, first, second)
}

// How many connections there are in all.
pub fn connection_count(first: &[i64], second: &[i64]) -> usize
    requires { (connection_count first.now ≤ connection_limit) × (connection_count second.now ≤ connection_limit) }
    ensures { result ≡ connection_count (merged connection_order connection_width first.now second.now) }
{
    merged_count(&CONNECTION_ORDER, CONNECTION, first, second)
}

// 1: more than the limit, which is the item.
fn over(limit: usize, n: usize) -> Option<usize>
    ensures { result ≡ over limit n }
{
    if limit < n { Some(limit) } else { None }
}

// 14, and then the checks of the joined lists, of which only 1 can come where both plots are valid (`join_refusal_lem` of
// proofs/Accepts.antt): so the joined lists need not be made for it. `keys` is the table of ids of the first plot's components.
pub fn refuse_join(keys: &[u64], first: Plot, second: Plot) -> Result<(), Refusal>
    requires { IdTable first.components.now keys.now }
    ensures { let p = plot_of first.entry.components.now first.entry.connections.now first.entry.frontiers.now in
        let q = plot_of second.entry.components.now second.entry.connections.now second.entry.frontiers.now in
        result ≡ (conflict_of p q or_else too_many (joined p q)) }
{
    let asked = ComponentList {
        numbers: second.components,
    };
    let unequal = first_conflict(keys, first.components, asked);
    refuse_at(Fault::UnequalFields, Some(Section::Components), unequal)?;
    let components = component_count(first.components, second.components);
    refuse_at(
        Fault::ListLength,
        Some(Section::Components),
        over(COMPONENTS, components),
    )?;
    let connections = connection_count(first.connections, second.connections);
    refuse_at(
        Fault::ListLength,
        Some(Section::Connections),
        over(CONNECTIONS, connections),
    )?;
    let frontiers = first.frontiers.len() / FRONTIER + second.frontiers.len() / FRONTIER;
    refuse_at(
        Fault::ListLength,
        Some(Section::Frontiers),
        over(FRONTIERS, frontiers),
    )
}
