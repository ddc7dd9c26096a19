// The groups of a scene: nets and fragments, by union-find over the list places of its components.
// `v < component_limit` stands at each function that takes a place: a number of a list, and what it is below is the forest's.
// Lent slices stay parameters: a struct of `&mut` fields would owe a ghost name for what each is left as.
#![tactic(auto)]

mod ends;
mod forest;
pub mod settle;

ghost use Rattle.std.specs.Prelude.{◌≡◌, ◌&&◌, ◌||◌, ℕ, ◌<◌, eqb};
ghost use Rattle.sets.specs.Members.{member_of};
ghost use Rattle.lists.specs.Limits.{component_limit};
ghost use Rattle.lists.specs.Rules.{rules_of};
ghost use Rattle.circuit.specs.Topology.{Grouped, shares_member};

use checks::refusals::{grouping_lists, room_for_groups};
use lists::rules::rules_of;
use lists::views::ConnectionList;
use lists::{COMPONENT, COMPONENTS, Refusal};
use sets::ComponentSet;

// How many nets and fragments a scene has.
#[derive(Clone, Copy)]
pub struct Counts {
    pub nets: usize,
    pub fragments: usize,
}

// The number of each component's net and fragment, in list order, at the front of the lent slices. Groups are the same under all
// rules, whose number is only checked.
pub fn from_lists(
    rules: u64,
    components: &[i64],
    connections: &[i64],
    nets: &mut [u64],
    fragments: &mut [u64],
) -> Result<Counts, Refusal>
    ensures { Grouped rules components.now connections.now nets.old nets.new fragments.old fragments.new result }
{
    let mut keys = [0u64; COMPONENTS];
    let count = components.len() / COMPONENT;
    let enough = room_for_groups(count, nets.len(), fragments.len());
    grouping_lists(
        rules,
        components,
        connections,
        &connections[..0],
        enough,
        &mut keys,
    )?;
    let accepted = ConnectionList {
        numbers: connections,
    };
    Ok(settle::group(&keys[..count], accepted, nets, fragments))
}

// The same, where the rules number is any of 64 bits.
pub fn from_parts(
    rules: i64,
    components: &[i64],
    connections: &[i64],
    nets: &mut [u64],
    fragments: &mut [u64],
) -> Result<Counts, Refusal>
    ensures { Grouped (rules_of rules) components.now connections.now nets.old nets.new fragments.old fragments.new result }
{
    from_lists(rules_of(rules), components, connections, nets, fragments)
}

// The set with the net put in, where it is a member's and the test says so.
fn insert_if(found: ComponentSet, shared: bool, net: u64) -> ComponentSet
    ensures { (k : ℕ) → k < component_limit → member_of result.words k ≡ (member_of found.words k || (shared && eqb net k)) }
{
    if shared & (net < COMPONENTS as u64) {
        return found.insert(net as usize);
    }
    found
}

// The nets that share a member with a fragment, given the numbers of each component's net and fragment.
pub fn fragment_nets(nets: &[u64], fragments: &[u64], fragment: u64) -> ComponentSet
    ensures { (net : ℕ) → net < component_limit → member_of result.words net ≡ shares_member nets.now fragments.now fragment net }
{
    let mut found = ComponentSet::empty();
    for v in 0..nets.len().min(fragments.len()) {
        found = insert_if(found, fragments[v] == fragment, nets[v]);
    }
    found
}
