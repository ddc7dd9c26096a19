// The entries for a host that calls through the C convention. Here each list is lent as bytes, eight to a number, lowest first; in the
// modules as numbers. The rules number comes first. The answer is one number.
#![tactic(auto)]

mod alive;
mod block;
mod clear;
mod held_plot;
mod input;
mod joined;
mod kept;
mod left_out;
mod light;
mod one_input;
mod region_table;
mod ring_set;
mod texts;
mod the_way;

ghost use Rattle.std.specs.Prelude.{Some, ◌≡◌, ◌*◌, ◌<◌, length};
ghost use Rattle.lists.specs.Limits.{component_limit, component_width};
ghost use Rattle.lists.specs.Rules.{rules_of};
ghost use Rattle.lists.specs.declared.Fault.{Fault};
ghost use Rattle.lists.specs.declared.Section.{Section};
ghost use Rattle.checks.specs.Refusals.{refuse, not_whole};
ghost use Rattle.encoding.specs.Bytes.{number_bytes};
ghost use Rattle.encoding.specs.Entry.{groups_whole, GroupsByBytes};
ghost use Rattle.capi.specs.Liveness.{liveness_whole, LivenessByBytes};

use checks::refusals::{not_whole, pack_refusal, refuse_at, strange_rules};
use encoding::bytes::NUMBER;
use lists::rules::rules_of;
use lists::{
    COMPONENT, COMPONENTS, CONNECTION, CONNECTIONS, FRONTIER, FRONTIERS, Fault, PORT, Refusal,
    Section,
};

// 1, of a list of so many bytes.
fn whole_list(list: Section, width: usize, limit: usize, len: usize) -> Result<(), Refusal>
    requires { 0 < width }
    ensures { result ≡ refuse Fault.ListLength (Some list) (not_whole width limit len) }
{
    let found = not_whole(width, limit, len);
    refuse_at(Fault::ListLength, Some(list), found)
}

// 1, of the components.
fn whole_components(components: &[u8]) -> Result<(), Refusal>
    ensures { result ≡ refuse Fault.ListLength (Some Section.Components)
        (not_whole (number_bytes * component_width) component_limit (length components.now)) }
{
    let width = NUMBER * COMPONENT;
    whole_list(Section::Components, width, COMPONENTS, components.len())
}

// 11, and 1 of both lists of a grouping.
fn whole_groups(rules: u64, components: &[u8], connections: &[u8]) -> Result<(), Refusal>
    ensures { result ≡ groups_whole rules components.now connections.now }
{
    refuse_at(Fault::UnknownRules, None, strange_rules(rules))?;
    whole_components(components)?;
    let width = NUMBER * CONNECTION;
    whole_list(Section::Connections, width, CONNECTIONS, connections.len())
}

// 11, and 1 of the three lists of a scene.
fn whole_scene(rules: u64, components: &[u8], ports: &[u8], frontiers: &[u8]) -> Result<(), Refusal>
    ensures { result ≡ liveness_whole rules components.now ports.now frontiers.now }
{
    refuse_at(Fault::UnknownRules, None, strange_rules(rules))?;
    whole_components(components)?;
    let width = NUMBER * PORT;
    whole_list(Section::Connections, width, CONNECTIONS, ports.len())?;
    let width = NUMBER * FRONTIER;
    whole_list(Section::Frontiers, width, FRONTIERS, frontiers.len())
}

// The number of this interface: a host that refers to it cannot be linked with an archive of another.
#[unsafe(no_mangle)]
pub extern "C" fn dustroute_interface_2() -> u64
    ensures { result ≡ 2 }
{
    2
}

// The number of each component's net and fragment, at the front of the lent slices.
#[unsafe(no_mangle)]
pub extern "C" fn dustroute_groups(
    rules: i64,
    components: &[u8],
    connections: &[u8],
    nets: &mut [u8],
    fragments: &mut [u8],
) -> u64
    ensures { GroupsByBytes (rules_of rules) components.now connections.now nets.old nets.new fragments.old fragments.new result }
{
    let rules = rules_of(rules);
    match whole_groups(rules, components, connections) {
        Err(refusal) => pack_refusal(refusal),
        Ok(()) => encoding::groups::of_bytes(rules, components, connections, nets, fragments),
    }
}

// The region of each component, the source rows and the verdict rows, and the four sets, at the front of the lent slices.
#[unsafe(no_mangle)]
pub extern "C" fn dustroute_liveness(
    rules: i64,
    components: &[u8],
    ports: &[u8],
    frontiers: &[u8],
    regions: &mut [u8],
    sources: &mut [u8],
    inputs: &mut [u8],
    sets: &mut [u8],
    stack: &mut [u8],
) -> u64
    ensures { LivenessByBytes (rules_of rules) components.now ports.now frontiers.now
        regions.old regions.new sources.old sources.new inputs.old inputs.new sets.old sets.new stack.old stack.new result }
{
    let rules = rules_of(rules);
    match whole_scene(rules, components, ports, frontiers) {
        Err(refusal) => pack_refusal(refusal),
        Ok(()) => alive::of_bytes(
            rules, components, ports, frontiers, regions, sources, inputs, sets, stack,
        ),
    }
}
