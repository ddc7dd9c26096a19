// The refusal of each entry: the lowest number, then the list, then the item.
ghost use Rattle.std.specs.Prelude.{◌≡◌, ◌≤◌, ◌<◌, length, take};
ghost use Rattle.lists.specs.Limits.{component_limit, connection_limit, frontier_limit, component_width, frontier_width};
ghost use Rattle.checks.specs.Refusals.{refuse, ◌or_else◌, not_whole, room_for, room_for_groups, room_for_rows, too_short, strange_rules};
ghost use Rattle.checks.specs.Refusals.{scene_lists, grouping_lists, liveness_lists, Small, packed};
ghost use Rattle.checks.specs.Checks.{lengths_of, ranges_of, Ordered, CheckedBy, LivenessChecked};
ghost use Rattle.lists.specs.Records.{component_count};
ghost use Rattle.lists.specs.Ends.{sources_of, sinks_of};

use super::ranges::{COMPONENT_RANGES, CONNECTION_RANGES, FRONTIER_RANGES, PORT_RANGES};
use lists::ends::{Ends, first_end_missing, settle_ends};
use lists::ids::{first_repeated, id_table};
use lists::order::{first_component_not_ascending, first_connection_not_ascending};
use lists::rules::known_rules;
use lists::views::{ComponentList, PortList};
use lists::{
    COMPONENT, COMPONENTS, CONNECTION, CONNECTIONS, FRONTIER, FRONTIERS, Fault, PORT, Refusal,
    Section, list_number,
};

// A fault that was found is refused with its list.
pub fn refuse_at(fault: Fault, list: Option<Section>, found: Option<usize>) -> Result<(), Refusal>
    ensures { result ≡ refuse fault list found }
{
    match found {
        Some(item) => Err(Refusal { fault, list, item }),
        None => Ok(()),
    }
}

// 1: a list of so many numbers that is over its limit or has no whole records.
pub fn not_whole(width: usize, limit: usize, len: usize) -> Option<usize>
    requires { 0 < width }
    ensures { result ≡ not_whole width limit len }
{
    let count = len / width;
    if limit < count {
        return Some(limit);
    }
    if len % width != 0 {
        return Some(count);
    }
    None
}

// Whether a slice of so many numbers has the places of a width.
pub fn room_for(places: usize, width: usize, len: usize) -> bool
    requires { 0 < width }
    ensures { result ≡ room_for places width len }
{
    places <= len / width
}

// Whether the slices lent to the grouping entry have a place for each component.
pub fn room_for_groups(components: usize, nets: usize, fragments: usize) -> bool
    ensures { result ≡ room_for_groups components nets fragments }
{
    room_for(components, 1, nets) & room_for(components, 1, fragments)
}

// Whether the slices lent to the liveness entry have room: of each component a region, two source rows of two numbers, four verdict rows
// of three, and a pair of the walk's stack. A width is that of all rows of a component: a count of rows could overflow.
pub fn room_for_rows(
    components: usize,
    regions: usize,
    sources: usize,
    inputs: usize,
    stack: usize,
) -> bool
    ensures { result ≡ room_for_rows components regions sources inputs stack }
{
    room_for(components, 1, regions)
        & (room_for(components, 2 * 2, sources)
            & (room_for(components, 4 * 3, inputs) & room_for(components, 2, stack)))
}

// 2: a lent slice is too short.
fn too_short(enough: bool) -> Option<usize>
    ensures { result ≡ too_short enough }
{
    if enough { None } else { Some(0) }
}

// 11: no rules have the number.
pub fn strange_rules(rules: u64) -> Option<usize>
    ensures { result ≡ strange_rules rules }
{
    if known_rules(rules) { None } else { Some(0) }
}

// 11, 1 and 2, by the rules and the lengths alone: three lists, the second of records of a width, and whether the lent slices are long
// enough.
fn refuse_lengths(
    rules: u64,
    components: usize,
    width: usize,
    connections: usize,
    frontiers: usize,
    enough: bool,
) -> Result<(), Refusal>
    requires { 0 < width }
    ensures { result ≡ lengths_of rules components width connections frontiers enough }
{
    refuse_at(Fault::UnknownRules, None, strange_rules(rules))?;
    let list_length = Fault::ListLength;
    refuse_at(
        list_length,
        Some(Section::Components),
        not_whole(COMPONENT, COMPONENTS, components),
    )?;
    refuse_at(
        list_length,
        Some(Section::Connections),
        not_whole(width, CONNECTIONS, connections),
    )?;
    refuse_at(
        list_length,
        Some(Section::Frontiers),
        not_whole(FRONTIER, FRONTIERS, frontiers),
    )?;
    refuse_at(Fault::ShortSlice, None, too_short(enough))
}

// 4 and 5: the order and the ids of the components. `keys` is left with their table of ids.
fn refuse_components(components: ComponentList, keys: &mut [u64]) -> Result<(), Refusal>
    requires { length keys.old ≡ component_count components.numbers.now }
    ensures { Ordered components.entry.numbers.now keys.new result }
{
    let mut spare = [0u64; COMPONENTS];
    id_table(components, keys, &mut spare);
    let unsorted = first_component_not_ascending(components.numbers);
    refuse_at(
        Fault::UnsortedComponents,
        Some(Section::Components),
        unsorted,
    )?;
    refuse_at(
        Fault::RepeatedId,
        Some(Section::Components),
        first_repeated(keys, components),
    )
}

// 3, given what the second list's check found.
fn refuse_ranges(
    components: &[i64],
    connections: Option<usize>,
    frontiers: &[i64],
) -> Result<(), Refusal>
    ensures { result ≡ ranges_of components.now connections frontiers.now }
{
    let out_of_range = Fault::OutOfRange;
    refuse_at(
        out_of_range,
        Some(Section::Components),
        COMPONENT_RANGES.first_outside(components),
    )?;
    refuse_at(out_of_range, Some(Section::Connections), connections)?;
    refuse_at(
        out_of_range,
        Some(Section::Frontiers),
        FRONTIER_RANGES.first_outside(frontiers),
    )
}

// Up to 5, given what the second list's check of ranges found. Where they accept, `keys` begins with the table of ids.
pub fn refuse_scene(
    rules: u64,
    components: &[i64],
    width: usize,
    connections: usize,
    found: Option<usize>,
    frontiers: &[i64],
    enough: bool,
    keys: &mut [u64],
) -> Result<(), Refusal>
    requires { (0 < width) × (component_limit ≤ length keys.old) }
    ensures { CheckedBy (scene_lists rules components.now width connections found frontiers.now enough) components.now keys.new result }
{
    refuse_lengths(
        rules,
        components.len(),
        width,
        connections,
        frontiers.len(),
        enough,
    )?;
    refuse_ranges(components, found, frontiers)?;
    let accepted = ComponentList {
        numbers: components,
    };
    let count = components.len() / COMPONENT;
    refuse_components(accepted, &mut keys[..count])
}

// The checks of the grouping and of the ports entry, and of the lists of a sheet. Where they accept, `keys` begins with the table of ids.
pub fn grouping_lists(
    rules: u64,
    components: &[i64],
    connections: &[i64],
    frontiers: &[i64],
    enough: bool,
    keys: &mut [u64],
) -> Result<(), Refusal>
    requires { component_limit ≤ length keys.old }
    ensures { CheckedBy (grouping_lists rules components.now connections.now frontiers.now enough) components.now keys.new result }
{
    let found = CONNECTION_RANGES.first_outside(connections);
    refuse_scene(
        rules,
        components,
        CONNECTION,
        connections.len(),
        found,
        frontiers,
        enough,
        keys,
    )?;
    let unsorted = first_connection_not_ascending(connections);
    refuse_at(
        Fault::UnsortedConnections,
        Some(Section::Connections),
        unsorted,
    )
}

// The checks of the liveness entry and of the input query. Where they accept, `keys` begins with the table of ids, and the ends of the port
// connections are settled.
pub fn liveness_lists(
    rules: u64,
    components: &[i64],
    ports: &[i64],
    frontiers: &[i64],
    enough: bool,
    keys: &mut [u64],
    ends: &mut [Ends],
) -> Result<(), Refusal>
    requires { (component_limit ≤ length keys.old) × (connection_limit ≤ length ends.old) }
    ensures { LivenessChecked (liveness_lists rules components.now ports.now frontiers.now enough)
        components.now ports.now keys.new (sources_of ends.new) (sinks_of ends.new) result }
{
    let found = PORT_RANGES.first_outside(ports);
    refuse_scene(
        rules,
        components,
        PORT,
        ports.len(),
        found,
        frontiers,
        enough,
        keys,
    )?;
    let count = components.len() / COMPONENT;
    let accepted = PortList { numbers: ports };
    settle_ends(&keys[..count], accepted, ends);
    refuse_at(
        Fault::MissingEnd,
        Some(Section::Connections),
        first_end_missing(&keys[..count], accepted, ends),
    )
}

// A refusal as one number: its number, the list and the item, from the lowest digits on.
pub fn pack_refusal(refusal: Refusal) -> u64
    requires { Small (Err refusal) }
    ensures { result ≡ packed (Err refusal) }
{
    u64::from(refusal.fault) + 256 * list_number(refusal.list) + 65536 * refusal.item as u64
}

// An answer as one number: 0 where the checks accept, else the refusal's.
pub fn pack(checked: Result<(), Refusal>) -> u64
    requires { Small checked }
    ensures { result ≡ packed checked }
{
    match checked {
        Ok(()) => 0,
        Err(refusal) => pack_refusal(refusal),
    }
}
