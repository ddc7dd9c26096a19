// Drive sources by list place.
ghost use Rattle.std.specs.Prelude.{None};
ghost use Rattle.std.specs.Prelude.{◌≡◌, ℕ, ◌≤◌, ◌<◌, length, ◌||◌};
ghost use Rattle.lists.specs.Limits.{component_width};
ghost use Rattle.lists.specs.Order.{first_not_ascending, component_order};
ghost use Rattle.lists.specs.Records.{component, frontier, component_count, frontier_count};
ghost use Rattle.signals.specs.Sources.{source_kind, same_position, before_position, Parted, first_at, is_on_frontier};
ghost use Rattle.lists.specs.First.{is_found};
ghost use Rattle.regions.specs.Graph.{marked};
ghost use Rattle.signals.specs.Flags.{Flags, FirstFlagged};
ghost use Rattle.std.specs.Option.{option_map};
ghost use Rattle.assessment.specs.Rows.{source_number};

use lists::kinds::BlockKind;
use lists::views::ComponentList;
use lists::{COMPONENT, FRONTIER};

// Why a component is a source, in the order of its numbers in source rows.
#[derive(Clone, Copy)]
pub enum SourceKind {
    ControllableInput,
    IntrinsicSource,
    ObservationBoundary,
    InferredPrimaryInput,
}

impl From<SourceKind> for u64 {
    ghost from_gives = { λ kind number. number ≡ source_number kind };

    fn from(kind: SourceKind) -> u64 {
        kind as u64
    }
}

// The source kind of a block's kind: levers, buttons and plates are inputs, torches and redstone blocks sources of their own.
#[tactic(auto, unfolding(signals::specs::Sources::source_kind))]
pub fn source_kind(kind: u64) -> Option<SourceKind>
    ensures { option_map source_number result ≡ source_kind kind }
{
    match BlockKind::try_from(kind) {
        Ok(BlockKind::RedstoneTorch | BlockKind::RedstoneBlock) => Some(
            SourceKind::IntrinsicSource,
        ),
        Ok(BlockKind::Lever | BlockKind::Button | BlockKind::PressurePlate) => Some(
            SourceKind::ControllableInput,
        ),
        _ => None,
    }
}

// The position of frontier j.
fn position_at(frontiers: &[i64], j: usize) -> (i64, i64, i64)
    requires { j < frontier_count frontiers.now }
    ensures { let there = frontier frontiers.now j in (result.0 ≡ there.x) × ((result.1 ≡ there.y) × (result.2 ≡ there.z)) }
{
    let b = j * FRONTIER;
    (frontiers[b], frontiers[b + 1], frontiers[b + 2])
}

// Whether component p stands at a position.
fn same_position(components: &[i64], p: usize, there: (i64, i64, i64)) -> bool
    requires { p < component_count components.now }
    ensures { result ≡ same_position (component components.now p) (record { x = there.0; y = there.1; z = there.2 }) }
{
    let a = p * COMPONENT;
    (components[a + 1], components[a + 2], components[a + 3]) == there
}

// Whether a component stands before a position, by x, then y, then z.
fn before_position(here: &[i64; COMPONENT], there: (i64, i64, i64)) -> bool
    ensures { result ≡ before_position (component here.now 0) (record { x = there.0; y = there.1; z = there.2 }) }
{
    (here[1], here[2], here[3]) < there
}

// The first component that does not stand before a position, or their number. The components ascend.
fn position_bound(components: &[i64], there: (i64, i64, i64)) -> usize
    requires { first_not_ascending component_order component_width components.now ≡ None }
    ensures { Parted components.now (record { x = there.0; y = there.1; z = there.2 }) result }
{
    let (records, _) = components.as_chunks::<COMPONENT>();
    records.partition_point(|here| before_position(here, there))
}

// The first listed component at a position.
fn first_at(components: &[i64], there: (i64, i64, i64)) -> Option<usize>
    requires { first_not_ascending component_order component_width components.now ≡ None }
    ensures { result ≡ first_at components.now (record { x = there.0; y = there.1; z = there.2 }) }
{
    let p = position_bound(components, there);
    if components.len() / COMPONENT <= p {
        return None;
    }
    if same_position(components, p, there) {
        return Some(p);
    }
    None
}

// Flags the component that is the first at a position.
fn flag_first(components: &[i64], there: (i64, i64, i64), flags: &mut [bool])
    requires components_value { first_not_ascending component_order component_width components.now ≡ None }
    requires components_in_bounds { component_count components.now ≤ length flags.old }
    ensures { FirstFlagged (first_at components.now (record { x = there.0; y = there.1; z = there.2 })) flags.old flags.new }
{
    if let Some(p) = first_at(components, there) {
        flags[p] = true;
    }
}

// Flags the components on frontiers.
pub fn frontier_flags(components: &[i64], frontiers: &[i64], flags: &mut [bool])
    requires components_value { first_not_ascending component_order component_width components.now ≡ None }
    requires components_in_bounds { component_count components.now ≤ length flags.old }
    ensures { Flags (component_count components.now) (is_on_frontier components.now frontiers.now) flags.new }
{
    flags.fill(false);
    for j in 0..frontiers.len() / FRONTIER {
        flag_first(components, position_at(frontiers, j), flags);
    }
}

// Whether component p is a drive source, given whether it is on a frontier.
fn is_drive(components: ComponentList, p: usize, on_frontier: bool) -> bool
    requires { p < component_count components.numbers.now }
    ensures { result ≡ (is_found (source_kind (component components.entry.numbers.now p).kind) || on_frontier) }
{
    source_kind(components.kind(p)).is_some() || on_frontier
}

// Flags the drive sources, given those on frontiers.
pub fn drive_flags(components: ComponentList, on_frontier: &[bool], flags: &mut [bool])
    requires components_in_bounds { (component_count components.numbers.now ≤ length on_frontier.now)
        × (component_count components.numbers.now ≤ length flags.old) }
    ensures { Flags (component_count components.entry.numbers.now)
        (λ p. is_found (source_kind (component components.entry.numbers.now p).kind) || marked on_frontier.now p) flags.new }
{
    for p in 0..components.count() {
        flags[p] = is_drive(components, p, on_frontier[p]);
    }
}
