// The ports that have a verdict row, and the source rows.
ghost use Rattle.std.specs.Prelude.{◌≡◌, true, false, ◌+◌, ◌*◌, ◌^◌, ◌≤◌, ◌<◌, length};
ghost use Rattle.tables.specs.Order.{Ascending, LowerBound};
ghost use Rattle.tables.specs.Pairs.{span};
ghost use Rattle.lists.specs.Records.{component_count};
ghost use Rattle.std.specs.Option.{option_map};
ghost use Rattle.signals.specs.Sources.{source_kind};
ghost use Rattle.assessment.specs.Verdicts.{kind_row};
ghost use Rattle.assessment.specs.Rows.{Put, first_required, count_by_kind, loses_input, required_count, slot_fed, Scanned};
ghost use Rattle.assessment.specs.Rows.{source_number, sources_of, sources_below, InferredAlone};

use super::sources::{SourceKind, source_kind};
use faces::ports::is_unread;
use lists::kinds::BlockKind;
use lists::views::ComponentList;
use std::ops::Range;
use tables::SPAN;

const PISTON: u64 = BlockKind::Piston as u64;

// The ports of a kind that have a verdict row, where its facing is read.
#[tactic(auto, unfolding(crate::specs::Rows::first_required, crate::specs::Rows::count_by_kind))]
fn ports_by_kind(kind: u64) -> Range<usize>
    ensures range { (result.start ≡ first_required kind) × (result.end ≡ first_required kind + count_by_kind kind) }
    ensures few { (result.start ≤ 4) × (result.end ≤ result.start + 4) }
{
    match BlockKind::try_from(kind) {
        Ok(BlockKind::Repeater | BlockKind::Comparator) => 1..2,
        Ok(BlockKind::RedstoneTorch) => 4..5,
        Ok(BlockKind::Piston) => 0..4,
        _ => 0..0,
    }
}

// Whether a kind and facing are those of an unread Repeater or Comparator: an unread Piston keeps its Inputs.
fn loses_input(rules: u64, kind: u64, facing: u64) -> bool
    ensures { result ≡ loses_input rules kind facing }
{
    is_unread(rules, kind, facing) & (kind != PISTON)
}

// The ports of a kind and facing that have a verdict row.
#[tactic(auto, unfolding(crate::specs::Rows::required_count))]
pub fn required_ports(rules: u64, kind: u64, facing: u64) -> Range<usize>
    ensures range { (result.start ≡ first_required kind)
        × (result.end ≡ first_required kind + required_count rules kind facing) }
    ensures few { (result.start ≤ 4) × (result.end ≤ result.start + 4) }
{
    let ports = ports_by_kind(kind);
    if loses_input(rules, kind, facing) {
        return ports.start..ports.start;
    }
    ports
}

// Whether some key has the slot, given where its keys begin. The product cuts the keys of a slot itself (`inputs`); this is for who only
// asks whether there are any.
pub fn slot_fed(keys: &[u64], slot: usize, at: usize) -> bool
    requires ascending { Ascending keys.now × (slot < 2 ^ 32) }
    requires lower_bound { LowerBound keys.now (slot * span) at }
    ensures { result ≡ slot_fed keys.now slot }
{
    at < keys.len() && keys[at] / SPAN == slot as u64
}

// Writes a row at a place, and answers the place after it.
pub fn put_row(out: &mut [u64], at: usize, row: &[u64]) -> usize
    requires { at + length row.now ≤ length out.old }
    ensures { Put row.now at out.old out.new result }
{
    let end = at + row.len();
    out[at..end].copy_from_slice(row);
    end
}

// Writes a source row at a place where there is a kind, and answers the place after it.
fn put_source(out: &mut [u64], at: usize, id: u64, kind: Option<SourceKind>) -> usize
    requires { at + length (kind_row id (option_map source_number kind)) ≤ length out.old }
    ensures { Put (kind_row id (option_map source_number kind)) at out.old out.new result }
{
    let Some(kind) = kind else {
        return at;
    };
    put_row(out, at, &[id, u64::from(kind)])
}

// Writes the source rows of one component from a place on, and answers the place after them.
fn put_component(
    out: &mut [u64],
    at: usize,
    id: u64,
    kind: u64,
    on_frontier: bool,
    inferred: bool,
) -> usize
    requires at_in_bounds { at + 4 ≤ length out.old }
    requires on_frontier_value { inferred ≡ true → on_frontier ≡ false }
    ensures { Put (sources_of id (source_kind kind) on_frontier inferred) at out.old out.new result }
{
    let boundary = on_frontier.then_some(SourceKind::ObservationBoundary);
    let primary = inferred.then_some(SourceKind::InferredPrimaryInput);
    let first = put_source(out, at, id, source_kind(kind));
    let second = put_source(out, first, id, boundary);
    put_source(out, second, id, primary)
}

// Writes the source rows of all components, in list order, and answers how many there are.
pub fn put_sources(
    components: ComponentList,
    on_frontier: &[bool],
    inferred: &[bool],
    out: &mut [u64],
) -> usize
    requires components_in_bounds { (component_count components.numbers.now ≤ length on_frontier.now)
        × (component_count components.numbers.now ≤ length inferred.now) }
    requires inferred_alone { InferredAlone components.numbers.now on_frontier.now inferred.now
        × (4 * component_count components.numbers.now ≤ length out.old) }
    ensures { let cs = components.entry.numbers.now in
        Scanned (sources_below cs on_frontier.now inferred.now (component_count cs))
        2 out.old out.new result }
{
    let mut at = 0;
    for p in 0..components.count() {
        let id = components.id(p);
        let kind = components.kind(p);
        at = put_component(out, at, id, kind, on_frontier[p], inferred[p]);
    }
    at / 2
}
