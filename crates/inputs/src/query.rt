// The input query: the immediate sources of a port, and the inferred inputs among these and all upstream of them.
ghost use Rattle.lists.specs.declared.Fault.{Fault};
ghost use Rattle.std.specs.Prelude.{Some, None, Ok};
ghost use Rattle.std.specs.Prelude.{◌≡◌, ◌&&◌, List, ℕ, ◌*◌, ◌%◌, ◌^◌, ◌≤◌, ◌<◌, length, get_or, ℤ};
ghost use Rattle.tables.specs.Order.{member};
ghost use Rattle.tables.specs.Pairs.{pair, span};
ghost use Rattle.lists.specs.Records.{component_count, port_count};
ghost use Rattle.lists.specs.First.{is_found};
ghost use Rattle.checks.specs.Refusals.{refuse, too_short};
ghost use Rattle.regions.specs.Search.{Zeros};
ghost use Rattle.regions.specs.Graph.{marked};
ghost use Rattle.graph.specs.Rows.{edges_of};
ghost use Rattle.signals.specs.Regions.{is_inferred};
ghost use Rattle.signals.specs.Drive.{members_where};
ghost use Rattle.inputs.specs.Query.{row_place, PortSets, InputsBy};
ghost use Rattle.signals.specs.Flags.{Flags};
ghost use Rattle.inputs.specs.Inputs.{SlotKeys, SlotOf, Walkable, UpstreamRoom, UpstreamSet};

use super::InputSources;
use super::row::row_place;
use super::slot::slot_keys;
use graph::Graph;
use lists::ids::member_of;
use lists::{COMPONENTS, CONNECTIONS, Fault, Refusal};
use liveness::plot::{Plot, PreparedPlot, Room};
use liveness::steps::flag_inputs;
use sets::ComponentSet;
use signals::edges::PORTS;
use signals::flags::{combine_flags, gather};
use signals::stages::build_fed;
use tables::SPAN;

// ---- one port

// Flags the second numbers of the keys of a slot, and clears the others.
fn immediate_flags(keys: &[u64], flags: &mut [bool])
    requires flags_in_bounds { (i : ℕ) → i < length keys.now → get_or keys.now i 0 % span < length flags.old }
    requires flags_len { length flags.old ≤ span }
    ensures { (fed : List ℕ) (slot : ℕ) → SlotKeys fed slot keys.now →
        Flags (length flags.old) (λ a. member (pair slot a) fed) flags.new }
{
    flags.fill(false);
    for key in keys {
        flags[(key % SPAN) as usize] = true;
    }
}

// Keeps the flags of inferred inputs alone. A function of its own: in one that has more lent slices the check says of the closure's call
// "a bug in rattle keeps any answer from counting".
fn keep_inputs(flags: &mut [bool], inferred: &[bool])
    requires { length flags.old ≤ length inferred.now }
    ensures { Flags (length flags.old) (λ m. marked flags.old m && marked inferred.now m) flags.new }
{
    combine_flags(flags, inferred, |reached, input| reached & input);
}

// The inferred inputs among the flagged members and all upstream of them: the edges are turned round.
fn upstream_inputs(
    backward: Graph,
    immediate: &[bool],
    inferred: &[bool],
    stack: &mut [usize],
) -> ComponentSet
    requires { UpstreamRoom (length backward.ends.now) immediate.now inferred.now stack.old }
    ensures { UpstreamSet (length inferred.now) (edges_of backward.entry.ends.now backward.entry.next.now)
        immediate.now inferred.now stack.new result.words }
{
    let n = inferred.len();
    let mut upstream = [false; COMPONENTS];
    let mut order = [0u16; COMPONENTS];
    backward.reach_from(immediate, &mut upstream[..n], &mut order, stack);
    keep_inputs(&mut upstream[..n], inferred);
    ComponentSet::of_flags(&upstream[..n])
}

// The sets of one port, given the table of the scene by the ports that are fed, the edges turned round, the port's slot, and the inferred
// inputs by member. The stack is zero before and after.
pub(crate) fn row_sources(
    fed: &[u64],
    backward: Graph,
    slot: usize,
    inferred: &[bool],
    stack: &mut [usize],
) -> InputSources
    requires by_index { (rules : ℕ) × (cs ps fs : List ℤ) × (p port : ℕ)
        × (Walkable rules cs ps fs fed.now backward.ends.now backward.next.now inferred.now × SlotOf cs ps p port fed.now slot) }
    requires inferred_in_bounds { (2 * length inferred.now ≤ length stack.old) × Zeros stack.old }
    ensures { (rules : ℕ) (cs ps fs : List ℤ) (p port : ℕ) →
        Walkable rules cs ps fs fed.now backward.entry.ends.now backward.entry.next.now inferred.now → SlotOf cs ps p port fed.now slot →
        PortSets rules cs ps fs (Some p) port result × Zeros stack.new }
{
    let keys = slot_keys(fed, slot);
    if keys.is_empty() {
        return InputSources::none();
    }
    let n = inferred.len();
    let mut immediate = [false; COMPONENTS];
    immediate_flags(keys, &mut immediate[..n]);
    InputSources {
        immediate: ComponentSet::of_flags(&immediate[..n]),
        inferred: upstream_inputs(backward, &immediate[..n], inferred, stack),
    }
}

// ---- the query of an accepted scene

// Flags the inferred inputs of a prepared plot, by member.
pub(crate) fn inferred_members(plot: &PreparedPlot, inferred: &mut [bool])
    requires { length inferred.old ≡ component_count plot.now.plot.components.now }
    ensures { let p = plot.now.plot in
        inferred.new ≡ members_where p.components.now (is_inferred p.rules p.components.now p.ports.now p.frontiers.now) }
{
    let mut on_frontier = [false; COMPONENTS];
    let mut has_drive = [false; COMPONENTS];
    let mut inferred_at = [false; COMPONENTS];
    flag_inputs(plot, &mut on_frontier, &mut has_drive, &mut inferred_at);
    gather(plot.members, &inferred_at, inferred);
}

// Fills what one port of a plot is asked by: its edges by the port that they feed, and the inferred inputs by member; answers its edges
// turned round. Leaves the stack zero.
fn walk_tables<'a>(
    plot: Plot<'a>,
    room: &'a mut Room,
    fed: &mut [u64],
    inferred: &mut [bool],
    stack: &mut [usize],
) -> Graph<'a>
    requires fed_len { length fed.old ≡ port_count plot.ports.now }
    requires inferred_len { let n = component_count plot.components.now in (length inferred.old ≡ n) × (2 * n ≤ length stack.old) }
    ensures { let p = plot.entry in
        Walkable p.rules p.components.now p.ports.now p.frontiers.now fed.new result.ends.now result.next.now inferred.new
        × Zeros stack.new }
{
    build_fed(plot.port_list(), plot.ends, fed);
    let prepared = plot.prepare(room, stack);
    inferred_members(&prepared, inferred);
    prepared.backward
}

// The sets of a port of the component at p.
fn input_sources(plot: &Plot, p: usize, port: usize, stack: &mut [usize]) -> InputSources
    requires p_bound { (p < component_count plot.now.components.now) × (port < 2 ^ 8) }
    requires stack_room { 2 * component_count plot.now.components.now ≤ length stack.old }
    ensures { let l = plot.now in
        InputsBy (Ok tt) l.rules l.components.now l.ports.now l.frontiers.now (Some p) port stack.old stack.new (Ok result) }
{
    let n = plot.keys.len();
    let m = plot.port_list().count();
    let mut keys = [0u64; CONNECTIONS];
    let mut flags = [false; COMPONENTS];
    let mut room = Room::new();
    let fed = &mut keys[..m];
    let inferred = &mut flags[..n];
    let backward = walk_tables(*plot, &mut room, fed, inferred, stack);
    let slot = member_of(plot.keys, plot.component_list().id(p)) * PORTS + port;
    row_sources(fed, backward, slot, inferred, stack)
}

// The query of a plot; 8 where the port asked for has no verdict row.
pub(crate) fn query_plot(
    plot: &Plot,
    id: u64,
    port: u64,
    stack: &mut [usize],
) -> Result<InputSources, Refusal>
    requires { 2 * component_count plot.now.components.now ≤ length stack.old }
    ensures { let p = plot.now in let place = row_place p.rules p.components.now id port in
        InputsBy (refuse Fault.NoVerdictRow None (too_short (is_found place)))
        p.rules p.components.now p.ports.now p.frontiers.now place port stack.old stack.new result }
{
    let p = row_place(plot.rules, plot.keys, plot.component_list(), id, port).ok_or(Refusal {
        fault: Fault::NoVerdictRow,
        list: None,
        item: 0,
    })?;
    Ok(input_sources(plot, p, port as usize, stack))
}
