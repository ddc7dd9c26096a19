// The question of one port of a plot.
ghost use Rattle.std.specs.Prelude.{Some, None, Ok};
ghost use Rattle.std.specs.Prelude.{◌≡◌, ℕ, ◌*◌, ◌≤◌, length};
ghost use Rattle.lists.specs.declared.Fault.{Fault};
ghost use Rattle.lists.specs.Records.{component, component_count};
ghost use Rattle.lists.specs.First.{is_found};
ghost use Rattle.checks.specs.Refusals.{refuse, too_short};
ghost use Rattle.graph.specs.Rows.{edges_of};
ghost use Rattle.inputs.specs.Query.{row_place};
ghost use Rattle.driven.specs.Driven.{AskedBy};
ghost use Rattle.driven.specs.Scene.{SearchRoom, Upstream};

use super::DrivenInput;
use super::seek::seek_all;
use graph::Graph;
use inputs::port::{drive_members, flag_immediate};
use inputs::row::row_place;
use lists::{COMPONENTS, CONNECTIONS, Fault, Refusal};
use liveness::plot::Plot;
use sets::ComponentSet;

// The search from the flagged members along the edges of a graph, as an answer.
fn search_upstream(
    graph: Graph,
    starts: &[bool],
    goals: &[bool],
    stack: &mut [usize],
) -> DrivenInput
    requires { SearchRoom (length graph.ends.now) starts.now goals.now stack.old }
    ensures { let n = length graph.entry.ends.now in
        Upstream n (edges_of graph.entry.ends.now graph.entry.next.now) goals.now starts.now stack.new result }
{
    let mut flags = [false; COMPONENTS];
    let met = &mut flags[..starts.len()];
    let driven = seek_all(graph, starts, goals, met, stack);
    DrivenInput {
        driven,
        met: ComponentSet::of_flags(met),
    }
}

// The question of a port of the component with the id.
fn driven_port(plot: &Plot, id: u64, port: u64, stack: &mut [usize]) -> DrivenInput
    requires { 2 * component_count plot.now.components.now ≤ length stack.old }
    ensures { let l = plot.now in (p : ℕ) → (component l.components.now p).id ≡ id →
        AskedBy (Ok tt) l.components.now l.ports.now l.frontiers.now (Some p) port stack.old stack.new (Ok result) }
{
    let n = plot.keys.len();
    let mut row_ends = [0u16; COMPONENTS];
    let mut next = [0u16; CONNECTIONS];
    let mut feeds = [false; COMPONENTS];
    let mut drives = [false; COMPONENTS];
    let ends = &mut row_ends[..n];
    let starts = &mut feeds[..n];
    let goals = &mut drives[..n];
    plot.back_rows(ends, &mut next);
    flag_immediate(plot, id, port, starts);
    drive_members(plot, goals);
    stack.fill(0);
    let graph = Graph { ends, next: &next };
    search_upstream(graph, starts, goals, stack)
}

// The question of a plot; 8 where the port asked for has no verdict row.
pub(crate) fn driven_plot(
    plot: &Plot,
    id: u64,
    port: u64,
    stack: &mut [usize],
) -> Result<DrivenInput, Refusal>
    requires { 2 * component_count plot.now.components.now ≤ length stack.old }
    ensures { let l = plot.now in let place = row_place l.rules l.components.now id port in
        AskedBy (refuse Fault.NoVerdictRow None (too_short (is_found place)))
        l.components.now l.ports.now l.frontiers.now place port stack.old stack.new result }
{
    row_place(plot.rules, plot.keys, plot.component_list(), id, port).ok_or(Refusal {
        fault: Fault::NoVerdictRow,
        list: None,
        item: 0,
    })?;
    Ok(driven_port(plot, id, port, stack))
}
