// The finder on a plot.
ghost use Rattle.std.specs.Prelude.{Some, None, Ok, ℕ, ◌≡◌, ◌≤◌, ◌<◌, length, get_or, map};
ghost use Rattle.lists.specs.declared.Fault.{Fault};
ghost use Rattle.lists.specs.Records.{component, component_count};
ghost use Rattle.lists.specs.Slices.{laid};
ghost use Rattle.inputs.specs.Query.{row_place};
ghost use Rattle.trail.specs.Scene.{FoundWay, id_of};
ghost use Rattle.trail.specs.Entries.{port_refusal, status_refusal, FindingBy};

use super::find::find_way;
use graph::Graph;
use inputs::port::{drive_members, flag_immediate};
use inputs::row::row_place;
use lists::{COMPONENTS, CONNECTIONS, Fault, Refusal};
use liveness::plot::Plot;
use tables::SPAN;

// Writes the ids of members to the front of the lent list.
fn write_ids(keys: &[u64], way: &[u16], trail: &mut [u64])
    requires { ((i : ℕ) → i < length way.now → get_or way.now i 0 < length keys.now) × (length way.now ≤ length trail.old) }
    ensures { trail.new ≡ laid (map (id_of keys.now) way.now) trail.old }
{
    for (i, member) in way.iter().enumerate() {
        trail[i] = keys[usize::from(*member)] / SPAN;
    }
}

// Finds the best trail of the port of the component with the id, by members, in the lent list; answers how many members it has.
fn member_way(plot: &Plot, id: u64, port: u64, way: &mut [u16]) -> Option<usize>
    requires { component_count plot.now.components.now ≤ length way.old }
    ensures { let cs = plot.now.components.now in let ps = plot.now.ports.now in (p : ℕ) → (component cs p).id ≡ id →
        FoundWay cs ps plot.now.frontiers.now p port way.new result }
{
    let n = plot.keys.len();
    let mut forward_ends = [0u16; COMPONENTS];
    let mut next = [0u16; CONNECTIONS];
    let mut backward_ends = [0u16; COMPONENTS];
    let mut back = [0u16; CONNECTIONS];
    let mut drive_flags = [false; COMPONENTS];
    let mut feed_flags = [false; COMPONENTS];
    let mut levels = [0u16; COMPONENTS];
    let ends = &mut forward_ends[..n];
    let back_ends = &mut backward_ends[..n];
    let drives = &mut drive_flags[..n];
    let feeds = &mut feed_flags[..n];
    plot.rows(ends, &mut next, back_ends, &mut back);
    drive_members(plot, drives);
    flag_immediate(plot, id, port, feeds);
    let forward = Graph { ends, next: &next };
    let backward = Graph {
        ends: back_ends,
        next: &back,
    };
    find_way(forward, backward, drives, feeds, &mut levels[..n], way)
}

// The trail of a port of the component with the id; 10 where there is none.
fn trail_port(plot: &Plot, id: u64, port: u64, trail: &mut [u64]) -> Result<usize, Refusal>
    requires { let cs = plot.now.components.now in (component_count cs ≤ length trail.old)
        × ((p : ℕ) × (p < component_count cs) × ((component cs p).id ≡ id)) }
    ensures { let l = plot.now in (p : ℕ) → p < component_count l.components.now → (component l.components.now p).id ≡ id →
        FindingBy (status_refusal l.rules l.components.now l.ports.now l.frontiers.now port (Some p))
        l.components.now l.ports.now l.frontiers.now id port trail.old trail.new result }
{
    let mut way = [0u16; COMPONENTS];
    let count = member_way(plot, id, port, &mut way).ok_or(Refusal {
        fault: Fault::NotDriven,
        list: None,
        item: 0,
    })?;
    write_ids(plot.keys, &way[..count], trail);
    Ok(count)
}

// The finder on a plot; 8 where the port has no verdict row, then 10.
pub(crate) fn trail_plot(
    plot: &Plot,
    id: u64,
    port: u64,
    trail: &mut [u64],
) -> Result<usize, Refusal>
    requires { component_count plot.now.components.now ≤ length trail.old }
    ensures { let l = plot.now in
        FindingBy (port_refusal l.rules l.components.now l.ports.now l.frontiers.now port (row_place l.rules l.components.now id port))
        l.components.now l.ports.now l.frontiers.now id port trail.old trail.new result }
{
    row_place(plot.rules, plot.keys, plot.component_list(), id, port).ok_or(Refusal {
        fault: Fault::NoVerdictRow,
        list: None,
        item: 0,
    })?;
    trail_port(plot, id, port, trail)
}
