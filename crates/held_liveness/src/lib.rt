// The liveness report of a held plot: that of the fresh scene of the same components, sorted, the same connections, frontiers and rules.
// Lent slices stay parameters: a struct of `&mut` fields would owe a ghost name for what each is left as.
#![tactic(auto)]

pub mod order;

ghost use Rattle.std.specs.Prelude.{◌≡◌};
ghost use Rattle.held.specs.Inspected.{lent_of};
ghost use Rattle.held_liveness.specs.Entry.{held_room, HeldReported};

use checks::refusals::{room_for, room_for_rows};
use held::inspect::standing;
use held::writes::{FREED, FRONTIERS_AT, HELD, RULES_AT, USED};
use lists::{COMPONENT, COMPONENTS, FRONTIER, Fault, PORT, Refusal};
use liveness::{Analysis, analyze_signal_liveness};
use order::lay_sorted;

// A fault of the call itself.
fn refusal(fault: Fault) -> Refusal
    ensures { result ≡ record { fault = fault; list = None; item = 0 } }
{
    Refusal {
        fault,
        list: None,
        item: 0,
    }
}

// Whether the lent slices have room for so many components and their rows.
fn has_room(
    count: usize,
    components: usize,
    regions: usize,
    sources: usize,
    inputs: usize,
    stack: usize,
) -> bool
    ensures { result ≡ held_room count components regions sources inputs stack }
{
    room_for(count, COMPONENT, components) & room_for_rows(count, regions, sources, inputs, stack)
}

// The report of a held plot: the components that stand, sorted, at the front of `components`; and of this list and the held connections
// what `analyze_signal_liveness` answers and writes. A refusal writes nothing.
pub fn held_liveness(
    state: &[usize],
    frontiers: &[i64],
    places: &[i64],
    connections: &[i64],
    components: &mut [i64],
    regions: &mut [u64],
    sources: &mut [u64],
    inputs: &mut [u64],
    stack: &mut [usize],
) -> Result<Analysis, Refusal>
    ensures { HeldReported (lent_of state.now frontiers.now places.now connections.now) components.old components.new
        regions.old regions.new sources.old sources.new inputs.old inputs.new stack.old stack.new result }
{
    let mut blocks = [0i64; COMPONENTS * COMPONENT];
    if standing(state, frontiers, places, connections, &mut blocks).is_none() {
        return Err(refusal(Fault::StrangePlot));
    }
    let count = state[USED] - state[FREED];
    if !has_room(
        count,
        components.len(),
        regions.len(),
        sources.len(),
        inputs.len(),
        stack.len(),
    ) {
        return Err(refusal(Fault::ShortSlice));
    }
    let numbers = count * COMPONENT;
    lay_sorted(&blocks[..numbers], components);
    let ports = state[HELD] * PORT;
    let given = state[FRONTIERS_AT] * FRONTIER;
    analyze_signal_liveness(
        state[RULES_AT] as i64,
        &components[..numbers],
        &connections[..ports],
        &frontiers[..given],
        regions,
        sources,
        inputs,
        stack,
    )
}
