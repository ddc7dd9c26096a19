// The clicks on a held plot.
ghost use Rattle.std.specs.Prelude.{◌≡◌, ◌+◌, ◌*◌, ◌≤◌, ◌<◌, length, T, Err};
ghost use Rattle.std.specs.Int.Signed.{non_neg};
ghost use Rattle.tables.specs.Order.{member};
ghost use Rattle.lists.specs.Limits.{component_width};
ghost use Rattle.lists.specs.Rules.{rules_of};
ghost use Rattle.lists.specs.Signed.{at};
ghost use Rattle.lists.specs.First.{first_from};
ghost use Rattle.held.specs.Plot.{block_fits, connection_fits, opening};
ghost use Rattle.held.specs.Left.{place, connect};
ghost use Rattle.held.specs.Lent.{counts_width, used_in, freed_count_in, freed_places_in, lent_of, lent_answer};
ghost use Rattle.held.specs.Writes.{id_in, IdsNatural};
ghost use Rattle.held.specs.Entries.{PlacedBy, BrokenBy, ConnectedBy, OpenedBy};

use super::inspect::{has_room, is_held, is_left};
use super::writes::{
    COUNTS, FREED, FRONTIERS_AT, HELD, RULES_AT, USED, drop_connections, free_place, put_numbers,
    put_zeros, seat_block,
};
use checks::ranges::{COMPONENT_RANGES, FRONTIER_RANGES, PORT_RANGES};
use checks::refusals::{not_whole, refuse_at, strange_rules};
use lists::numbers::natural_at;
use lists::rules::rules_of;
use lists::{
    COMPONENT, COMPONENTS, CONNECTIONS, FRONTIER, FRONTIERS, Fault, PORT, Refusal, Section,
};

// A fault of the click itself, at item 0.
fn refusal(fault: Fault, list: Option<Section>) -> Refusal
    ensures { result ≡ record { fault = fault; list = list; item = 0 } }
{
    Refusal {
        fault,
        list,
        item: 0,
    }
}

// ---- who is present

// Whether place k is freed.
fn is_freed(state: &[usize], k: usize) -> bool
    requires { counts_width + freed_count_in state.now ≤ length state.now }
    ensures { result ≡ member k (freed_places_in state.now) }
{
    for i in 0..state[FREED] {
        if state[COUNTS + i] == k {
            return true;
        }
    }
    false
}

// Whether place k has a block with the id.
fn id_at(state: &[usize], places: &[i64], id: u64, k: usize) -> bool
    requires within { counts_width + freed_count_in state.now ≤ length state.now }
    requires natural { (k * component_width < length places.now) × T (non_neg (at places.now (k * component_width))) }
    ensures { result ≡ id_in state.now places.now id k }
{
    natural_at(places, k * COMPONENT) == id && !is_freed(state, k)
}

// The place of an id.
fn find_id(state: &[usize], places: &[i64], id: u64) -> Option<usize>
    requires within { counts_width + freed_count_in state.now ≤ length state.now }
    requires natural { (used_in state.now * component_width ≤ length places.now) × IdsNatural places.now (used_in state.now) }
    ensures { result ≡ first_from (id_in state.now places.now id) 0 (used_in state.now) }
{
    for k in 0..state[USED] {
        if id_at(state, places, id, k) {
            return Some(k);
        }
    }
    None
}

// ---- opening

// What refuses an opening: 11, 1, 2 for the room that the plot is lent, 3.
#[tactic(auto, unfolding(crate::specs::Plot::opening))]
fn refuse_opening(rules: u64, given: &[i64], enough: bool) -> Result<(), Refusal>
    ensures { result ≡ opening rules given.now enough }
{
    refuse_at(Fault::UnknownRules, None, strange_rules(rules))?;
    let frontiers = Some(Section::Frontiers);
    refuse_at(
        Fault::ListLength,
        frontiers,
        not_whole(FRONTIER, FRONTIERS, given.len()),
    )?;
    if !enough {
        return Err(refusal(Fault::ShortSlice, None));
    }
    refuse_at(
        Fault::OutOfRange,
        frontiers,
        FRONTIER_RANGES.first_outside(given),
    )
}

// Opens an empty plot with frontiers and a rules number. What was in the slices is not looked at.
pub fn open_plot(
    rules: i64,
    given: &[i64],
    state: &mut [usize],
    frontiers: &mut [i64],
    places: &mut [i64],
    connections: &mut [i64],
) -> Result<(), Refusal>
    ensures { OpenedBy (lent_of state.old frontiers.old places.old connections.old)
        (lent_of state.new frontiers.new places.new connections.new) (rules_of rules) given.now result }
{
    let rules = rules_of(rules);
    let enough = has_room(state, frontiers, places, connections);
    refuse_opening(rules, given, enough)?;
    state.fill(0);
    state[RULES_AT] = rules as usize;
    state[FRONTIERS_AT] = given.len() / FRONTIER;
    frontiers.fill(0);
    put_numbers(frontiers, 0, given);
    places.fill(0);
    connections.fill(0);
    Ok(())
}

// ---- placing

// Whether the numbers are those of a component, each in its range.
fn block_fits(numbers: &[i64]) -> bool
    ensures { result ≡ block_fits numbers.now }
{
    numbers.len() == COMPONENT && COMPONENT_RANGES.first_outside(numbers).is_none()
}

// What refuses placing: 18 before all else, 3 for the record, 16 if its id is present, 15 if no place is free.
fn refuse_placing(
    state: &[usize],
    frontiers: &[i64],
    places: &[i64],
    connections: &[i64],
    numbers: &[i64],
) -> Result<(), Refusal>
    ensures { result ≡ lent_answer (lent_of state.now frontiers.now places.now connections.now) (place numbers.now) }
{
    if !is_left(state, frontiers, places, connections) {
        return Err(refusal(Fault::StrangePlot, None));
    }
    if !block_fits(numbers) {
        return Err(refusal(Fault::OutOfRange, Some(Section::Components)));
    }
    if find_id(state, places, natural_at(numbers, 0)).is_some() {
        return Err(refusal(Fault::PresentId, None));
    }
    if state[USED] - state[FREED] >= COMPONENTS {
        return Err(refusal(Fault::FullPlot, None));
    }
    Ok(())
}

// Places a block: its eight numbers, id first. Answers its place: the most recently freed one still free, or else the lowest never used.
pub fn place_block(
    state: &mut [usize],
    frontiers: &[i64],
    places: &mut [i64],
    connections: &[i64],
    numbers: &[i64],
) -> Result<usize, Refusal>
    ensures { PlacedBy (lent_of state.old frontiers.now places.old connections.now)
        (lent_of state.new frontiers.now places.new connections.now) numbers.now result }
{
    refuse_placing(state, frontiers, places, connections, numbers)?;
    Ok(seat_block(state, places, numbers))
}

// ---- breaking

// Breaks the block with the id: its place is freed, and all connections at it are dropped.
pub fn break_block(
    state: &mut [usize],
    frontiers: &[i64],
    places: &mut [i64],
    connections: &mut [i64],
    id: u64,
) -> Result<(), Refusal>
    ensures { BrokenBy (lent_of state.old frontiers.now places.old connections.old)
        (lent_of state.new frontiers.now places.new connections.new) id result }
{
    if !is_left(state, frontiers, places, connections) {
        return Err(refusal(Fault::StrangePlot, None));
    }
    let Some(k) = find_id(state, places, id) else {
        return Err(refusal(Fault::AbsentId, None));
    };
    let held = state[HELD];
    free_place(state, places, k);
    state[HELD] = drop_connections(connections, held, id);
    Ok(())
}

// ---- connecting

// Whether the numbers are those of a port connection, each in its range.
fn connection_fits(numbers: &[i64]) -> bool
    ensures { result ≡ connection_fits numbers.now }
{
    numbers.len() == PORT && PORT_RANGES.first_outside(numbers).is_none()
}

// What refuses connecting: 18 before all else, 3 for the record, 17 for either end, and 1 for a new connection when the list is full.
fn refuse_connecting(
    state: &[usize],
    frontiers: &[i64],
    places: &[i64],
    connections: &[i64],
    numbers: &[i64],
) -> Result<(), Refusal>
    ensures { result ≡ lent_answer (lent_of state.now frontiers.now places.now connections.now) (connect numbers.now) }
{
    if !is_left(state, frontiers, places, connections) {
        return Err(refusal(Fault::StrangePlot, None));
    }
    if !connection_fits(numbers) {
        return Err(refusal(Fault::OutOfRange, Some(Section::Connections)));
    }
    if find_id(state, places, natural_at(numbers, 0)).is_none() {
        return Err(refusal(Fault::AbsentId, None));
    }
    if find_id(state, places, natural_at(numbers, 2)).is_none() {
        return Err(refusal(Fault::AbsentId, None));
    }
    let held = state[HELD];
    if held < CONNECTIONS {
        return Ok(());
    }
    if is_held(connections, held, numbers) {
        return Ok(());
    }
    Err(Refusal {
        fault: Fault::ListLength,
        list: Some(Section::Connections),
        item: CONNECTIONS,
    })
}

// Adds a port connection between two present ids: its five numbers. One already there changes nothing.
pub fn connect_ports(
    state: &mut [usize],
    frontiers: &[i64],
    places: &[i64],
    connections: &mut [i64],
    numbers: &[i64],
) -> Result<(), Refusal>
    ensures { ConnectedBy (lent_of state.old frontiers.now places.now connections.old)
        (lent_of state.new frontiers.now places.now connections.new) numbers.now result }
{
    refuse_connecting(state, frontiers, places, connections, numbers)?;
    let held = state[HELD];
    if is_held(connections, held, numbers) {
        return Ok(());
    }
    put_numbers(connections, held * PORT, numbers);
    state[HELD] = held + 1;
    Ok(())
}
