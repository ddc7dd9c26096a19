// Whether lent slices are a plot that an opening and clicks can leave (number 18).
ghost use Rattle.std.specs.Prelude.{◌≡◌, true, false, List, ℕ, ◌+◌, ◌*◌, ◌≤◌, ◌<◌, length, take, drop, get_or, eqb, ltb, ℤ};
ghost use Rattle.lists.specs.Limits.{component_limit, connection_limit, component_width, port_width};
ghost use Rattle.lists.specs.Signed.{at};
ghost use Rattle.lists.specs.Records.{component_count, port_count};
ghost use Rattle.lists.specs.Ids.{IdTable};
ghost use Rattle.lists.specs.First.{all_from, tabulate};
ghost use Rattle.held.specs.Tests.{any, every, distinct, same_numbers};
ghost use Rattle.held.specs.Lent.{record_at, is_zero, is_blank, freed_count_in, freed_places_in, counts_width};
ghost use Rattle.held.specs.Lent.{Roomy, lent_of, has_room, counts_fit, lent_valid};
ghost use Rattle.held.specs.Inspected.{FreedMarked, GatheredOne, Gathered, Counts, zero_behind, opens_with};
ghost use Rattle.held.specs.Inspected.{BlocksChecked, both_ends, connections_pass, FrameFits, stand_pass, Standing};

use super::connections::connections_pass;
use super::writes::{COUNTS, FREED, FRONTIERS_AT, HELD, RULES_AT, USED, put_numbers};
use checks::ranges::{COMPONENT_RANGES, FRONTIER_RANGES, PORT_RANGES};
use lists::ids::{first_repeated, has_component, id_table};
use lists::rules::known_rules;
use lists::views::{ComponentList, PortList};
use lists::{COMPONENT, COMPONENTS, CONNECTIONS, FRONTIER, FRONTIERS, PORT};

// Whether list[i] is zero.
fn is_zero(list: &[i64], i: usize) -> bool
    requires { i < length list.now }
    ensures { result ≡ is_zero (at list.now i) }
{
    0 == list[i]
}

// Whether the n numbers from `from` on are zero.
fn zeros(list: &[i64], from: usize, n: usize) -> bool
    requires { from + n ≤ length list.now }
    ensures { result ≡ every is_zero (take n (drop from list.now)) }
{
    // No way out at the first: so several numbers are looked at at once.
    let mut all = true;
    for f in 0..n {
        all &= is_zero(list, from + f);
    }
    all
}

// Whether the state is zero from `from` on.
fn counts_zero(state: &[usize], from: usize) -> bool
    requires { from ≤ length state.now }
    ensures { result ≡ every (eqb 0) (drop from state.now) }
{
    for k in from..state.len() {
        if state[k] != 0 {
            return false;
        }
    }
    true
}

// Marks the freed places, if each was used and none is freed twice.
fn mark_freed(state: &[usize], used: usize, marks: &mut [bool]) -> bool
    requires within { counts_width + freed_count_in state.now ≤ length state.now }
    requires room { used ≤ length marks.old }
    requires unmarked { (k : ℕ) → get_or marks.old k false ≡ false }
    ensures { FreedMarked state.now used marks.new result }
{
    for i in 0..state[FREED] {
        let k = state[COUNTS + i];
        if k >= used {
            return false;
        }
        if marks[k] {
            return false;
        }
        marks[k] = true;
    }
    true
}

// Copies the record of place k to the end of the first `count` records of `out`, unless the place is marked. Answers how many there are then.
fn gather_one(places: &[i64], marks: &[bool], k: usize, count: usize, out: &mut [i64]) -> usize
    requires within { (k * component_width + component_width ≤ length places.now) × (k < length marks.now) }
    requires room { count * component_width + component_width ≤ length out.old }
    ensures { GatheredOne places.now (get_or marks.now k false) k count out.old out.new result }
{
    if marks[k] {
        return count;
    }
    let from = k * COMPONENT;
    put_numbers(out, count * COMPONENT, &places[from..from + COMPONENT]);
    count + 1
}

// Copies the records of the places that are not marked to the front of `out`, by rising place. Answers how many there are.
fn gather(places: &[i64], marks: &[bool], used: usize, out: &mut [i64]) -> usize
    requires within { (used * component_width ≤ length places.now) × (used ≤ length marks.now) }
    requires room { used * component_width ≤ length out.old }
    ensures { Gathered places.now marks.now used out.new result }
{
    let mut count = 0;
    for k in 0..used {
        count = gather_one(places, marks, k, count, out);
    }
    count
}

// Whether each slice has room for a full plot.
#[tactic(auto, unfolding(crate::specs::Lent::has_room))]
pub fn has_room(state: &[usize], frontiers: &[i64], places: &[i64], connections: &[i64]) -> bool
    ensures { result ≡ has_room (lent_of state.now frontiers.now places.now connections.now) }
{
    (COUNTS + COMPONENTS <= state.len())
        & ((FRONTIERS * FRONTIER <= frontiers.len())
            & ((COMPONENTS * COMPONENT <= places.len())
                & (CONNECTIONS * PORT <= connections.len())))
}

// Whether no count is over its limit.
#[tactic(auto, unfolding(crate::specs::Lent::counts_fit))]
fn counts_fit(state: &[usize]) -> bool
    requires { counts_width ≤ length state.now }
    ensures { result ≡ counts_fit state.now }
{
    (state[USED] <= COMPONENTS)
        & ((state[FREED] <= COMPONENTS)
            & ((state[HELD] <= CONNECTIONS) & (state[FRONTIERS_AT] <= FRONTIERS)))
}

// Whether the record of each freed place is all zero.
fn blanks(state: &[usize], places: &[i64], used: usize) -> bool
    requires within { counts_width + freed_count_in state.now ≤ length state.now }
    requires room { used * component_width ≤ length places.now }
    requires below { every (λ k. ltb k used) (freed_places_in state.now) ≡ true }
    ensures { result ≡ every (is_blank places.now) (freed_places_in state.now) }
{
    for i in 0..state[FREED] {
        if !zeros(places, state[COUNTS + i] * COMPONENT, COMPONENT) {
            return false;
        }
    }
    true
}

// Whether all that lies behind the counts is zero.
fn zero_behind(state: &[usize], frontiers: &[i64], places: &[i64], connections: &[i64]) -> bool
    requires room { Roomy (lent_of state.now frontiers.now places.now connections.now) }
    requires counts { Counts state.now }
    ensures { result ≡ zero_behind state.now frontiers.now places.now connections.now }
{
    let f = state[FRONTIERS_AT] * FRONTIER;
    let p = state[USED] * COMPONENT;
    let c = state[HELD] * PORT;
    counts_zero(state, COUNTS + state[FREED])
        & (zeros(frontiers, f, frontiers.len() - f)
            & (zeros(places, p, places.len() - p) & zeros(connections, c, connections.len() - c)))
}

// Whether an opening takes the rules number and the frontiers.
#[tactic(auto, unfolding(crate::specs::Inspected::opens_with))]
fn opens(rules: usize, frontiers: &[i64]) -> bool
    ensures { result ≡ opens_with rules frontiers.now }
{
    FRONTIER_RANGES.first_outside(frontiers).is_none() & known_rules(rules as u64)
}

// Whether each block is in range and no id is used twice; `keys` is the table of their ids then.
fn blocks_pass(blocks: &[i64], keys: &mut [u64], spare: &mut [u64]) -> bool
    requires few { component_count blocks.now ≤ component_limit }
    requires room { (length keys.old ≡ component_count blocks.now) × (length keys.old ≤ length spare.old) }
    ensures { BlocksChecked blocks.now keys.new result }
{
    if COMPONENT_RANGES.first_outside(blocks).is_some() {
        return false;
    }
    let listed = ComponentList { numbers: blocks };
    id_table(listed, keys, spare);
    first_repeated(keys, listed).is_none()
}

// Whether five numbers are those of connection k.
fn same_as(numbers: &[i64], list: &[i64], k: usize) -> bool
    requires { (length numbers.now ≡ port_width) × (k * port_width + port_width ≤ length list.now) }
    ensures { result ≡ same_numbers numbers.now (record_at port_width list.now k) }
{
    let at = k * PORT;
    numbers == &list[at..at + PORT]
}

// Whether they are those of one of the first n connections.
pub fn is_held(list: &[i64], n: usize, numbers: &[i64]) -> bool
    requires { (length numbers.now ≡ port_width) × (n * port_width ≤ length list.now) }
    ensures { result ≡ any (same_numbers numbers.now) (tabulate (record_at port_width list.now) n) }
{
    for k in 0..n {
        if same_as(numbers, list, k) {
            return true;
        }
    }
    false
}

// Whether the slices have room, the counts fit, all behind them is zero, and an opening takes the rules number and the frontiers.
fn frame_fits(state: &[usize], frontiers: &[i64], places: &[i64], connections: &[i64]) -> bool
    ensures { FrameFits (lent_of state.now frontiers.now places.now connections.now) result }
{
    if !has_room(state, frontiers, places, connections) {
        return false;
    }
    if !counts_fit(state) {
        return false;
    }
    if !zero_behind(state, frontiers, places, connections) {
        return false;
    }
    let count = state[FRONTIERS_AT] * FRONTIER;
    opens(state[RULES_AT], &frontiers[..count])
}

// Whether blocks and connections pass, their ids in a table of their own.
fn stand_pass(blocks: &[i64], connections: &[i64]) -> bool
    requires { (component_count blocks.now ≤ component_limit) × (port_count connections.now ≤ connection_limit) }
    ensures { result ≡ stand_pass blocks.now connections.now }
{
    let mut table = [0u64; COMPONENTS];
    let mut spare = [0u64; COMPONENTS];
    let keys = &mut table[..blocks.len() / COMPONENT];
    if !blocks_pass(blocks, keys, &mut spare) {
        return false;
    }
    connections_pass(keys, connections)
}

// Where an opening and clicks can leave these slices, the numbers of the blocks that stand are laid at the front of `blocks`, by rising
// place, and this is how many numbers they are.
pub fn standing(
    state: &[usize],
    frontiers: &[i64],
    places: &[i64],
    connections: &[i64],
    blocks: &mut [i64],
) -> Option<usize>
    requires { component_limit * component_width ≤ length blocks.old }
    ensures { Standing (lent_of state.now frontiers.now places.now connections.now) blocks.new result }
{
    if !frame_fits(state, frontiers, places, connections) {
        return None;
    }
    let used = state[USED];
    let mut marks = [false; COMPONENTS];
    if !mark_freed(state, used, &mut marks) {
        return None;
    }
    if !blanks(state, places, used) {
        return None;
    }
    let numbers = gather(places, &marks, used, blocks) * COMPONENT;
    let held = state[HELD] * PORT;
    if stand_pass(&blocks[..numbers], &connections[..held]) {
        Some(numbers)
    } else {
        None
    }
}

// Whether an opening and clicks can leave these slices. If not they are refused with 18.
pub fn is_left(state: &[usize], frontiers: &[i64], places: &[i64], connections: &[i64]) -> bool
    ensures { result ≡ lent_valid (lent_of state.now frontiers.now places.now connections.now) }
{
    let mut blocks = [0i64; COMPONENTS * COMPONENT];
    standing(state, frontiers, places, connections, &mut blocks).is_some()
}
