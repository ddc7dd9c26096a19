// A plot held open: the clicks on it and its report. The plot is lent as four slices of numbers, read and written where they stand.
ghost use Rattle.std.specs.Prelude.{◌≡◌, ◌+◌, ◌-◌, ◌*◌, ◌<◌, ◌≤◌, false, length, ◌++◌};
ghost use lib.Seq.{paste};
ghost use Rattle.sets.specs.Members.{word_count};
ghost use Rattle.lists.specs.Rules.{rules_of};
ghost use Rattle.lists.specs.Slices.{laid};
ghost use Rattle.checks.specs.Refusals.{packed};
ghost use Rattle.held.specs.Lent.{used_in, freed_count_in, held_in};
ghost use Rattle.held.specs.Inspected.{lent_of};
ghost use Rattle.held_liveness.specs.Entry.{held_refusal};
ghost use Rattle.capi.specs.Liveness.{set_count};
ghost use Rattle.capi.specs.Held.{OpenedByLists, PlacedByLists, BrokenByLists, ConnectedByLists, HeldByLists};
ghost use Rattle.capi.specs.HeldParts.{Counted};

use checks::refusals::{pack, pack_refusal, room_for};
use held::clicks::{break_block, connect_ports, open_plot, place_block};
use held::inspect::is_left;
use held::writes::{FREED, HELD, USED};
use held_liveness::held_liveness;
use lists::{Fault, Refusal};
use liveness::Analysis;
use sets::WORDS;

// The sets of a report.
const SETS: usize = 4;

// How many components are present and how many connections are held, as the counts of a number.
fn pack_plot(state: &[usize]) -> u64
    requires { Counted state.now }
    ensures { result ≡ 65536 * (used_in state.now - freed_count_in state.now) + 4294967296 * held_in state.now }
{
    65536 * (state[USED] - state[FREED]) as u64 + 4294967296 * state[HELD] as u64
}

// Opens an empty plot with a rules number and frontiers. What was in the slices is not looked at.
#[unsafe(no_mangle)]
pub extern "C" fn dustroute_open(
    rules: i64,
    given: &[i64],
    state: &mut [usize],
    frontiers: &mut [i64],
    places: &mut [i64],
    connections: &mut [i64],
) -> u64
    ensures { OpenedByLists (lent_of state.old frontiers.old places.old connections.old)
        (lent_of state.new frontiers.new places.new connections.new) (rules_of rules) given.now result }
{
    pack(open_plot(rules, given, state, frontiers, places, connections))
}

// Places a block. The count is its place.
#[unsafe(no_mangle)]
pub extern "C" fn dustroute_place(
    state: &mut [usize],
    frontiers: &[i64],
    places: &mut [i64],
    connections: &[i64],
    numbers: &[i64],
) -> u64
    ensures { PlacedByLists (lent_of state.old frontiers.now places.old connections.now)
        (lent_of state.new frontiers.now places.new connections.now) numbers.now result }
{
    match place_block(state, frontiers, places, connections, numbers) {
        Err(refusal) => pack_refusal(refusal),
        Ok(place) => 65536 * place as u64,
    }
}

// Breaks the block with the id: its place is freed, and all connections at it are dropped. The counts are those present and held then.
#[unsafe(no_mangle)]
pub extern "C" fn dustroute_break(
    state: &mut [usize],
    frontiers: &[i64],
    places: &mut [i64],
    connections: &mut [i64],
    id: u64,
) -> u64
    ensures { BrokenByLists (lent_of state.old frontiers.now places.old connections.old)
        (lent_of state.new frontiers.now places.new connections.new) id result }
{
    match break_block(state, frontiers, places, connections, id) {
        Err(refusal) => pack_refusal(refusal),
        Ok(()) => pack_plot(state),
    }
}

// Adds a port connection between two present ids. The counts are those present and held then.
#[unsafe(no_mangle)]
pub extern "C" fn dustroute_connect(
    state: &mut [usize],
    frontiers: &[i64],
    places: &[i64],
    connections: &mut [i64],
    numbers: &[i64],
) -> u64
    ensures { ConnectedByLists (lent_of state.old frontiers.now places.now connections.old)
        (lent_of state.new frontiers.now places.now connections.new) numbers.now result }
{
    match connect_ports(state, frontiers, places, connections, numbers) {
        Err(refusal) => pack_refusal(refusal),
        Ok(()) => pack_plot(state),
    }
}

// Writes the words of a set from `at` on.
fn put_words(out: &mut [u64], at: usize, words: &[u64])
    requires { at + length words.now ≤ length out.old }
    ensures { out.new ≡ paste out.old at words.now (length words.now) }
{
    out[at..at + words.len()].copy_from_slice(words);
}

// Writes the words of an answer's four sets at the front of a slice.
fn put_sets(analysis: Analysis, out: &mut [u64])
    requires { set_count * word_count ≤ length out.old }
    ensures { let a = analysis in out.new ≡ laid (a.drive.words ++ (a.potential.words ++ (a.cyclic.words ++ a.has_drive.words))) out.old }
{
    put_words(out, 0, &analysis.drive.words);
    put_words(out, WORDS, &analysis.potential.words);
    put_words(out, 2 * WORDS, &analysis.cyclic.words);
    put_words(out, 3 * WORDS, &analysis.has_drive.words);
}

// Writes the sets of a report, and answers its counts as one number.
fn put_report(analysis: Analysis, out: &mut [u64]) -> u64
    requires few { (analysis.regions < 65536) × ((analysis.sources < 65536) × (analysis.inputs < 65536)) }
    requires room { set_count * word_count ≤ length out.old }
    ensures sets { let a = analysis in
        out.new ≡ laid (a.drive.words ++ (a.potential.words ++ (a.cyclic.words ++ a.has_drive.words))) out.old }
    ensures counts { result ≡ 65536 * analysis.regions + 4294967296 * analysis.sources + 281474976710656 * analysis.inputs }
{
    put_sets(analysis, out);
    65536 * analysis.regions as u64
        + 4294967296 * analysis.sources as u64
        + 281474976710656 * analysis.inputs as u64
}

// The refusal of a plot for whose sets there is no room: 18 before 2.
fn refuse_setless(state: &[usize], frontiers: &[i64], places: &[i64], connections: &[i64]) -> u64
    ensures { result ≡ packed (held_refusal (lent_of state.now frontiers.now places.now connections.now) false) }
{
    let fault = if is_left(state, frontiers, places, connections) {
        Fault::ShortSlice
    } else {
        Fault::StrangePlot
    };
    pack_refusal(Refusal {
        fault,
        list: None,
        item: 0,
    })
}

// The report of a held plot: its components, sorted, and of this list and the held connections the region of each component, the source
// rows and the verdict rows, and the four sets, at the front of the lent slices.
#[unsafe(no_mangle)]
pub extern "C" fn dustroute_held_liveness(
    state: &[usize],
    frontiers: &[i64],
    places: &[i64],
    connections: &[i64],
    components: &mut [i64],
    regions: &mut [u64],
    sources: &mut [u64],
    inputs: &mut [u64],
    sets: &mut [u64],
    stack: &mut [usize],
) -> u64
    ensures { HeldByLists (lent_of state.now frontiers.now places.now connections.now) components.old components.new
        regions.old regions.new sources.old sources.new inputs.old inputs.new sets.old sets.new stack.old stack.new result }
{
    if !room_for(SETS, WORDS, sets.len()) {
        return refuse_setless(state, frontiers, places, connections);
    }
    let answer = held_liveness(
        state,
        frontiers,
        places,
        connections,
        components,
        regions,
        sources,
        inputs,
        stack,
    );
    match answer {
        Err(refusal) => pack_refusal(refusal),
        Ok(analysis) => put_report(analysis, sets),
    }
}
