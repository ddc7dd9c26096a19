// What an accepted click writes into the lent slices.
ghost use Rattle.std.specs.Prelude.{◌≡◌, ◌+◌, ◌*◌, ◌≤◌, ◌<◌, length, replicate, T, pos};
ghost use Rattle.std.specs.Int.Signed.{non_neg};
ghost use lib.Seq.{paste};
ghost use Rattle.lists.specs.Limits.{component_width, port_width};
ghost use Rattle.lists.specs.Signed.{at};
ghost use Rattle.held.specs.Lent.{counts_width, freed_count_in};
ghost use Rattle.held.specs.Writes.{SeatRoom, SeatedIn, freed_state, cleared_places, clear_at, KeptOne, EndsNatural, Dropped};

use lists::numbers::natural_at;
use lists::{COMPONENT, PORT};

// Where the state has its counts, and how many it has: the freed places stand behind them.
pub const RULES_AT: usize = 0;

pub const USED: usize = 1;

pub const FREED: usize = 2;

pub const HELD: usize = 3;

pub const FRONTIERS_AT: usize = 4;

pub const COUNTS: usize = 5;

// Copies a slice of equal length. A loop: std's own copy has an archive for C need memmove from outside.
fn copy(from: &[i64], to: &mut [i64])
    requires { length from.now ≡ length to.old }
    ensures { to.new ≡ from.now }
{
    for (k, slot) in to.iter_mut().enumerate() {
        *slot = from[k];
    }
}

// Writes the numbers of a record into a list, from `at` on.
pub fn put_numbers(list: &mut [i64], at: usize, numbers: &[i64])
    requires { at + length numbers.now ≤ length list.old }
    ensures { list.new ≡ paste list.old at numbers.now (length numbers.now) }
{
    copy(numbers, &mut list[at..at + numbers.len()]);
}

// Writes n zeros into a list, from `at` on.
pub fn put_zeros(list: &mut [i64], at: usize, n: usize)
    requires { at + n ≤ length list.old }
    ensures { list.new ≡ paste list.old at (replicate n (pos 0)) n }
{
    list[at..at + n].fill(0);
}

// Writes a block into its seat: the place freed last, or else the lowest never used. Answers the seat.
pub fn seat_block(state: &mut [usize], places: &mut [i64], numbers: &[i64]) -> usize
    requires { SeatRoom state.old places.old numbers.now }
    ensures { SeatedIn state.old state.new places.old places.new numbers.now result }
{
    let freed = state[FREED];
    if freed == 0 {
        let lowest = state[USED];
        put_numbers(places, lowest * COMPONENT, numbers);
        state[USED] = lowest + 1;
        return lowest;
    }
    let last = COUNTS - 1 + freed;
    let latest = state[last];
    put_numbers(places, latest * COMPONENT, numbers);
    state[last] = 0;
    state[FREED] = freed - 1;
    latest
}

// Frees a place.
pub fn free_place(state: &mut [usize], places: &mut [i64], k: usize)
    requires room { counts_width + freed_count_in state.old < length state.old }
    requires within { k * component_width + component_width ≤ length places.old }
    ensures state { state.new ≡ freed_state state.old k }
    ensures places { places.new ≡ cleared_places places.old k }
{
    let freed = state[FREED];
    put_zeros(places, k * COMPONENT, COMPONENT);
    state[COUNTS + freed] = k;
    state[FREED] = freed + 1;
}

// Whether connection k has no end at the id.
fn is_clear(list: &[i64], k: usize, id: u64) -> bool
    requires within { k * port_width + port_width ≤ length list.now }
    requires natural { T (non_neg (at list.now (k * port_width))) × T (non_neg (at list.now (k * port_width + 2))) }
    ensures { result ≡ clear_at id list.now k }
{
    let i = k * PORT;
    !((natural_at(list, i) == id) | (natural_at(list, i + 2) == id))
}

// Puts connection k behind the first `count` ones, if it has no end at the id. Answers how many there are then.
fn keep_one(list: &mut [i64], k: usize, count: usize, id: u64) -> usize
    requires within { (k * port_width + port_width ≤ length list.old) × (count ≤ k) }
    requires natural { T (non_neg (at list.old (k * port_width))) × T (non_neg (at list.old (k * port_width + 2))) }
    ensures { KeptOne list.old list.new (clear_at id list.old k) k count result }
{
    if !is_clear(list, k, id) {
        return count;
    }
    list.copy_within(k * PORT..k * PORT + PORT, count * PORT);
    count + 1
}

// Drops those of the first n connections that have an end at the id: the others keep their order, and zeros stand behind them. Answers
// how many there are then.
pub fn drop_connections(list: &mut [i64], n: usize, id: u64) -> usize
    requires within { n * port_width ≤ length list.old }
    requires natural { EndsNatural list.old n }
    ensures { Dropped list.old list.new n id result }
{
    let mut count = 0;
    for k in 0..n {
        count = keep_one(list, k, count, id);
    }
    put_zeros(list, count * PORT, (n - count) * PORT);
    count
}
