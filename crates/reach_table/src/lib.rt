// A slow region finder, to set beside the quick one: a reach table, its rows compared.
#![tactic(auto)]

mod number;
mod plot;
mod start;
mod table;

ghost use Rattle.std.specs.Prelude.{◌≡◌, ◌*◌};
ghost use Rattle.lists.specs.Rules.{rules_of};
ghost use Rattle.checks.specs.Refusals.{room_for};
ghost use Rattle.reach_table.specs.Entry.{Tabled};

use checks::refusals::room_for;
use lists::rules::rules_of;
use lists::{COMPONENT, Refusal};
use liveness::accept::Tables;
use plot::table_plot;

// Whether a slice of so many numbers has a place for each pair. By rows, since a count of pairs could overflow.
fn room_for_square(side: usize, len: usize) -> bool
    ensures { result ≡ room_for (side * side) 1 len }
{
    side == 0 || side <= len / side
}

// The refusal of the checks, or how many regions there are. Leaves the finished reach table, row after row in list order, at the front of
// the square, and the region of each component, in list order, at the front of `regions`; the stack zero. A refusal writes nothing.
pub fn slow_regions(
    rules: i64,
    components: &[i64],
    ports: &[i64],
    frontiers: &[i64],
    square: &mut [u8],
    regions: &mut [u64],
    stack: &mut [usize],
) -> Result<usize, Refusal>
    ensures { Tabled (rules_of rules) components.now ports.now frontiers.now
        square.old square.new regions.old regions.new stack.old stack.new result }
{
    let rules = rules_of(rules);
    let count = components.len() / COMPONENT;
    let enough = room_for_square(count, square.len())
        & (room_for(count, 1, regions.len()) & room_for(count, 2, stack.len()));
    let mut tables = Tables::new();
    let plot = tables.plot(rules, components, ports, frontiers, enough)?;
    Ok(table_plot(
        &plot,
        &mut square[..count * count],
        &mut regions[..count],
        stack,
    ))
}
