// The way from the lever to a driven input: a finder, and a separate check.
#![tactic(auto)]

mod check;
mod find;
mod levels;
mod plot;

ghost use Rattle.lists.specs.Rules.{rules_of};
ghost use Rattle.trail.specs.Entries.{Finding, Checking};

use check::check_plot;
use checks::refusals::room_for;
use lists::rules::rules_of;
use lists::{COMPONENT, Refusal};
use liveness::accept::Tables;
use plot::trail_plot;

// Writes the ids from a drive source to an immediate source of a port whose verdict row has status 0, as few as possible, to the front of
// the lent list; answers how many. Any id and port may be asked for.
pub fn find_trail(
    rules: i64,
    components: &[i64],
    ports: &[i64],
    frontiers: &[i64],
    id: u64,
    port: u64,
    trail: &mut [u64],
) -> Result<usize, Refusal>
    ensures { Finding (rules_of rules) components.now ports.now frontiers.now id port trail.old trail.new result }
{
    let rules = rules_of(rules);
    let count = components.len() / COMPONENT;
    let enough = room_for(count, 1, trail.len());
    let mut tables = Tables::new();
    let plot = tables.plot(rules, components, ports, frontiers, enough)?;
    trail_plot(&plot, id, port, trail)
}

// Whether a list of ids is a trail of a port that has a verdict row: its first is a drive source, each next one is fed by the one before,
// and its last feeds the port. Any list, id and port may be asked for.
pub fn check_trail(
    rules: i64,
    components: &[i64],
    ports: &[i64],
    frontiers: &[i64],
    id: u64,
    port: u64,
    trail: &[u64],
) -> Result<bool, Refusal>
    ensures { Checking (rules_of rules) components.now ports.now frontiers.now id port trail.now result }
{
    let rules = rules_of(rules);
    let mut tables = Tables::new();
    let plot = tables.plot(rules, components, ports, frontiers, true)?;
    check_plot(&plot, id, port, trail)
}
