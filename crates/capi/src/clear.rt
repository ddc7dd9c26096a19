// Clearing up a plot after digging. The lists are lent as numbers and read where they stand.
ghost use Rattle.std.specs.Prelude.{◌≡◌, ◌+◌, ◌*◌, ◌≤◌};
ghost use Rattle.lists.specs.Limits.{connection_limit};
ghost use Rattle.lists.specs.Rules.{rules_of};
ghost use Rattle.capi.specs.Clear.{ClearByLists};

use checks::refusals::pack_refusal;
use clearing::{Cleared, clear_missing};

// The counts of an accepted scene as one number.
fn pack_counts(cleared: Cleared) -> u64
    requires { (cleared.kept ≤ connection_limit) × (cleared.dropped ≤ connection_limit) }
    ensures { result ≡ 65536 * cleared.kept + 4294967296 * cleared.dropped }
{
    65536 * cleared.kept as u64 + 4294967296 * cleared.dropped as u64
}

// The port connections that name no missing block, and the items of those that do with which ends were missing, at the front of the lent
// slices.
#[unsafe(no_mangle)]
pub extern "C" fn dustroute_clear(
    rules: i64,
    components: &[i64],
    ports: &[i64],
    frontiers: &[i64],
    kept: &mut [i64],
    dropped: &mut [u64],
) -> u64
    ensures { ClearByLists (rules_of rules) components.now ports.now frontiers.now kept.old kept.new dropped.old dropped.new result }
{
    match clear_missing(rules, components, ports, frontiers, kept, dropped) {
        Err(refusal) => pack_refusal(refusal),
        Ok(cleared) => pack_counts(cleared),
    }
}
