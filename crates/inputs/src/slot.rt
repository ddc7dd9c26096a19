// The keys of one port in the table of fed ports.
ghost use Rattle.std.specs.Prelude.{◌^◌, ◌<◌};
ghost use Rattle.tables.specs.Order.{Ascending};
ghost use Rattle.inputs.specs.Inputs.{SlotKeys};

use tables::{SPAN, lower_bound};

// The keys of a slot, which stand side by side.
pub(crate) fn slot_keys(fed: &[u64], slot: usize) -> &[u64]
    requires { Ascending fed.now × (slot < 2 ^ 32) }
    ensures { SlotKeys fed.now slot result.now }
{
    let key = slot as u64 * SPAN;
    &fed[lower_bound(fed, key)..lower_bound(fed, key + SPAN)]
}
