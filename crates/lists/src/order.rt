// The strict orders of components and of connections.
ghost use Rattle.std.specs.Prelude.{◌≡◌, Bool, List, ℕ, ◌+◌, ◌≤◌, ◌<◌, length};
ghost use Rattle.lists.specs.Limits.{component_width, connection_width};
ghost use Rattle.lists.specs.Order.{record_before, first_not_ascending, component_order, connection_order};

use super::{COMPONENT, CONNECTION};

// The first record that does not come strictly after the one before it, given the test of the records at two places.
fn first_not_ascending<F: Fn(usize, usize) -> bool>(
    list: &[i64],
    width: usize,
    precedes: F,
) -> Option<usize>
    ghost fields: { List ℕ }
    requires width_nonzero { 0 < width }
    requires callable { (a b : ℕ) → a + width ≤ length list.now → b + width ≤ length list.now → F.pre precedes a b }
    requires answer { (a b : ℕ) (r : Bool) → a + width ≤ length list.now → b + width ≤ length list.now →
        F.post precedes a b r → r ≡ record_before fields list.now a b }
    ensures { result ≡ first_not_ascending fields width list.now }
{
    for k in 1..list.len() / width {
        if !precedes((k - 1) * width, k * width) {
            return Some(k);
        }
    }
    None
}

// Whether the component at `a` comes strictly before the one at `b`: by x, y, z, id.
fn component_before(list: &[i64], a: usize, b: usize) -> bool
    requires { (a + 8 ≤ length list.now) × (b + 8 ≤ length list.now) }
    ensures { result ≡ record_before component_order list.now a b }
{
    (list[a + 1], list[a + 2], list[a + 3], list[a])
        < (list[b + 1], list[b + 2], list[b + 3], list[b])
}

// Whether the connection at `a` comes strictly before the one at `b`: by source, sink, kind.
fn connection_before(list: &[i64], a: usize, b: usize) -> bool
    requires { (a + 3 ≤ length list.now) × (b + 3 ≤ length list.now) }
    ensures { result ≡ record_before connection_order list.now a b }
{
    (list[a], list[a + 1], list[a + 2]) < (list[b], list[b + 1], list[b + 2])
}

// One each: a caller of `first_not_ascending` itself would have to name the order as a ghost value.
pub fn first_component_not_ascending(components: &[i64]) -> Option<usize>
    ensures { result ≡ first_not_ascending component_order component_width components.now }
{
    first_not_ascending(
        components,
        COMPONENT,
        |a, b| component_before(components, a, b),
    )
}

pub fn first_connection_not_ascending(connections: &[i64]) -> Option<usize>
    ensures { result ≡ first_not_ascending connection_order connection_width connections.now }
{
    first_not_ascending(
        connections,
        CONNECTION,
        |a, b| connection_before(connections, a, b),
    )
}
