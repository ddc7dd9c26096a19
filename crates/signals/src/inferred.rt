// Inferred inputs: wires at the edge of a region that nothing drives or feeds.
ghost use Rattle.std.specs.Prelude.{◌≡◌, Bool, not, ◌&&◌, ◌||◌, ℕ, ◌≤◌, ◌<◌, eqb, length, get_or};
ghost use Rattle.tables.specs.Order.{member};
ghost use Rattle.lists.specs.Records.{component, component_count};
ghost use Rattle.regions.specs.Graph.{marked};
ghost use Rattle.graph.specs.Rows.{edges_of};
ghost use Rattle.signals.specs.Regions.{wire, is_passive};
ghost use Rattle.signals.specs.Flags.{Flags, Indices};
ghost use Rattle.signals.specs.Seen.{SeenOf, Joined, Led, few_near};

use super::network::Network;
use graph::Graph;
use lists::kinds::BlockKind;
use lists::rules::lamps_pass;
use lists::views::ComponentList;

// A component's number is compared with the kind's own: to turn it into a kind for one test is longer.
const WIRE: u64 = BlockKind::RedstoneWire as u64;

// The distinct neighbours seen so far.
#[derive(Clone, Copy)]
pub enum Seen {
    None,
    One(usize),
    Many,
}

// With neighbour j seen too.
fn see(seen: Seen, j: usize) -> Seen
    ensures { (n : ℕ) (test : ℕ → Bool) → j < n → SeenOf n test seen → SeenOf n (λ i. test i || eqb j i) result }
{
    match seen {
        Seen::None => Seen::One(j),
        Seen::One(i) => { if i == j { Seen::One(i) } else { Seen::Many } }
        Seen::Many => Seen::Many,
    }
}

// With the neighbours in a row seen too, those that have the label of m.
fn see_row(row: &[u16], labels: &[u16], m: usize, seen: Seen) -> Seen
    requires { (m < length labels.now) × Indices (length row.now) (length labels.now) row.now }
    ensures { (test : ℕ → Bool) → SeenOf (length labels.now) test seen →
        SeenOf (length labels.now) (λ j. test j || (eqb (get_or labels.now j 0) (get_or labels.now m 0) && member j row.now)) result }
{
    let mut found = seen;
    for neighbour in row {
        let j = usize::from(*neighbour);
        if labels[j] == labels[m] {
            found = see(found, j);
        }
    }
    found
}

// Whether m has at most one distinct neighbour in its region, either way along the edges.
fn few_neighbours(network: &Network, m: usize) -> bool
    requires { m < length network.now.labels.now }
    ensures { let t = network.now in result ≡ few_near (edges_of t.forward.ends.now t.forward.next.now) t.labels.now m }
{
    let first = see_row(network.forward.row(m), network.labels, m, Seen::None);
    let both = see_row(network.backward.row(m), network.labels, m, first);
    !matches!(both, Seen::Many)
}

// Whether what a component of a kind hands on to a wire is left uncounted: Solid and Transparent, and from rules 2 on lamps.
fn is_passive(rules: u64, kind: u64) -> bool
    ensures { result ≡ is_passive rules kind }
{
    match BlockKind::try_from(kind) {
        Ok(BlockKind::Solid | BlockKind::Transparent) => true,
        Ok(BlockKind::RedstoneLamp) => lamps_pass(rules),
        _ => false,
    }
}

// Flags the passive components, by list place.
pub fn passive_flags(components: ComponentList, rules: u64, flags: &mut [bool])
    requires { component_count components.numbers.now ≤ length flags.old }
    ensures { let cs = components.entry.numbers.now in Flags (component_count cs) (λ p. is_passive rules (component cs p).kind) flags.new }
{
    for p in 0..components.count() {
        flags[p] = is_passive(rules, components.kind(p));
    }
}

// Flags the labels of those nodes of a row that are not labelled as x, where x counts: an edge of x leads into their regions. There is no
// branch on a label.
fn flag_others(row: &[u16], labels: &[u16], x: usize, counts: bool, fed: &mut [bool])
    requires inside { (x < length labels.now) × Indices (length row.now) (length labels.now) row.now }
    requires indices { Indices (length labels.now) (length fed.old) labels.now }
    ensures { Joined row.now labels.now (λ y. counts && not (eqb (get_or labels.now x 0) (get_or labels.now y 0))) fed.old fed.new }
{
    for neighbour in row {
        let to = labels[usize::from(*neighbour)];
        fed[usize::from(to)] |= counts & (labels[x] != to);
    }
}

// Flags the regions with an edge from another region's node that is not passive.
pub fn flag_outside(graph: Graph, labels: &[u16], passive: &[bool], fed: &mut [bool])
    requires nodes { (length graph.ends.now ≡ length labels.now) × (length labels.now ≤ length passive.now) }
    requires indices { Indices (length labels.now) (length fed.old) labels.now }
    ensures { Led (edges_of graph.entry.ends.now graph.entry.next.now) (λ a b.
        not (marked passive.now a) && not (eqb (get_or labels.now a 0) (get_or labels.now b 0))) labels.now fed.new }
{
    fed.fill(false);
    for x in 0..labels.len() {
        flag_others(graph.row(x), labels, x, !passive[x], fed);
    }
}

// Whether component p, member m, is an inferred input, given whether its region has a drive source or is fed from outside.
pub fn is_inferred(
    components: ComponentList,
    p: usize,
    quiet: bool,
    network: &Network,
    m: usize,
) -> bool
    requires { (p < component_count components.numbers.now) × (m < length network.now.labels.now) }
    ensures { result ≡ (eqb (component components.entry.numbers.now p).kind wire
        && (quiet && few_near (edges_of network.now.forward.ends.now network.now.forward.next.now) network.now.labels.now m)) }
{
    (components.kind(p) == WIRE) & quiet && few_neighbours(network, m)
}
