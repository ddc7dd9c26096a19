// The places of each connection's ends are looked up once, and joined in both forests. Each id's place is settled before, in a table: of a
// scene these functions are handed that table and the connections, and nothing else.
ghost use Rattle.std.specs.Prelude.{Option, Some};
ghost use Rattle.std.specs.Prelude.{◌≡◌, cond, ℕ, List, ◌≤◌, ◌<◌, leb, length, ℤ};
ghost use Rattle.lists.specs.Limits.{component_limit};
ghost use Rattle.lists.specs.Places.{PlacesOfIds, IsPlacesOfIds};
ghost use Rattle.circuit.specs.Forest.{singletons, unite_all};
ghost use Rattle.circuit.specs.Topology.{GroupedBy, join_of, forest_of, net_kinds, fragment_kinds};
ghost use Rattle.circuit.specs.Within.{RootsShared};

use super::Counts;
use super::ends::{end_place, hint_ends};
use super::forest::UnionFind;
use lists::hints::SLOTS;
use lists::kinds::ConnectionKind;
use lists::views::ConnectionList;

// Nets use the kinds up to this one, and fragments up to the next; in the order of their numbers, as the paper has it.
const NET_KINDS: u64 = ConnectionKind::StrongPower as u64;

const FRAGMENT_KINDS: u64 = ConnectionKind::Control as u64;

// The sink, or where the connection does not count the source: joined with itself it changes nothing. Kinds come in no order
// that a processor could foresee, and so there is no branch on them where the ends are of one net.
fn sink_or_source(counts: bool, source: usize, sink: usize) -> usize
    ensures { result ≡ cond counts sink source }
{
    if counts { sink } else { source }
}

// Joins the ends of a connection where its kind counts, in the forest of nets and in that of fragments. Ends of one net are of one
// fragment already.
fn join_ends(kind: u64, source: usize, sink: usize, nets: &mut UnionFind, fragments: &mut UnionFind)
    requires places { (source < component_limit) × (sink < component_limit) }
    requires shared { RootsShared nets.old fragments.old }
    ensures nets { nets.new ≡ unite_all nets.old (join_of (leb kind net_kinds) (Some source) (Some sink)) }
    ensures fragments { fragments.new ≡ unite_all fragments.old (join_of (leb kind fragment_kinds) (Some source) (Some sink)) }
{
    let other = sink_or_source(kind <= FRAGMENT_KINDS, source, sink);
    let l = nets.root(source);
    let r = nets.root(other);
    if l != r {
        if kind <= NET_KINDS {
            nets.union_roots(l, r);
        }
        fragments.union(source, other);
    }
}

// Joins what a connection joins: nothing where an end is no component.
fn join_both(
    kind: u64,
    source: Option<usize>,
    sink: Option<usize>,
    nets: &mut UnionFind,
    fragments: &mut UnionFind,
)
    requires source { (p : ℕ) → source ≡ Some p → p < component_limit }
    requires sink { (p : ℕ) → sink ≡ Some p → p < component_limit }
    requires shared { RootsShared nets.old fragments.old }
    ensures nets { nets.new ≡ unite_all nets.old (join_of (leb kind net_kinds) source sink) }
    ensures fragments { fragments.new ≡ unite_all fragments.old (join_of (leb kind fragment_kinds) source sink) }
{
    if let Some(a) = source {
        if let Some(b) = sink {
            join_ends(kind, a, b, nets, fragments);
        }
    }
}

// Joins the ends of each connection, in order. Each end is looked up once, by hints that are made of the table alone.
fn join_all(
    keys: &[u64],
    connections: ConnectionList,
    nets: &mut UnionFind,
    fragments: &mut UnionFind,
)
    requires places { IsPlacesOfIds keys.now × (length keys.now ≤ component_limit) }
    requires start { (nets.old ≡ singletons) × (fragments.old ≡ singletons) }
    ensures nets { (cs : List ℤ) → PlacesOfIds cs keys.now → nets.new ≡ forest_of cs connections.entry.numbers.now net_kinds }
    ensures fragments { (cs : List ℤ) → PlacesOfIds cs keys.now →
        fragments.new ≡ forest_of cs connections.entry.numbers.now fragment_kinds }
{
    let mut hints = [[0u16; 2]; SLOTS];
    hint_ends(keys, &mut hints);
    for k in 0..connections.count() {
        let source = end_place(keys, &hints, connections.source(k));
        let sink = end_place(keys, &hints, connections.sink(k));
        join_both(connections.kind(k), source, sink, nets, fragments);
    }
}

// The nets and fragments of every accepted scene whose places of ids are `keys`.
pub fn group(
    keys: &[u64],
    connections: ConnectionList,
    nets: &mut [u64],
    fragments: &mut [u64],
) -> Counts
    requires places { IsPlacesOfIds keys.now }
    requires keys_len_bound { (length keys.now ≤ component_limit)
        × ((length keys.now ≤ length nets.old) × (length keys.now ≤ length fragments.old)) }
    ensures { (cs : List ℤ) → PlacesOfIds cs keys.now →
        GroupedBy cs connections.entry.numbers.now nets.old nets.new fragments.old fragments.new result }
{
    let n = keys.len();
    let mut net_forest = UnionFind::new();
    let mut fragment_forest = UnionFind::new();
    join_all(keys, connections, &mut net_forest, &mut fragment_forest);
    Counts {
        nets: net_forest.number_groups(&mut nets[..n]),
        fragments: fragment_forest.number_groups(&mut fragments[..n]),
    }
}
