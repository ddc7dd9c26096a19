// A region has a ring exactly if it has at least as many joined pairs as members; so one pass over the edges tells.
ghost use Rattle.std.specs.Prelude.{◌≡◌, ◌+◌, ◌≤◌, ◌<◌, suc, eqb, leb, length, get_or};
ghost use Rattle.sets.specs.Members.{count_below};
ghost use Rattle.tables.specs.Order.{Ascending};
ghost use Rattle.lists.specs.Limits.{component_limit};
ghost use Rattle.regions.specs.Graph.{at};
ghost use Rattle.graph.specs.Rows.{edges_of};
ghost use Rattle.signals.specs.Flags.{Flags, Indices};
ghost use Rattle.rings.specs.Counts.{is_seen, SeenUpTo, RowSeen, near_either, near_in, JoinsCounted};
ghost use Rattle.rings.specs.Rings.{join_count};

use lists::COMPONENTS;
use signals::flags::count_into;
use signals::network::Network;

// Marks the nodes of a row up to b, b itself included, that have b's label; answers how many are marked with those that were.
fn count_row(row: &[u16], labels: &[u16], b: usize, seen: &mut [usize], count: usize) -> usize
    requires row { Ascending row.now × Indices (length row.now) (length labels.now) row.now × (b < length labels.now) }
    requires seen_room { (length labels.now ≤ length seen.old) × (length labels.now ≤ component_limit) }
    requires counted { SeenUpTo (b + 1) seen.old × (count ≡ count_below (is_seen seen.old b) (suc b)) }
    ensures { RowSeen labels.now row.now b seen.old seen.new result }
{
    let mut found = count;
    for neighbour in row {
        let a = usize::from(*neighbour);
        if b < a {
            return found;
        }
        if labels[a] == labels[b] && seen[a] != b + 1 {
            seen[a] = b + 1;
            found += 1;
        }
    }
    found
}

// How many nodes up to b an edge joins to it, in either direction, within its region.
fn count_near(network: &Network, b: usize, seen: &mut [usize]) -> usize
    requires inside { (b < length network.now.labels.now) × (length network.now.labels.now ≤ component_limit) }
    requires seen_room { (length network.now.labels.now ≤ length seen.old) × SeenUpTo b seen.old }
    ensures count { let t = network.now in
        result ≡ count_below (λ a. near_either (edges_of t.forward.ends.now t.forward.next.now) t.labels.now a b) (suc b) }
    ensures marks { SeenUpTo (b + 1) seen.new }
{
    let labels = network.labels;
    let onward = count_row(network.forward.row(b), labels, b, seen, 0);
    count_row(network.backward.row(b), labels, b, seen, onward)
}

// How many joined pairs each region has.
fn count_joins(network: &Network, joins: &mut [usize])
    requires { let t = network.now in
        Indices (length t.labels.now) (length joins.old) t.labels.now × (length t.labels.now ≤ component_limit) }
    ensures { let t = network.now in
        JoinsCounted (edges_of t.forward.ends.now t.forward.next.now) t.labels.now (length t.labels.now) joins.new }
{
    let mut seen = [0usize; COMPONENTS];
    joins.fill(0);
    for b in 0..network.labels.len() {
        joins[usize::from(network.labels[b])] += count_near(network, b, &mut seen);
    }
}

// Flags the numbers of the one list that are at most those of the other.
fn flag_enough(sizes: &[usize], joins: &[usize], flags: &mut [bool])
    requires { (length flags.old ≤ length sizes.now) × (length flags.old ≤ length joins.now) }
    ensures { Flags (length flags.old) (λ r. leb (get_or sizes.now r 0) (get_or joins.now r 0)) flags.new }
{
    for (r, flag) in flags.iter_mut().enumerate() {
        *flag = sizes[r] <= joins[r];
    }
}

// Flags the regions with at least as many joined pairs as members.
pub fn flag_rings(network: &Network, flags: &mut [bool])
    requires { let t = network.now in Indices (length t.labels.now) (length flags.old) t.labels.now
        × ((length t.labels.now ≤ component_limit) × (length flags.old ≤ component_limit)) }
    ensures { let t = network.now in Flags (length flags.old) (λ r.
        leb (count_below (λ m. eqb (at t.labels.now m) r) (length t.labels.now))
        (join_count (near_in (edges_of t.forward.ends.now t.forward.next.now) t.labels.now r) (length t.labels.now))) flags.new }
{
    let count = flags.len();
    let mut size_at = [0usize; COMPONENTS];
    let mut joins_at = [0usize; COMPONENTS];
    let sizes = &mut size_at[..count];
    let joins = &mut joins_at[..count];
    count_into(network.labels, sizes);
    count_joins(network, joins);
    flag_enough(sizes, joins, flags);
}
