// A search along the edges of a graph from some nodes, which stops at the first goal. The calls of the recursive definition are a stack that the
// caller lends.
ghost use Rattle.std.specs.Prelude.{◌≡◌, ◌<◌, length};
ghost use Rattle.graph.specs.Rows.{edges_of};
ghost use Rattle.driven.specs.Search.{SeekRoom, SeeksFrom, Seeks};

use graph::{Graph, begin_of};

// Meets the nodes that `start` leads to over nodes that are not met, each one's own neighbours before the next, up to the first goal; answers
// whether it met one. The open call is at a place of the row of `node`; the stack holds the same of each call below it.
// The loop is by hand, as in `visit_from` of crate `graph`: the stack grows and shrinks as the search goes.
fn seek_from(
    graph: Graph,
    start: usize,
    goals: &[bool],
    met: &mut [bool],
    stack: &mut [usize],
) -> bool
    requires { let n = length graph.ends.now in (start < n) × SeekRoom n goals.now met.old stack.old }
    ensures { let n = length graph.entry.ends.now in
        SeeksFrom n (edges_of graph.entry.ends.now graph.entry.next.now) goals.now start met.old met.new result stack.new }
{
    if met[start] {
        return false;
    }
    met[start] = true;
    if goals[start] {
        return true;
    }
    let Graph { ends, next } = graph;
    let mut node = start;
    let mut place = begin_of(ends, start);
    let mut depth: usize = 0;
    loop {
        if place < usize::from(ends[node]) {
            let k = usize::from(next[place]);
            place += 1;
            if !met[k] {
                met[k] = true;
                if goals[k] {
                    stack.fill(0);
                    return true;
                }
                stack[2 * depth] = node;
                stack[2 * depth + 1] = place;
                depth += 1;
                node = k;
                place = begin_of(ends, k);
            }
        } else {
            if depth == 0 {
                return false;
            }
            depth -= 1;
            node = stack[2 * depth];
            place = stack[2 * depth + 1];
            stack[2 * depth] = 0;
            stack[2 * depth + 1] = 0;
        }
    }
}

// Meets what the marked starts lead to, by rising start, up to the first goal; answers whether it met one.
pub fn seek_all(
    graph: Graph,
    starts: &[bool],
    goals: &[bool],
    met: &mut [bool],
    stack: &mut [usize],
) -> bool
    requires { let n = length graph.ends.now in (length starts.now ≡ n) × SeekRoom n goals.now met.old stack.old }
    ensures { let n = length graph.entry.ends.now in
        Seeks n (edges_of graph.entry.ends.now graph.entry.next.now) goals.now starts.now met.new result stack.new }
{
    met.fill(false);
    for (start, is_start) in starts.iter().enumerate() {
        if *is_start && seek_from(graph, start, goals, met, stack) {
            return true;
        }
    }
    false
}
