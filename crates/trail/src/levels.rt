// The levels of the nodes of a graph, found from the nodes that feed the port on, against the edges, in a queue.
ghost use Rattle.std.specs.Prelude.{ℕ, Bool, suc, ◌≡◌, ◌<◌, ◌≤◌, length};
ghost use Rattle.lists.specs.Limits.{component_limit};
ghost use Rattle.regions.specs.Graph.{flip, at, marked};
ghost use Rattle.graph.specs.Rows.{edges_of};
ghost use Rattle.trail.specs.Levels.{Levels};
ghost use Rattle.trail.specs.Waves.{LevelRoom, Noted, Seeded, Wave};

use graph::Graph;

// Gives the node the level and puts it into the queue, where it has none. Answers the new length of the queue.
fn note(levels: &mut [u16], queue: &mut [u16], tail: usize, node: u16, level: u16) -> usize
    requires { (node < length levels.old) × (at levels.old node ≡ 0 → tail < length queue.old) }
    ensures { Noted node level levels.old queue.old tail levels.new queue.new result }
{
    let at = usize::from(node);
    if 0 < levels[at] {
        return tail;
    }
    levels[at] = level;
    queue[tail] = node;
    tail + 1
}

// Gives the nodes that feed the port level 1, and the others none. Answers the length of the queue.
fn seed(feeds: &[bool], levels: &mut [u16], queue: &mut [u16]) -> usize
    requires { (length levels.old ≡ length feeds.now) × (length feeds.now ≤ length queue.old) × (length feeds.now ≤ component_limit) }
    ensures { Seeded feeds.now (length feeds.now) levels.new queue.new result }
{
    levels.fill(0);
    let mut tail = 0;
    for (x, is_feeder) in feeds.iter().enumerate() {
        if *is_feeder {
            tail = note(levels, queue, tail, x as u16, 1);
        }
    }
    tail
}

// Gives the nodes to which the graph leads from the one at the head of the queue the next level, where they have none. Answers the new
// length of the queue.
fn spread(graph: Graph, head: usize, levels: &mut [u16], queue: &mut [u16], tail: usize) -> usize
    requires { let n = length graph.ends.now in (n ≤ component_limit) × (head < tail)
        × ((feeds : ℕ → Bool) × Wave n (flip (edges_of graph.ends.now graph.next.now)) feeds levels.old queue.old head tail) }
    ensures { let n = length graph.entry.ends.now in let edge = flip (edges_of graph.entry.ends.now graph.entry.next.now) in
        (feeds : ℕ → Bool) → Wave n edge feeds levels.old queue.old head tail → Wave n edge feeds levels.new queue.new (suc head) result }
{
    let node = usize::from(queue[head]);
    let level = levels[node] + 1;
    let mut count = tail;
    for neighbour in graph.row(node) {
        count = note(levels, queue, count, *neighbour, level);
    }
    count
}

// Finds the level of each node, given the graph turned around and the nodes that feed the port.
pub(crate) fn level_all(backward: Graph, feeds: &[bool], levels: &mut [u16], queue: &mut [u16])
    requires { LevelRoom (length backward.ends.now) feeds.now levels.old queue.old }
    ensures { let n = length backward.entry.ends.now in
        Levels n (flip (edges_of backward.entry.ends.now backward.entry.next.now)) (marked feeds.now) levels.new }
{
    let mut tail = seed(feeds, levels, queue);
    let mut head = 0;
    // By hand: the queue grows as the search goes.
    while head < tail {
        tail = spread(backward, head, levels, queue, tail);
        head += 1;
    }
}
