// Walks over rows: the regions of a graph, and what a set of nodes reaches. The calls of the recursive definition are a stack that the
// caller lends.
ghost use Rattle.std.specs.Prelude.{◌≡◌, ℕ, ◌+◌, ◌*◌, ◌<◌, ◌≤◌, length, get_or};
ghost use Rattle.lists.specs.Limits.{component_limit};
ghost use Rattle.regions.specs.Graph.{flip};
ghost use Rattle.regions.specs.Kosaraju as Kosaraju;
ghost use Rattle.regions.specs.Search.{fresh, Zeros, Searched, Ordered, Labelled, Regions, Reached};
ghost use Rattle.graph.specs.Rows.{Rows, edges_of};
ghost use Rattle.graph.specs.inner.Room.{narrow, Room};

use super::{Graph, begin_of};
use lists::COMPONENTS;

impl Graph<'_> {
    // Visits the nodes that `start` reaches over nodes that are not visited, and adds them to the order as they finish. Answers the new
    // length of the order. The open call is at a place of the row of `node`; the stack holds the same of each call below it.
    fn visit_from(
        self,
        start: usize,
        visited: &mut [bool],
        order: &mut [u16],
        count: usize,
        stack: &mut [usize],
    ) -> usize
        requires { let n = length self.ends.now in
            (start < n) × (count + fresh visited.old ≤ n) × Room n visited.old order.old stack.old }
        ensures { let n = length self.entry.ends.now in
            Searched n (edges_of self.entry.ends.now self.entry.next.now) start
            visited.old order.old count visited.new order.new result stack.new }
    {
        if visited[start] {
            return count;
        }
        let Graph { ends, next } = self;
        visited[start] = true;
        let mut node = start;
        let mut place = begin_of(ends, start);
        let mut depth: usize = 0;
        let mut done = count;
        // By hand: the stack grows and shrinks as the walk goes, no range says how. Its pairs lie flat: it is the slice that a caller
        // lends.
        loop {
            if place < usize::from(ends[node]) {
                let k = usize::from(next[place]);
                place += 1;
                if !visited[k] {
                    visited[k] = true;
                    stack[2 * depth] = node;
                    stack[2 * depth + 1] = place;
                    depth += 1;
                    node = k;
                    place = begin_of(ends, k);
                }
            } else {
                order[done] = node as u16;
                done += 1;
                if depth == 0 {
                    return done;
                }
                depth -= 1;
                node = stack[2 * depth];
                place = stack[2 * depth + 1];
                stack[2 * depth] = 0;
                stack[2 * depth + 1] = 0;
            }
        }
    }

    // The walk forward: the nodes, in the order in which they finish.
    pub fn finish_order(self, visited: &mut [bool], order: &mut [u16], stack: &mut [usize])
        requires { Room (length self.ends.now) visited.old order.old stack.old }
        ensures { let n = length self.entry.ends.now in
            Ordered n (edges_of self.entry.ends.now self.entry.next.now) order.old order.new stack.new }
    {
        visited.fill(false);
        let mut count = 0;
        for start in 0..visited.len() {
            if !visited[start] {
                count = self.visit_from(start, visited, order, count, stack);
            }
        }
    }

    // The region of `node`, if it has none yet: the nodes without a region that reach it get the number `count`, which is that of the
    // regions so far and no length. The edges are turned around. Answers the new number of regions.
    fn label_from(
        self,
        node: usize,
        visited: &mut [bool],
        labels: &mut [u16],
        count: usize,
        members: &mut [u16],
        stack: &mut [usize],
    ) -> usize
        requires { let n = length self.ends.now in
            (node < n) × (count < n) × (length labels.old ≡ n) × Room n visited.old members.old stack.old }
        ensures { let n = length self.entry.ends.now in
            Labelled n (flip (edges_of self.entry.ends.now self.entry.next.now)) node
            visited.old labels.old count visited.new labels.new result stack.new }
    {
        if visited[node] {
            return count;
        }
        let size = self.visit_from(node, visited, members, 0, stack);
        paint(labels, &members[..size], count as u16);
        count + 1
    }

    // The walk back: the regions of the nodes of the order, last finished first. The edges are turned around.
    fn label_all(
        self,
        order: &[u16],
        visited: &mut [bool],
        labels: &mut [u16],
        members: &mut [u16],
        stack: &mut [usize],
    ) -> usize
        requires { let n = length self.ends.now in
            (order.now ≡ Kosaraju.order n (flip (edges_of self.ends.now self.next.now)))
            × (length labels.old ≡ n) × Room n visited.old members.old stack.old }
        ensures { let n = length self.entry.ends.now in
            Regions n (flip (edges_of self.entry.ends.now self.entry.next.now)) labels.new result stack.new }
    {
        visited.fill(false);
        labels.fill(0);
        let mut count = 0;
        for node in order.iter().rev() {
            count = self.label_from(usize::from(*node), visited, labels, count, members, stack);
        }
        count
    }

    // Marks in `visited` what the marked starts reach, the starts among it. The order is scratch.
    pub fn reach_from(
        self,
        starts: &[bool],
        visited: &mut [bool],
        order: &mut [u16],
        stack: &mut [usize],
    )
        requires { let n = length self.ends.now in (length starts.now ≡ n) × Room n visited.old order.old stack.old }
        ensures { let n = length self.entry.ends.now in
            Reached n (edges_of self.entry.ends.now self.entry.next.now) starts.now visited.new stack.new }
    {
        visited.fill(false);
        let mut count = 0;
        for (node, is_start) in starts.iter().enumerate() {
            if *is_start {
                count = self.visit_from(node, visited, order, count, stack);
            }
        }
    }
}

// Stores r at each of the members.
#[tactic(auto, using(regions::proofs::Label::paint_more), unfolding(regions::specs::Kosaraju::paint, regions::specs::Graph::each))]
fn paint(labels: &mut [u16], members: &[u16], r: u16)
    requires { (i : ℕ) → i < length members.now → get_or members.now i 0 < length labels.old }
    ensures { labels.new ≡ Kosaraju.paint r members.now labels.old }
{
    for member in members {
        labels[usize::from(*member)] = r;
    }
}

// The number of regions; `labels` gets the number of each node's. The two graphs have the edges, and the edges turned around.
pub fn regions(forward: Graph, backward: Graph, labels: &mut [u16], stack: &mut [usize]) -> usize
    requires turned { let n = length forward.ends.now in
        Rows n (flip (edges_of forward.ends.now forward.next.now)) backward.ends.now backward.next.now }
    requires nodes { let n = length forward.ends.now in (n ≤ component_limit) × (length labels.old ≡ n) }
    requires lent { (2 * length forward.ends.now ≤ length stack.old) × Zeros stack.old }
    ensures { let n = length forward.entry.ends.now in
        Regions n (edges_of forward.entry.ends.now forward.entry.next.now) labels.new result stack.new }
{
    let n = labels.len();
    let mut flags = [false; COMPONENTS];
    let mut order = [0u16; COMPONENTS];
    let mut members = [0u16; COMPONENTS];
    let visited = &mut flags[..n];
    forward.finish_order(visited, &mut order, stack);
    backward.label_all(&order[..n], visited, labels, &mut members, stack)
}
