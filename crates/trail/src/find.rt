// The best trail of a graph: from the least drive source of the least level, down level by level, each time to the least node.
ghost use Rattle.std.specs.Prelude.{ℕ, true, ◌≡◌, ◌<◌, ◌≤◌, suc, length, take, MatchOption};
ghost use Rattle.lists.specs.Limits.{component_limit};
ghost use Rattle.regions.specs.Graph.{at, marked};
ghost use Rattle.graph.specs.Rows.{edges_of};
ghost use Rattle.trail.specs.Trail.{BestTrail, NoTrail};
ghost use Rattle.trail.specs.Levels.{StartAt, StepDown};
ghost use Rattle.trail.specs.Ways.{WalkRoom, WalkedDown, FindRoom};

use super::levels::level_all;
use graph::Graph;

// The least drive source among those of the least level; none where no drive source has a level.
fn start_of(drives: &[bool], levels: &[u16]) -> Option<usize>
    requires { let n = length drives.now in (length levels.now ≡ n) × (n ≤ component_limit) × ((x : ℕ) → at levels.now x ≤ n) }
    ensures { MatchOption result ((z : ℕ) → marked drives.now z ≡ true → at levels.now z ≡ 0)
        (StartAt (marked drives.now) levels.now) }
{
    let mut start = None;
    let mut least = drives.len() as u16 + 1;
    for (x, is_drive) in drives.iter().enumerate() {
        if *is_drive && 0 < levels[x] && levels[x] < least {
            start = Some(x);
            least = levels[x];
        }
    }
    start
}

// The least node one level lower to which an edge leads from `node`, which some edge does.
fn step_down(graph: Graph, node: usize, levels: &[u16]) -> usize
    requires { let n = length graph.ends.now in (length levels.now ≡ n) × (node < n)
        × ((y : ℕ) × (edges_of graph.ends.now graph.next.now node y ≡ true) × (at levels.now node ≡ suc (at levels.now y))) }
    ensures { StepDown (edges_of graph.entry.ends.now graph.entry.next.now) levels.now node result }
{
    let lower = levels[node] - 1;
    for neighbour in graph.row(node) {
        let next = usize::from(*neighbour);
        if levels[next] == lower {
            return next;
        }
    }
    unreachable!()
}

// Writes the way from `start` down the levels to the front of `way`.
fn walk_down(graph: Graph, start: usize, levels: &[u16], way: &mut [u16])
    requires { let n = length graph.ends.now in (n ≤ component_limit)
        × WalkRoom n (edges_of graph.ends.now graph.next.now) levels.now start way.old }
    ensures { WalkedDown (edges_of graph.entry.ends.now graph.entry.next.now) levels.now start way.new }
{
    let mut node = start;
    way[0] = start as u16;
    for i in 1..usize::from(levels[start]) {
        node = step_down(graph, node, levels);
        way[i] = node as u16;
    }
}

// Writes the best trail to the front of `way`, and answers how many nodes it has; none where there is no trail. The two graphs have the
// edges, and the edges turned around. The queue of the search stands in `way` before.
pub(crate) fn find_way(
    forward: Graph,
    backward: Graph,
    drives: &[bool],
    feeds: &[bool],
    levels: &mut [u16],
    way: &mut [u16],
) -> Option<usize>
    requires { let n = length forward.ends.now in let edge = edges_of forward.ends.now forward.next.now in
        FindRoom n edge backward.ends.now backward.next.now drives.now feeds.now levels.old way.old }
    ensures { let n = length forward.entry.ends.now in let edge = edges_of forward.entry.ends.now forward.entry.next.now in
        let drive = marked drives.now in let feed = marked feeds.now in
        MatchOption result (NoTrail drive edge feed) (λ count. (count ≤ n) × BestTrail drive edge feed (take count way.new)) }
{
    level_all(backward, feeds, levels, way);
    let start = start_of(drives, levels)?;
    walk_down(forward, start, levels, way);
    Some(usize::from(levels[start]))
}
