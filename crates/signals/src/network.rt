// The nodes of a scene: the edges between them, and their regions.
ghost use Rattle.std.proofs.Props.{props};
ghost use Rattle.std.specs.Prelude.{◌≡◌, length};
ghost use Rattle.regions.specs.Graph.{flip};
ghost use Rattle.graph.specs.Rows.{Rows, edges_of};

use graph::Graph;

// The edges, the same turned round, and a label for each node.
#[derive(Clone, Copy)]
pub struct Network<'a> {
    pub forward: Graph<'a>,
    pub backward: Graph<'a>,
    pub labels: &'a [u16],
    pub ghost nodes: { length forward.ends.now ≡ length labels.now } by { Prim.hlevel props },
    pub ghost turned: { let edge = edges_of forward.ends.now forward.next.now in
        Rows (length labels.now) (flip edge) backward.ends.now backward.next.now } by { Prim.hlevel props },
}
