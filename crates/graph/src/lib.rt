// Graphs as rows: where the row of each node ends, and the neighbours, row after row. The rows of a list of connections, forward and
// backward, the regions of a graph by the two walks of Kosaraju and Sharir, what a set of nodes reaches, and marks carried along the edges.
#![tactic(auto)]

pub mod build;
pub mod marks;
pub mod prepare;
pub mod walk;

ghost use Rattle.std.proofs.Props.{props};
ghost use Rattle.std.specs.Prelude.{◌≡◌, ◌≤◌, ◌<◌, length};
ghost use Rattle.graph.specs.Rows.{begin_of, row_of, edges_of, Rows};

// Where the row of each node ends, and the neighbours: those of a row rise. The graph is that which the rows stand for.
#[derive(Clone, Copy)]
pub struct Graph<'a> {
    pub ends: &'a [u16],
    pub next: &'a [u16],
    pub ghost rows: { Rows (length ends.now) (edges_of ends.now next.now) ends.now next.now } by { Prim.hlevel props },
}

// Where the row of a node begins: where the one before it ends.
pub fn begin_of(ends: &[u16], node: usize) -> usize
    requires { node ≤ length ends.now }
    ensures { result ≡ begin_of ends.now node }
{
    if 0 < node {
        return usize::from(ends[node - 1]);
    }
    0
}

impl<'a> Graph<'a> {
    // The neighbours of a node, by rising number; one may be there more than once.
    pub fn row(self, node: usize) -> &'a [u16]
        requires { node < length self.ends.now }
        ensures { result.now ≡ row_of self.entry.ends.now self.entry.next.now node }
    {
        let Graph { ends, next } = self;
        &next[begin_of(ends, node)..usize::from(ends[node])]
    }
}
