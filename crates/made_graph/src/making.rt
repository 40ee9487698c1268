// The graph that is made.
ghost use Rattle.std.specs.Prelude.{◌≡◌, ◌≤◌, IfOk};
ghost use Rattle.made_graph.specs.Made.{made, max_asked};

use crate::drawing::{drawn, edge_drawn, operation_drawn};
use crate::growing::grow;
use multigraph::Graph;
use std::alloc::{AllocError, Global};

// The ends of the edges of the complete graph on four vertices.
const TETRAHEDRON: [(u32, u32); 6] = [(0, 1), (0, 2), (0, 3), (1, 2), (1, 3), (2, 3)];

/// The graph that is made from the number `seed`, of `n` edges or up to four more: the complete graph on four vertices, grown
/// turn by turn, where a first draw picks an edge and a second one of four operations on it; the draws are those of a linear
/// congruential generator (Lehmer 1951). Fails only if memory runs out.
pub fn make_graph(alloc: Global, n: u32, seed: u64) -> Result<Graph, AllocError>
    requires least { 6 ≤ n }
    requires most { n ≤ max_asked }
    ensures { IfOk result (λ graph. graph ≡ made n seed) }
{
    let mut ends = Vec::with_capacity(alloc, n as usize + 4)?;
    ends.extend_from_slice(&TETRAHEDRON)?;
    let mut vertices = 4;
    let mut x = seed;
    while ends.len() < n as usize {
        let first = drawn(x);
        x = drawn(first);
        let edge = edge_drawn(first, ends.len() as u32);
        vertices = grow(&mut ends, vertices, edge, operation_drawn(x))?;
    }
    Graph::of_ends(alloc, vertices, ends)
}
