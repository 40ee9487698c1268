// Whether a graph is one block.

ghost use Rattle.std.specs.Prelude.{◌≡◌, ◌<◌, ◌↔◌, ℕ, true, false, length, IfOk};
ghost use Rattle.multigraph.specs.Graph.{incident_edges};
ghost use Rattle.graph_theory.specs.Block.{IsOneBlock};

use crate::structure::split;
use multigraph::Graph;
use std::alloc::{AllocError, Global};

// Whether some vertex has no edges.
fn has_lone_vertex(g: &Graph) -> bool
    ensures lone { result ≡ true → (v : ℕ) × (v < g.now.vertex_count)
        × (length (incident_edges g.now v) ≡ 0) }
    ensures none { result ≡ false → (v : ℕ) → v < g.now.vertex_count
        → 0 < length (incident_edges g.now v) }
{
    for v in 0..g.vertex_count() {
        if g.degree(v) == 0 {
            return true;
        }
    }
    false
}

/// Whether the graph is one block: it has an edge, no vertex without edges, and all its edges are in the same block. Takes
/// linear time and room, as `split` does. Fails only if memory runs out.
/// For callers of the library: the program does not call it.
pub fn is_one_block(alloc: Global, g: &Graph) -> Result<bool, AllocError>
    ensures { IfOk result (λ answer. (answer ≡ true) ↔ IsOneBlock g.now) }
{
    if g.edge_count() == 0 || has_lone_vertex(g) {
        return Ok(false);
    }
    let found = split(alloc, g)?;
    Ok(found.block_count() == 1)
}
