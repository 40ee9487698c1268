// The cyclic order of a vertex, from the steps of a rotation system.

ghost use Rattle.std.specs.Prelude.{◌≡◌, ◌<◌, ℕ, List, length, slice_index, IfOk};
ghost use Rattle.permutations.specs.Ring.{turns};
ghost use Rattle.rotations.specs.Rotation.{order_at};
ghost use Rattle.contract_obstruct.specs.Steps.{AreSteps, ArePlaneSteps};

use faces::dart_from;
use multigraph::Graph;
use std::alloc::{AllocError, Global};

// The edges of this many darts, from `start` on.
fn turns(alloc: Global, next: &[u32], start: u32, many: u32) -> Result<Vec<u32>, AllocError>
    requires start { start < length next.now }
    requires within { (d : ℕ) → d < length next.now → slice_index next.now d < length next.now }
    ensures { IfOk result (λ edges. edges.items ≡ turns next.now start many) }
{
    let mut edges = Vec::with_capacity(alloc, many as usize)?;
    let mut dart = start;
    for _turn in 0..many {
        edges.push(dart / 2)?;
        dart = next[dart as usize];
    }
    Ok(edges)
}

/// The cyclic order of vertex `v` in the rotation system with these steps. Fails only if memory runs out.
pub fn round(alloc: Global, g: &Graph, next: &[u32], v: u32) -> Result<Vec<u32>, AllocError>
    requires steps { ArePlaneSteps g.now next.now }
    requires vertex { v < g.now.vertex_count }
    ensures { IfOk result (λ edges. (s : List (List ℕ)) → AreSteps g.now s next.now
        → edges.items ≡ order_at s v) }
{
    let incident = g.incident(v);
    if incident.is_empty() {
        return Ok(Vec::new(alloc));
    }
    let edges = turns(alloc, next, dart_from(g, v, incident[0]), g.degree(v))?;
    Ok(edges)
}
