// Obstacles of what is left of a triconnected graph without one edge.

ghost use Rattle.std.specs.Prelude.{◌≡◌, ◌<◌, ℕ, IfOk, MatchOption};
ghost use Rattle.multigraph.specs.Graph.{edge_count};
ghost use Rattle.graph_theory.specs.Triconnected.{IsTriconnected};
ghost use Rattle.minimal_graphs.specs.Whole.{all_but};
ghost use Rattle.minimal_graphs.specs.Laws.{IsPlaneWithout};
ghost use Rattle.path_embed.specs.Found.{IsSmaller};

use crate::deciding::{Obstacle, obstacle_in};
use multigraph::Graph;
use std::alloc::{AllocError, Global};

// The edges of a graph of so many but one.
fn others_than(alloc: Global, count: u32, edge: u32) -> Result<Vec<u32>, AllocError>
    ensures { IfOk result (λ edges. edges.items ≡ all_but count edge) }
{
    let mut edges = Vec::new(alloc);
    for e in 0..count {
        if e != edge {
            edges.push(e)?;
        }
    }
    Ok(edges)
}

// An obstacle of the part without this edge, which is one block. It has fewer edges.
fn obstacle_without(alloc: Global, g: &Graph, edge: u32) -> Result<Option<Obstacle>, AllocError>
    requires triconnected { IsTriconnected g.now }
    requires edge { edge < edge_count g.now }
    ensures { IfOk result (λ answer. MatchOption answer (IsPlaneWithout g.now edge)
        (IsSmaller g.now)) }
{
    g.keeps_limits();
    let edges = others_than(alloc, g.edge_count(), edge)?;
    let part = g.part(alloc, &edges)?;
    let answer = obstacle_in(alloc, g, part)?;
    Ok(answer)
}

// An obstacle of the part without one of the edges, for the first edge for which there is one.
pub(crate) fn smaller_obstacle(alloc: Global, g: &Graph) -> Result<Option<Obstacle>, AllocError>
    requires { IsTriconnected g.now }
    ensures { IfOk result (λ answer. MatchOption answer
        ((e : ℕ) → e < edge_count g.now → IsPlaneWithout g.now e) (IsSmaller g.now)) }
{
    for e in 0..g.edge_count() {
        let answer = obstacle_without(alloc, g, e)?;
        match answer {
            Some(found) => return Ok(Some(found)),
            None => {}
        }
    }
    Ok(None)
}
