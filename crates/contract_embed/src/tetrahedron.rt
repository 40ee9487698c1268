// The plane rotation system of a triconnected graph with four vertices: one vertex inside the triangle of the others.

ghost use Rattle.std.specs.Prelude.{◌≡◌, ◌<◌, IfOk};
ghost use Rattle.graph_theory.specs.Triconnected.{IsTriconnected};
ghost use Rattle.contract_obstruct.specs.Steps.{ArePlaneSteps};
ghost use Rattle.contract_embed.specs.Tetrahedron.{turn};

use crate::darts::first_dart;
use faces::{dart_count, head, tail};
use multigraph::Graph;
use std::alloc::{AllocError, Global};

// For each two vertices the neighbour of the first that follows the second.
const TURNS: [u32; 16] = [0, 2, 3, 1, 3, 1, 0, 2, 1, 3, 2, 0, 2, 0, 1, 3];

// The neighbour of `from` that follows `to`.
fn turn(from: u32, to: u32) -> u32
    requires first { from < 4 }
    requires second { to < 4 }
    ensures { result ≡ turn from to }
{
    TURNS[(4 * from + to) as usize]
}

// The steps of the plane rotation system.
pub(crate) fn tetrahedron_steps(alloc: Global, g: &Graph) -> Result<Vec<u32>, AllocError>
    requires triconnected { IsTriconnected g.now }
    requires four { g.now.vertex_count ≡ 4 }
    ensures { IfOk result (λ next. ArePlaneSteps g.now next.items) }
{
    let mut next = Vec::new(alloc);
    for dart in 0..dart_count(g) {
        let from = tail(g, dart);
        next.push(first_dart(g, from, turn(from, head(g, dart))))?;
    }
    Ok(next)
}
