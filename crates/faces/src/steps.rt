// The face step of each dart.
ghost use Rattle.faces.specs.Euler.{dart_from};
ghost use Rattle.faces.specs.Steps.{AreFaceSteps};
ghost use Rattle.multigraph.specs.Graph.{IsGraph, edge_count, is_end};
ghost use Rattle.permutations.specs.Cyclic.{successor};
ghost use Rattle.rotations.specs.Rotation.{IsRotationSystem, order_at};
ghost use Rattle.std.specs.Prelude.{◌<◌, ◌≡◌, IfOk, IsTrue};

use multigraph::{Graph, dart_from};
use rotations::Rotation;
use std::alloc::{AllocError, Global};

// The dart by which a face that arrives at `vertex` by `edge` continues.
fn dart_onward(graph: &Graph, rotation: &Rotation, vertex: u32, edge: u32) -> u32
    requires graph { IsGraph graph.now }
    requires system { IsRotationSystem graph.now rotation.now }
    requires edge_in { edge < edge_count graph.now }
    requires end { IsTrue (is_end graph.now vertex edge) }
    ensures { result ≡ dart_from graph.now vertex (successor (order_at rotation.now vertex) edge) }
{
    dart_from(graph, vertex, rotation.succ(vertex, edge))
}

/// For each dart the next one of its face in the rotation system `rotation` of the graph: that by which the face continues from the
/// vertex at which the dart ends. In linear time. Fails only if memory runs out.
pub fn face_steps(alloc: Global, graph: &Graph, rotation: &Rotation) -> Result<Vec<u32>, AllocError>
    requires { IsRotationSystem graph.now rotation.now }
    ensures { IfOk result (λ steps. AreFaceSteps graph.now rotation.now steps.items) }
{
    let edges = graph.edge_count();
    let mut steps = Vec::with_capacity(alloc, 2 * edges as usize)?;
    for edge in 0..edges {
        let (first, second) = graph.ends(edge);
        steps.push(dart_onward(graph, rotation, second, edge))?;
        steps.push(dart_onward(graph, rotation, first, edge))?;
    }
    Ok(steps)
}
