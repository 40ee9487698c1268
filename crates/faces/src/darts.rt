// Darts as pairs of the vertex that they leave and their edge, and their order.

ghost use Rattle.multigraph.specs.Darts.{dart_count, dart_from};
ghost use Rattle.faces.specs.Trace.{darts_in_order, pair_of};
ghost use Rattle.multigraph.specs.Graph.{IsGraph, IsWithinLimits, edge_count, incident_edges};
ghost use Rattle.std.specs.Prelude.{◌++◌, ◌<◌, ◌≡◌, IfOk, map, ◌*◌, ◌≤◌};

use multigraph::{Graph, dart_from, tail};
use std::alloc::{AllocError, Global};

// The vertex that a dart leaves, and its edge.
pub(crate) fn pair_of(graph: &Graph, dart: u32) -> (u32, u32)
    requires { dart < dart_count graph.now }
    ensures { result ≡ pair_of graph.now dart }
{
    (tail(graph, dart), dart / 2)
}

// All darts, in order of the vertex that they leave, then of their edge.
pub(crate) fn darts_in_order(alloc: Global, graph: &Graph) -> Result<Vec<u32>, AllocError>
    ensures order { IfOk result (λ darts. darts.items ≡ darts_in_order graph.now) }
    ensures graph { IsGraph graph.now }
    ensures limits { IsWithinLimits graph.now }
{
    let mut darts = Vec::with_capacity(alloc, 2 * graph.edge_count() as usize)?;
    for vertex in 0..graph.vertex_count() {
        push_darts(graph, vertex, &mut darts)?;
    }
    Ok(darts)
}

// Appends the darts that leave `vertex`, in order of their edges.
fn push_darts(graph: &Graph, vertex: u32, darts: &mut Vec<u32>) -> Result<(), AllocError>
    requires { vertex < graph.now.vertex_count }
    ensures { IfOk result (λ _. darts.new.items ≡ darts.old.items
        ++ map (dart_from graph.now vertex) (incident_edges graph.now vertex)) }
{
    for edge in graph.incident(vertex) {
        darts.push(dart_from(graph, vertex, *edge))?;
    }
    Ok(())
}
