// Darts: edges as they leave one of their ends. Dart 2e leaves the first end of edge e, and dart 2e + 1 the second.

ghost use Rattle.std.specs.Prelude.{◌≡◌, ◌*◌, ◌<◌, ◌≤◌, ℕ};
ghost use Rattle.multigraph.specs.Darts.{dart_count, dart_from, tail, twin};
ghost use Rattle.multigraph.specs.Graph.{IsGraph, edge_count, max_darts};

use crate::structure::Graph;

/// How many darts the graph has: at most 100,000.
pub fn dart_count(graph: &Graph) -> u32
    ensures value { result ≡ dart_count graph.now }
    ensures few { result ≤ max_darts }
    ensures graph { IsGraph graph.now }
{
    2 * graph.edge_count()
}

/// The other dart of the same edge.
#[tactic(auto, unfolding(crate::specs::Darts::twin))]
pub fn twin(dart: u32) -> u32
    ensures is { result ≡ twin dart }
    ensures within { (m : ℕ) → dart < 2 * m → result < 2 * m }
{
    if dart % 2 == 0 { dart + 1 } else { dart - 1 }
}

/// The dart of the edge that leaves the vertex, one of its ends.
pub fn dart_from(graph: &Graph, vertex: u32, edge: u32) -> u32
    requires { edge < edge_count graph.now }
    ensures { result ≡ dart_from graph.now vertex edge }
{
    let (first, _) = graph.ends(edge);
    if first == vertex {
        2 * edge
    } else {
        2 * edge + 1
    }
}

/// The vertex that the dart leaves.
pub fn tail(graph: &Graph, dart: u32) -> u32
    requires { dart < dart_count graph.now }
    ensures is { result ≡ tail graph.now dart }
    ensures within { result < graph.now.vertex_count }
{
    let (first, second) = graph.ends(dart / 2);
    if dart % 2 == 0 { first } else { second }
}

/// The vertex where the dart arrives.
pub fn head(graph: &Graph, dart: u32) -> u32
    requires { dart < dart_count graph.now }
    ensures is { result ≡ tail graph.now (twin dart) }
    ensures within { result < graph.now.vertex_count }
{
    tail(graph, twin(dart))
}
