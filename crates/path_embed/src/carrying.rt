// A subdivision in a part of a graph, carried into the graph: each edge of the part is an edge of the graph.

ghost use Rattle.std.specs.Prelude.{◌≡◌, ◌∷◌, [], IfOk};
ghost use Rattle.kuratowski.specs.Subdivision.{IsWritten};
ghost use Rattle.path_embed.specs.Carrying.{edge_routes};
ghost use Rattle.path_embed.specs.Found.{IsPartOf};

use kuratowski::{Subdivision, lift};
use multigraph::{Graph, Numbers, Part};
use std::alloc::{AllocError, Global};

// The vertices of the graph that the vertices of the part are.
fn outer_vertices(alloc: Global, part: &Part) -> Result<Vec<u32>, AllocError>
    ensures { IfOk result (λ vertices. vertices.items ≡ part.now.vertices) }
{
    let count = part.graph().vertex_count();
    let mut vertices = Vec::with_capacity(alloc, count as usize)?;
    for v in 0..count {
        vertices.push(part.vertex(v))?;
    }
    Ok(vertices)
}

// The route along one edge.
pub(crate) fn edge_route(alloc: Global, edge: u32) -> Result<Numbers, AllocError>
    ensures { IfOk result (λ route. route ≡ edge ∷ []) }
{
    let mut along = Vec::with_capacity(alloc, 1)?;
    along.push(edge)?;
    Ok(Numbers::of(along))
}

// For each edge of the part the route along the edge of the graph that it is.
fn outer_routes(alloc: Global, part: &Part) -> Result<Vec<Numbers>, AllocError>
    ensures { IfOk result (λ routes. routes.items ≡ edge_routes part.now.edges) }
{
    let count = part.graph().edge_count();
    let mut routes = Vec::with_capacity(alloc, count as usize)?;
    for e in 0..count {
        routes.push(edge_route(alloc, part.edge(e))?)?;
    }
    Ok(routes)
}

// The subdivision in the part, in the numbers of the graph.
pub(crate) fn carried(
    alloc: Global,
    g: &Graph,
    part: &Part,
    s: &Subdivision,
) -> Result<Subdivision, AllocError>
    requires part { IsPartOf g.now part.now }
    requires written { IsWritten part.now.graph s.now.kind s.now.branch s.now.paths }
    ensures { IfOk result (λ w. IsWritten g.now w.kind w.branch w.paths) }
{
    g.keeps_limits();
    let vertices = outer_vertices(alloc, part)?;
    let routes = outer_routes(alloc, part)?;
    lift(alloc, part.graph(), g, s, &vertices, &routes)
}
