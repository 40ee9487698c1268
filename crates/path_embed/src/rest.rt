// What is left of a graph without plane rotation system when edges are left out.

ghost use Rattle.std.specs.Prelude.{◌<◌, ℕ, length, slice_index, IfOk, IfSome};
ghost use Rattle.multigraph.specs.Graph.{edge_count};
ghost use Rattle.multigraph.specs.Part.{Rises};
ghost use Rattle.path_embed.specs.Found.{IsFound, IsRest};

use crate::carrying::edge_route;
use crate::deciding::{Obstacle, obstacle_of};
use block_obstruct::item_routes;
use multigraph::{Graph, Numbers, Part};
use std::alloc::{AllocError, Global};

// A part of a graph without plane rotation system, and an obstacle of the part.
#[derive(Drop)]
pub(crate) struct Found {
    pub(crate) whole: Part,
    pub(crate) obstacle: Obstacle,
}

// What is left of a graph: all of it, or the skeleton of an obstacle of a part. For each of its edges, the items, the edges of the
// graph that it stands for; nothing is promised of these.
#[derive(Drop)]
pub(crate) struct Rest {
    pub(crate) found: Option<Found>,
    pub(crate) routes: Vec<Numbers>,
}

// Whether the part that these edges make has an obstacle: the part and the obstacle.
pub(crate) fn find(alloc: Global, g: &Graph, edges: &[u32]) -> Result<Option<Found>, AllocError>
    requires rising { Rises edges.now }
    requires within { (i : ℕ) → i < length edges.now → slice_index edges.now i < edge_count g.now }
    ensures { IfOk result (λ answer. IfSome answer (IsFound g.now)) }
{
    let whole = g.part(alloc, edges)?;
    let answer = obstacle_of(alloc, whole.graph())?;
    match answer {
        Some(obstacle) => Ok(Some(Found { whole, obstacle })),
        None => Ok(None),
    }
}

// The edges of the whole graph that these edges of a part are.
fn outer_edges(alloc: Global, part: &Part, edges: &[u32]) -> Result<Numbers, AllocError> {
    let mut outer = Vec::with_capacity(alloc, edges.len())?;
    for edge in edges {
        if *edge < part.graph().edge_count() {
            outer.push(part.edge(*edge))?;
        }
    }
    Ok(Numbers::of(outer))
}

// For each of these routes of a part the edges of the whole graph.
fn outer_routes(
    alloc: Global,
    part: &Part,
    routes: &[Numbers],
) -> Result<Vec<Numbers>, AllocError> {
    let mut outer = Vec::with_capacity(alloc, routes.len())?;
    for route in routes {
        outer.push(outer_edges(alloc, part, route.as_slice())?)?;
    }
    Ok(outer)
}

// For each item of the skeleton a path of the graph.
fn routes_of(alloc: Global, g: &Graph, found: &Found) -> Result<Vec<Numbers>, AllocError>
    requires { IsFound g.now found.now }
{
    let _ = g; // for the contract alone
    let o = &found.obstacle;
    let inner = item_routes(alloc, o.block.graph(), &o.tree, o.node)?;
    let whole = outer_routes(alloc, &o.block, &inner)?;
    outer_routes(alloc, &found.whole, &whole)
}

impl Rest {
    // All of the graph.
    pub(crate) fn all(alloc: Global, g: &Graph) -> Result<Rest, AllocError>
        ensures { IfOk result (IsRest g.now) }
    {
        let mut routes = Vec::with_capacity(alloc, g.edge_count() as usize)?;
        for e in 0..g.edge_count() {
            routes.push(edge_route(alloc, e)?)?;
        }
        Ok(Rest {
            found: None,
            routes,
        })
    }

    // The skeleton that was found.
    pub(crate) fn of(alloc: Global, g: &Graph, found: Found) -> Result<Rest, AllocError>
        requires { IsFound g.now found }
        ensures { IfOk result (IsRest g.now) }
    {
        let routes = routes_of(alloc, g, &found)?;
        Ok(Rest {
            found: Some(found),
            routes,
        })
    }

    // How many items there are.
    pub(crate) fn count(&self) -> usize {
        self.routes.len()
    }
}
