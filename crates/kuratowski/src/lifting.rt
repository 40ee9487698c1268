// A subdivision carried from a graph into another one, along routes: paths of the other graph, one for each edge.

ghost use Rattle.std.specs.Prelude.{◌≡◌, ◌<◌, ◌++◌, ℕ, length, IfOk};
ghost use Rattle.multigraph.specs.Graph.{edge_count};
ghost use Rattle.graph_theory.specs.Path.{IsWalk};
ghost use Rattle.kuratowski.specs.Subdivision.{branch_at, IsSubdivision, IsWritten};
ghost use Rattle.kuratowski.specs.Routes.{AreRoutes, route_from, lifted_walk, lifted_paths, lifted_branches};

use crate::subdivision::{Pattern, Subdivision};
use multigraph::{Graph, NumberLists, Numbers};
use std::alloc::{AllocError, Global};

// Appends the route of an edge, from one of its ends on.
fn add_route(
    alloc: Global,
    inner: &Graph,
    routes: &[Numbers],
    edge: u32,
    from: u32,
    along: &mut Vec<u32>,
) -> Result<(), AllocError>
    requires edge { edge < edge_count inner.now }
    requires one_each { length routes.now ≡ edge_count inner.now }
    ensures { IfOk result (λ _. along.new.items
        ≡ along.old.items ++ route_from inner.now routes.now edge from) }
{
    let route = routes[edge as usize].as_slice();
    if inner.ends(edge).0 == from {
        along.extend_from_slice(route)?;
        return Ok(());
    }
    let mut back = Vec::from_slice(alloc, route)?;
    back.reverse();
    along.extend_from_slice(&back)?;
    Ok(())
}

// The routes of the edges of a walk, one after the other.
fn lift_walk(
    alloc: Global,
    inner: &Graph,
    routes: &[Numbers],
    from: u32,
    edges: &[u32],
) -> Result<Numbers, AllocError>
    requires one_each { length routes.now ≡ edge_count inner.now }
    requires walk { IsWalk inner.now from edges.now }
    ensures { IfOk result (λ along. along ≡ lifted_walk inner.now routes.now from edges.now) }
{
    let mut along = Vec::new(alloc);
    let mut at = from;
    for edge in edges {
        add_route(alloc, inner, routes, *edge, at, &mut along)?;
        at = inner.other_end(*edge, at);
    }
    Ok(Numbers::of(along))
}

// The paths of a subdivision, carried over.
fn lift_paths(
    alloc: Global,
    inner: &Graph,
    routes: &[Numbers],
    kind: Pattern,
    branch: &[u32],
    paths: &[Numbers],
) -> Result<Vec<Numbers>, AllocError>
    requires one_each { length routes.now ≡ edge_count inner.now }
    requires subdivision { IsSubdivision inner.now kind branch.now paths.now }
    ensures { IfOk result (λ lifted. lifted.items
        ≡ lifted_paths inner.now routes.now kind branch.now paths.now) }
{
    let mut lifted = Vec::new(alloc);
    for (k, pair) in kind.edges().iter().enumerate() {
        let from = branch[pair.0];
        lifted.push(lift_walk(alloc, inner, routes, from, paths[k].as_slice())?)?;
    }
    Ok(lifted)
}

// The branch vertices of a subdivision, carried over.
fn lift_branches(alloc: Global, vertex: &[u32], branch: &[u32]) -> Result<Vec<u32>, AllocError>
    requires { (i : ℕ) → i < length branch.now → branch_at branch.now i < length vertex.now }
    ensures { IfOk result (λ lifted. lifted.items ≡ lifted_branches vertex.now branch.now) }
{
    let mut lifted = Vec::new(alloc);
    for inner_vertex in branch {
        lifted.push(vertex[*inner_vertex as usize])?;
    }
    Ok(lifted)
}

/// Carries a subdivision of a pattern, in its written form, from the graph `inner` into the graph `outer`.
///
/// `vertex` gives the outer vertex of each inner one, in increasing order; `routes` gives for each inner edge a path of `outer`
/// from its first to its second end, as a list of edges. Two routes share no vertex but common ends, and none has a vertex of
/// `vertex` inside. Each path of the result is the concatenation of the routes of the path's edges, a route that is traversed from
/// its second to its first end reversed. Neither graph has to be planar. Time and memory are linear in the length of the result.
/// Fails only if memory runs out.
pub fn lift(
    alloc: Global,
    inner: &Graph,
    outer: &Graph,
    s: &Subdivision,
    vertex: &[u32],
    routes: &[Numbers],
) -> Result<Subdivision, AllocError>
    requires written { IsWritten inner.now s.now.kind s.now.branch s.now.paths }
    requires routes { AreRoutes inner.now outer.now vertex.now routes.now }
    ensures written { IfOk result (λ w. IsWritten outer.now w.kind w.branch w.paths) }
    ensures kind { IfOk result (λ w. w.kind ≡ s.now.kind) }
    ensures branches { IfOk result (λ w. w.branch ≡ lifted_branches vertex.now s.now.branch) }
    ensures paths { IfOk result (λ w. w.paths
        ≡ lifted_paths inner.now routes.now s.now.kind s.now.branch s.now.paths) }
{
    // That `inner` is a graph is known from the clauses of this call.
    let _ = inner.vertex_count();
    let branch = lift_branches(alloc, vertex, s.branch.as_slice())?;
    let paths = lift_paths(
        alloc,
        inner,
        routes,
        s.kind,
        s.branch.as_slice(),
        s.paths.as_slice(),
    )?;
    Ok(Subdivision {
        kind: s.kind,
        branch: Numbers::of(branch),
        paths: NumberLists::of(paths),
    })
}
