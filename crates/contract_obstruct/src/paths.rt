// Paths of a contracted graph, lifted to the graph itself.

ghost use Rattle.std.specs.Prelude.{◌≡◌, ◌==◌, ◌<◌, ◌&&◌, ℕ, length, map, reverse, slice_index, IfOk};
ghost use Rattle.multigraph.specs.Graph.{edge_count};
ghost use Rattle.graph_theory.specs.Path.{IsWalk};
ghost use Rattle.planarity.specs.Lift.{touches, lifted, is_pair, is_listed, path_of_pair};

use multigraph::{Graph, Numbers};
use std::alloc::{AllocError, Global};

// The number at a place of a list, and 0 past its end: callers read places of the list alone.
pub(crate) fn number_at(list: &[u32], place: usize) -> u32
    ensures { result ≡ slice_index list.now place }
{
    match list.get(place) {
        Some(number) => *number,
        None => 0,
    }
}

// Whether z is an end of one of the edges.
pub(crate) fn touches(g: &Graph, z: u32, edges: &[u32]) -> bool
    requires { (t : ℕ) → t < length edges.now → slice_index edges.now t < edge_count g.now }
    ensures { result ≡ touches g.now z edges.now }
{
    for edge in edges {
        if g.is_edge_at(*edge, z) {
            return true;
        }
    }
    false
}

// The edges that edges of the contraction were.
pub(crate) fn edges_before(
    alloc: Global,
    kept: &[u32],
    path: &[u32],
) -> Result<Vec<u32>, AllocError>
    ensures { IfOk result (λ edges. edges.items ≡ map (slice_index kept.now) path.now) }
{
    let mut edges = Vec::with_capacity(alloc, path.len())?;
    for edge in path {
        edges.push(number_at(kept, *edge as usize))?;
    }
    Ok(edges)
}

// A path lifted: the edge e comes where the next edge is not at the vertex that is reached.
pub(crate) fn lift_path(
    alloc: Global,
    g: &Graph,
    e: u32,
    from: u32,
    path: &[u32],
    to: u32,
) -> Result<Numbers, AllocError>
    requires { IsWalk g.now from (lifted g.now e from path.now to) }
    ensures { IfOk result (λ edges. edges ≡ lifted g.now e from path.now to) }
{
    let mut edges = Vec::new(alloc);
    let mut at = from;
    for edge in path {
        if !g.is_edge_at(*edge, at) {
            edges.push(e)?;
            at = g.other_end(e, at);
        }
        edges.push(*edge)?;
        at = g.other_end(*edge, at);
    }
    if at != to {
        edges.push(e)?;
    }
    Ok(Numbers::of(edges))
}

// Whether the pair is (i, j).
fn leads(pair: (usize, usize), i: usize, j: usize) -> bool
    ensures { result ≡ (pair.0 == i && pair.1 == j) }
{
    pair.0 == i && pair.1 == j
}

// Whether these are the two numbers of the pair.
fn is_pair(pair: (usize, usize), i: usize, j: usize) -> bool
    ensures { result ≡ is_pair pair i j }
{
    leads(pair, i, j) || leads(pair, j, i)
}

// Whether the two numbers are one of the pairs.
pub(crate) fn is_listed(pairs: &[(usize, usize)], i: usize, j: usize) -> bool
    ensures { result ≡ is_listed pairs.now i j }
{
    for pair in pairs {
        if is_pair(*pair, i, j) {
            return true;
        }
    }
    false
}

// The same edges reversed.
pub(crate) fn reverse(alloc: Global, path: &[u32]) -> Result<Vec<u32>, AllocError>
    ensures { IfOk result (λ edges. edges.items ≡ reverse path.now) }
{
    let mut edges = Vec::from_slice(alloc, path)?;
    edges.reverse();
    Ok(edges)
}

// The path from i to j, where there is one for each of the pairs.
pub(crate) fn path_between(
    alloc: Global,
    pairs: &[(usize, usize)],
    paths: &[Numbers],
    i: usize,
    j: usize,
) -> Result<Vec<u32>, AllocError>
    requires { length paths.now ≡ length pairs.now }
    ensures { IfOk result (λ path. path.items ≡ path_of_pair pairs.now paths.now i j) }
{
    for (k, pair) in pairs.iter().enumerate() {
        if leads(*pair, i, j) {
            return Vec::from_slice(alloc, paths[k].as_slice());
        }
        if leads(*pair, j, i) {
            return reverse(alloc, paths[k].as_slice());
        }
    }
    Ok(Vec::new(alloc))
}
