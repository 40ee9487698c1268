// A path between two vertices of a graph, by a search in the order of distance (Moore 1959).

ghost use Rattle.std.specs.Prelude.{◌≡◌, ◌≢◌, ◌<◌, ℕ, true, [], map, slice_index, length, IfOk};
ghost use Rattle.permutations.specs.Members.{is_member};
ghost use Rattle.permutations.specs.Relation.{connected};
ghost use Rattle.multigraph.specs.Graph.{edge_count, is_end, other_end};
ghost use Rattle.multigraph.specs.Part.{Rises};
ghost use Rattle.graph_theory.specs.Path.{IsPath};
ghost use Rattle.graph_paths.specs.Listing.{AreListed, Grows};
ghost use Rattle.graph_paths.specs.Along.{PathAlong};
ghost use Rattle.graph_paths.specs.Search.{LeadsFrom, IsSearched};

use crate::listing::add_once;
use multigraph::{Graph, Numbers, Part};
use std::alloc::{AllocError, Global};

// Appends the neighbours of a vertex to the list, and notes for each the edge that leads there.
fn visit(
    g: &Graph,
    x: u32,
    marks: &mut [bool],
    notes: &mut [u32],
    list: &mut Vec<u32>,
) -> Result<(), AllocError>
    requires listed { AreListed marks.old notes.old list.old.items }
    requires vertex { x < g.now.vertex_count }
    requires places { length marks.old ≡ g.now.vertex_count }
    ensures listed { IfOk result (λ _. AreListed marks.new notes.new list.new.items) }
    ensures size { IfOk result (λ _. length marks.new ≡ length marks.old) }
    ensures grows { IfOk result (λ _. Grows (λ y e. LeadsFrom g.now x y e)
        list.old.items notes.old list.new.items notes.new) }
    ensures met { IfOk result (λ _. (e : ℕ) → e < edge_count g.now → is_end g.now x e ≡ true
        → is_member (other_end g.now e x) list.new.items ≡ true) }
{
    for edge in g.incident(x) {
        let y = g.other_end(*edge, x);
        add_once(marks, notes, list, y, *edge)?;
    }
    Ok(())
}

// Searches from the root: notes for each vertex that is connected with it an edge that leads a step nearer to it.
fn explore(
    g: &Graph,
    root: u32,
    marks: &mut [bool],
    notes: &mut [u32],
    list: &mut Vec<u32>,
) -> Result<(), AllocError>
    requires root { root < g.now.vertex_count }
    requires listed { AreListed marks.old notes.old list.old.items }
    requires empty { list.old.items ≡ [] }
    requires size { length marks.old ≡ g.now.vertex_count }
    ensures { IfOk result (λ _. IsSearched g.now root notes.new) }
{
    add_once(marks, notes, list, root, 0)?;
    for q in 0..g.vertex_count() {
        if (q as usize) < list.len() {
            let x = list[q as usize];
            visit(g, x, marks, notes, list)?;
        }
    }
    Ok(())
}

// For each vertex that is connected with the root, but for the root, an edge that leads a step nearer to it.
fn search(alloc: Global, g: &Graph, root: u32) -> Result<Vec<u32>, AllocError>
    requires { root < g.now.vertex_count }
    ensures { IfOk result (λ notes. IsSearched g.now root notes.items) }
{
    let n = g.vertex_count() as usize;
    let mut marks = vec![in alloc; false; n]?;
    let mut notes = vec![in alloc; 0; n]?;
    let mut list = Vec::new(alloc);
    explore(g, root, &mut marks, &mut notes, &mut list)?;
    Ok(notes)
}

// The path from a vertex to the root along the edges that were noted.
fn follow(
    alloc: Global,
    g: &Graph,
    notes: &[u32],
    from: u32,
    root: u32,
) -> Result<Vec<u32>, AllocError>
    requires searched { IsSearched g.now root notes.now }
    requires connected { connected g.now.ends root from ≡ true }
    ensures { IfOk result (λ along. IsPath g.now from along.items root) }
{
    let mut along = Vec::new(alloc);
    let mut at = from;
    for _ in 0..g.vertex_count() {
        if at == root {
            return Ok(along);
        }
        let edge = notes[at as usize];
        along.push(edge)?;
        at = g.other_end(edge, at);
    }
    unreachable!()
}

// A path between two vertices that are connected.
fn path_between(alloc: Global, g: &Graph, from: u32, to: u32) -> Result<Vec<u32>, AllocError>
    requires vertex { to < g.now.vertex_count }
    requires connected { connected g.now.ends to from ≡ true }
    ensures { IfOk result (λ along. IsPath g.now from along.items to) }
{
    let notes = search(alloc, g, to)?;
    follow(alloc, g, &notes, from, to)
}

// The edges of the whole graph that these edges of a part are.
fn whole_edges(alloc: Global, part: &Part, edges: &[u32]) -> Result<Numbers, AllocError>
    requires { (i : ℕ) → i < length edges.now
        → slice_index edges.now i < edge_count part.now.graph }
    ensures { IfOk result (λ along. along ≡ map (λ e. slice_index part.now.edges e) edges.now) }
{
    let mut along = Vec::with_capacity(alloc, edges.len())?;
    for edge in edges {
        along.push(part.edge(*edge))?;
    }
    Ok(Numbers::of(along))
}

/// A path between two vertices along some of these edges, which are increasing, where there is one. Takes k log k time for k
/// edges. Fails only if memory runs out.
pub fn path_along(
    alloc: Global,
    g: &Graph,
    edges: &[u32],
    from: u32,
    to: u32,
) -> Result<Numbers, AllocError>
    requires increasing { Rises edges.now }
    requires within { (i : ℕ) → i < length edges.now → slice_index edges.now i < edge_count g.now }
    requires apart { from ≢ to }
    requires path { PathAlong g.now edges.now from to }
    ensures path { IfOk result (λ along. IsPath g.now from along to) }
    ensures among { IfOk result (λ along. (e : ℕ) → is_member e along ≡ true
        → is_member e edges.now ≡ true) }
{
    let part = g.part(alloc, edges)?;
    let Some(first) = part.inner_vertex(from) else {
        unreachable!()
    };
    let Some(last) = part.inner_vertex(to) else {
        unreachable!()
    };
    let along = path_between(alloc, part.graph(), first, last)?;
    let route = whole_edges(alloc, &part, &along)?;
    Ok(route)
}
