// The exact check of a subdivision, by marks on the vertices that were visited.

ghost use Rattle.std.specs.Prelude.{◌≡◌, ◌<◌, ◌↔◌, ◌&&◌, true, false, not, length, IfOk, MatchOption, slice_set};
ghost use Rattle.multigraph.specs.Graph.{IsGraph};
ghost use Rattle.kuratowski.specs.Subdivision.{branch_count, inner_vertices, IsSubdivision, IsWritten};
ghost use Rattle.kuratowski.specs.Checking.{is_in_order, no_marks, is_taken, marked_also, are_free, is_free_walk, IsFreeWalkTo, ArePlaces, is_free_path, are_free_paths};

use crate::subdivision::{Pattern, Subdivision};
use multigraph::{Graph, Numbers};
use std::alloc::{AllocError, Global};

// Whether the branch vertices are in their written order.
fn is_in_order(kind: Pattern, branch: &[u32]) -> bool
    requires { length branch.now ≡ branch_count kind }
    ensures { result ≡ is_in_order kind branch.now }
{
    match kind {
        Pattern::K5 => {
            branch[0] < branch[1]
                && branch[1] < branch[2]
                && branch[2] < branch[3]
                && branch[3] < branch[4]
        }
        Pattern::K33 => {
            branch[0] < branch[1]
                && branch[1] < branch[2]
                && branch[3] < branch[4]
                && branch[4] < branch[5]
                && branch[0] < branch[3]
        }
    }
}

// A place for the mark of each vertex, without a mark.
fn no_marks(alloc: Global, g: &Graph) -> Result<Vec<bool>, AllocError>
    ensures marks { IfOk result (λ marks. marks.items ≡ no_marks g.now) }
    ensures graph { IfOk result (λ _. IsGraph g.now) }
{
    vec![in alloc; false; g.vertex_count() as usize]
}

// Marks a vertex that has no mark yet. Returns whether it did.
fn mark(marks: &mut [bool], vertex: u32) -> bool
    ensures free { result ≡ not (is_taken marks.old vertex) }
    ensures marked { result ≡ true → marks.new ≡ slice_set marks.old vertex true }
{
    if vertex as usize >= marks.len() || marks[vertex as usize] {
        return false;
    }
    marks[vertex as usize] = true;
    true
}

// Marks each of the vertices, as long as they have no mark yet. Returns whether all were marked.
fn mark_all(marks: &mut [bool], vertices: &[u32]) -> bool
    ensures free { result ≡ are_free marks.old vertices.now }
    ensures marked { result ≡ true → marks.new ≡ marked_also marks.old vertices.now }
{
    for vertex in vertices {
        if !mark(marks, *vertex) {
            return false;
        }
    }
    true
}

// Walks along the edges from a vertex and marks each vertex where an edge is entered, as long as they are a walk and the
// vertex has no mark yet. Returns where they lead.
fn walk(g: &Graph, marks: &mut [bool], from: u32, edges: &[u32]) -> Option<u32>
    ensures { MatchOption result (is_free_walk g.now marks.old from edges.now ≡ false)
        (IsFreeWalkTo g.now marks.old from edges.now marks.new) }
{
    let mut at = from;
    for edge in edges {
        if !mark(marks, at) {
            return None;
        }
        let Some(next) = g.far_end(*edge, at) else {
            return None;
        };
        at = next;
    }
    Some(at)
}

// Walks along a path and marks its inner vertices. Returns whether it is a path between the two vertices whose inner vertices had
// no mark.
fn walk_path(g: &Graph, marks: &mut [bool], from: u32, path: &[u32], to: u32) -> bool
    ensures free { result ≡ is_free_path g.now marks.old from path.now to }
    ensures marked { result ≡ true → marks.new ≡ marked_also marks.old
        (inner_vertices g.now from path.now) }
{
    let Some((first, rest)) = path.split_first() else {
        return false;
    };
    let Some(next) = g.far_end(*first, from) else {
        return false;
    };
    let Some(end) = walk(g, marks, next, rest) else {
        return false;
    };
    end == to
}

// Walks along a path for each of the pairs of branch vertices.
fn walk_paths(
    g: &Graph,
    marks: &mut [bool],
    branch: &[u32],
    pairs: &[(usize, usize)],
    paths: &[Numbers],
) -> bool
    requires one_each { length paths.now ≡ length pairs.now }
    requires within { ArePlaces pairs.now branch.now }
    ensures { result ≡ are_free_paths g.now marks.old branch.now pairs.now paths.now }
{
    for (k, pair) in pairs.iter().enumerate() {
        let from = branch[pair.0];
        let to = branch[pair.1];
        if !walk_path(g, marks, from, paths[k].as_slice(), to) {
            return false;
        }
    }
    true
}

// Whether the branch vertices and the vertices inside the paths have no mark yet and none is visited twice, and the paths join
// the pairs.
fn meets_once(
    g: &Graph,
    marks: &mut [bool],
    branch: &[u32],
    pairs: &[(usize, usize)],
    paths: &[Numbers],
) -> bool
    requires one_each { length paths.now ≡ length pairs.now }
    requires within { ArePlaces pairs.now branch.now }
    ensures { result ≡ (are_free marks.old branch.now
        && are_free_paths g.now (marked_also marks.old branch.now) branch.now pairs.now paths.now) }
{
    mark_all(marks, branch) && walk_paths(g, marks, branch, pairs, paths)
}

/// Whether `s` is a subdivision of its pattern in `g`. In linear time. Fails only if memory runs out.
pub fn is_subdivision(alloc: Global, g: &Graph, s: &Subdivision) -> Result<bool, AllocError>
    ensures exact { IfOk result
        (λ held. (held ≡ true) ↔ IsSubdivision g.now s.now.kind s.now.branch s.now.paths) }
{
    let branch = s.branch.as_slice();
    let paths = s.paths.as_slice();
    let pairs = s.kind.edges();
    if branch.len() != s.kind.branch_count() || paths.len() != pairs.len() {
        return Ok(false);
    }
    let mut marks = no_marks(alloc, g)?;
    Ok(meets_once(g, &mut marks, branch, pairs, paths))
}

/// Whether `s` is a subdivision of its pattern in `g`, in its written form. In linear time. Fails only if memory runs out.
/// For callers of the library: the program does not call it.
pub fn check(alloc: Global, g: &Graph, s: &Subdivision) -> Result<bool, AllocError>
    ensures exact { IfOk result
        (λ held. (held ≡ true) ↔ IsWritten g.now s.now.kind s.now.branch s.now.paths) }
{
    if !is_subdivision(alloc, g, s)? {
        return Ok(false);
    }
    Ok(is_in_order(s.kind, s.branch.as_slice()))
}
