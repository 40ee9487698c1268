// K5 and K3,3 as subdivisions of themselves.

ghost use Rattle.std.specs.Prelude.{◌≡◌, ◌<◌, ◌∷◌, [], ℕ, true, false, not, filter, length, IfOk, MatchOption};
ghost use Rattle.multigraph.specs.Graph.{edge_count, numbers_below};
ghost use Rattle.kuratowski.specs.declared.subdivision.Pattern.{Pattern};
ghost use Rattle.kuratowski.specs.Subdivision.{branch_at, branch_count, pair_at, pattern_edges, IsWritten};
ghost use Rattle.minimal_graphs.specs.Whole.{are_joined, first_side, is_far, joins, AreEdges, IsPattern};

use kuratowski::{Pattern, Subdivision};
use multigraph::{Graph, NumberLists, Numbers};
use std::alloc::{AllocError, Global};

// An edge that joins the two vertices, if there is one.
fn edge_between(g: &Graph, u: u32, v: u32) -> Option<u32>
    ensures { MatchOption result (are_joined g.now u v ≡ false)
        (λ e. (e < edge_count g.now) × (joins g.now u v e ≡ true)) }
{
    for e in 0..g.edge_count() {
        if g.is_edge_at(e, u) && g.is_edge_at(e, v) {
            return Some(e);
        }
    }
    None
}

// Whether v is the vertex 0, or no edge joins the two.
fn is_far(g: &Graph, v: u32) -> bool
    ensures { result ≡ is_far g.now v }
{
    if v == 0 {
        return true;
    }
    match edge_between(g, 0, v) {
        Some(_) => false,
        None => true,
    }
}

// The vertices that no edge joins with the vertex 0, this one among them, and the others, both increasing.
fn sides(alloc: Global, g: &Graph) -> Result<(Vec<u32>, Vec<u32>), AllocError>
    ensures { IfOk result (λ s. (s.0.items ≡ filter (is_far g.now) (numbers_below g.now.vertex_count))
        × (s.1.items ≡ filter (λ v. not (is_far g.now v)) (numbers_below g.now.vertex_count))) }
{
    let mut far = Vec::new(alloc);
    let mut near = Vec::new(alloc);
    for v in 0..g.vertex_count() {
        if is_far(g, v) {
            far.push(v)?;
        } else {
            near.push(v)?;
        }
    }
    Ok((far, near))
}

// A path of one edge between two vertices that an edge joins.
fn path_between(alloc: Global, g: &Graph, u: u32, v: u32) -> Result<Numbers, AllocError>
    requires { are_joined g.now u v ≡ true }
    ensures { IfOk result (λ path. (e : ℕ) × (e < edge_count g.now) × (joins g.now u v e ≡ true)
        × (path ≡ e ∷ [])) }
{
    let Some(e) = edge_between(g, u, v) else {
        unreachable!()
    };
    let mut along = Vec::with_capacity(alloc, 1)?;
    along.push(e)?;
    Ok(Numbers::of(along))
}

// For each edge of the pattern a path of one edge between the branch vertices that it joins.
fn paths_between(
    alloc: Global,
    g: &Graph,
    kind: Pattern,
    branch: &[u32],
) -> Result<Vec<Numbers>, AllocError>
    requires branches { length branch.now ≡ branch_count kind }
    requires joined { (k : ℕ) → k < length (pattern_edges kind)
        → are_joined g.now (branch_at branch.now (pair_at kind k).0) (branch_at branch.now (pair_at kind k).1) ≡ true }
    ensures { IfOk result (λ paths. AreEdges g.now kind branch.now paths.items) }
{
    let pairs = kind.edges();
    let mut paths = Vec::with_capacity(alloc, pairs.len())?;
    for pair in pairs {
        paths.push(path_between(alloc, g, branch[pair.0], branch[pair.1])?)?;
    }
    Ok(paths)
}

// The pattern whose first vertex has a side of so many vertices.
fn pattern_of(count: usize) -> Pattern
    ensures { (kind : Pattern) → count ≡ first_side kind → result ≡ kind }
{
    if count == 1 {
        Pattern::K5
    } else {
        Pattern::K33
    }
}

/// Returns K5 or K3,3, which the graph is, as a subdivision in its written form, with paths of one edge. Fails only if memory
/// runs out.
pub fn read_off(alloc: Global, g: &Graph) -> Result<Subdivision, AllocError>
    requires { IsPattern g.now }
    ensures { IfOk result (λ w. IsWritten g.now w.kind w.branch w.paths) }
{
    g.keeps_limits();
    let (far, near) = sides(alloc, g)?;
    let kind = pattern_of(far.len());
    let mut branch = far;
    branch.extend_from_slice(&near)?;
    let paths = paths_between(alloc, g, kind, &branch)?;
    Ok(Subdivision {
        kind,
        branch: Numbers::of(branch),
        paths: NumberLists::of(paths),
    })
}
