// Arcs of faces: a face without one of its darts and without the dart before it.

ghost use Rattle.std.specs.Prelude.{◌≡◌, ◌≤◌, ◌<◌, ◌/◌, ℕ, true, length, map, IfOk};
ghost use Rattle.permutations.specs.Members.{is_member};
ghost use Rattle.permutations.specs.Ring.{orbit_length};
ghost use Rattle.multigraph.specs.Graph.{edge_count, max_darts};
ghost use Rattle.faces.specs.Euler.{dart_from};
ghost use Rattle.contract_obstruct.specs.Arcs.{along, arc_of, arcs_of};

use crate::paths::number_at;
use faces::{dart_from, twin};
use multigraph::Graph;
use std::alloc::{AllocError, Global};

// The next dart of the face.
fn along(next: &[u32], dart: u32) -> u32
    ensures { result ≡ along next.now dart }
{
    number_at(next, twin(dart) as usize)
}

// How many darts the face has.
fn face_length(next: &[u32], dart: u32) -> usize
    requires { length next.now ≤ max_darts }
    ensures { result ≡ orbit_length (length next.now) (along next.now) dart }
{
    let mut at = along(next, dart);
    for passed in 0..next.len() {
        if at == dart {
            return passed + 1;
        }
        at = along(next, at);
    }
    next.len() + 1
}

// The edges of the face of a dart, without this dart and without the one before it.
fn arc(alloc: Global, next: &[u32], dart: u32) -> Result<Vec<u32>, AllocError>
    requires { length next.now ≤ max_darts }
    ensures { IfOk result (λ edges. edges.items ≡ map (λ c. c / 2) (arc_of next.now dart)) }
{
    let mut edges = Vec::new(alloc);
    let mut at = along(next, dart);
    let mut left = face_length(next, dart);
    while left > 2 {
        edges.push(at / 2)?;
        at = along(next, at);
        left -= 1;
    }
    Ok(edges)
}

// The edges of the arcs of these edges' darts at w, one after the other.
pub(crate) fn arcs(
    alloc: Global,
    h: &Graph,
    next: &[u32],
    w: u32,
    edges: &[u32],
) -> Result<Vec<u32>, AllocError>
    requires few { length next.now ≤ max_darts }
    requires edges_in { (z : ℕ) → is_member z edges.now ≡ true → z < edge_count h.now }
    ensures { IfOk result (λ all. all.items ≡ arcs_of next.now
        (map (dart_from h.now w) edges.now)) }
{
    let mut all = Vec::new(alloc);
    for edge in edges {
        let more = arc(alloc, next, dart_from(h, w, *edge))?;
        all.extend_from_slice(&more)?;
    }
    Ok(all)
}
