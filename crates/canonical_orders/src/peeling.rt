// Canonical orders: vertices are removed from the contour one after the other.

ghost use Rattle.std.specs.Prelude.{◌≡◌, IfOk, []};
ghost use Rattle.canonical_orders.specs.State.{IsCanonicalOrderOf, IsPartOrder, IsTriangulatedMap};

use crate::contour::Contour;
use crate::removal::Removal;
use std::alloc::{AllocError, Global};
use triangulations::DartMap;

// The contour where all vertices stay: the triangle of dart 0.
fn start(alloc: Global, map: &DartMap) -> Result<Contour, AllocError>
    requires { IsTriangulatedMap map.now }
    ensures { IfOk result (λ contour. IsPartOrder map.now [] contour.left.items contour.on.items contour.met.items) }
{
    let vertices = map.vertex_count() as usize;
    let mut contour = Contour {
        left: vec![in alloc; 0; vertices]?,
        on: vec![in alloc; false; vertices]?,
        met: vec![in alloc; 0; vertices]?,
        ring: Vec::new(alloc),
    };
    contour.enter(map, 0)?;
    contour.enter(map, map.face(0))?;
    contour.enter(map, map.face(map.face(0)))?;
    Ok(contour)
}

/// A canonical order of a triangulated map with the base dart 0, backwards: all vertices but the two ends of dart 0, in the order in which
/// they are removed, each with its neighbours among those that stay, from left to right (de Fraysseix, Pach and Pollack 1990). In
/// linear time. Fails only if memory runs out.
pub fn peel(alloc: Global, map: &DartMap) -> Result<Vec<Removal>, AllocError>
    requires { IsTriangulatedMap map.now }
    ensures { IfOk result (λ order. IsCanonicalOrderOf map.now order.items) }
{
    let mut contour = start(alloc, map)?;
    let mut waiting = Vec::new(alloc);
    waiting.push(map.head(map.face(0)))?;
    let mut order = Vec::new(alloc);
    for _ in 2..map.vertex_count() {
        let vertex = contour.next_free(map, &mut waiting);
        let removal = contour.remove(alloc, map, vertex)?;
        waiting.extend_from_slice(removal.heads())?;
        order.push(removal)?;
    }
    Ok(order)
}
