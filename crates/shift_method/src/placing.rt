// The points of all vertices of a triangulation, by the shift method.

ghost use Rattle.std.specs.Prelude.{◌≡◌, ◌+◌, ◌*◌, ◌<◌, ◌≤◌, ◌^◌, ℕ, length, IfOk, slice_index, slice_index_or};
ghost use Rattle.canonical_orders.specs.Order.{stays_after};
ghost use Rattle.stacked_maps.specs.Drawn.{IsDrawnUnder};
ghost use Rattle.shift_method.specs.Peeled.{IsPeeled, contour_at};

use crate::shape::Shape;
use crate::spreading::positions;
use canonical_orders::Removal;
use std::alloc::{AllocError, Global};

// The point of each vertex, from its position and its height.
fn points_of(alloc: Global, x: &[u32], shape: &Shape) -> Result<Vec<(u32, u32)>, AllocError>
    requires each { length x.now ≡ length shape.now.height }
    requires small { length x.now ≤ 2 ^ 32 }
    ensures number { IfOk result (λ points. length points.items ≡ length x.now) }
    ensures points { IfOk result (λ points. (v : ℕ) → v < length x.now → slice_index_or points.items v (0, 0)
        ≡ (slice_index x.now v, slice_index shape.now.height v)) }
{
    let mut points = Vec::with_capacity(alloc, x.len())?;
    for (v, x) in x.iter().enumerate() {
        points.push((*x, shape.height(v as u32)))?;
    }
    Ok(points)
}

/// The points of a straight-line drawing of a triangulation with `vertices` vertices, which are removed in the order of `removals`
/// down to `left` and `right`, the ends of dart 0: one point for each vertex, x to the right in 0 to 2 * `vertices` - 4, y upwards
/// in 0 to `vertices` - 2 (de Fraysseix, Pach and Pollack 1990). It takes linear time (Chrobak and Payne 1995). Fails only if memory
/// runs out.
pub fn place_vertices(
    alloc: Global,
    vertices: u32,
    left: u32,
    right: u32,
    removals: &[Removal],
) -> Result<Vec<(u32, u32)>, AllocError>
    requires peeled { IsPeeled vertices left right removals.now }
    requires small { 2 * vertices ≤ 2 ^ 32 }
    ensures number { IfOk result (λ points. length points.items ≡ vertices) }
    ensures drawn { IfOk result (λ points. (p : IsPeeled vertices left right removals.now)
        → IsDrawnUnder p.m p.h p.next 0 (stays_after p.h removals.now 0) (contour_at p 0)
        (λ v. slice_index_or points.items v (0, 0))) }
    ensures wide { IfOk result (λ points. (v : ℕ) → v < vertices
        → (slice_index_or points.items v (0, 0)).0 + 4 ≤ 2 * vertices) }
    ensures high { IfOk result (λ points. (v : ℕ) → v < vertices
        → (slice_index_or points.items v (0, 0)).1 + 2 ≤ vertices) }
{
    let mut shape = Shape::new(alloc, vertices)?;
    shape.place_all(removals);
    let x = positions(alloc, &shape, vertices, left, right, removals)?;
    points_of(alloc, &x, &shape)
}
