// The positions of all vertices, from those of the two ends and the vertex above them.

ghost use Rattle.std.specs.Prelude.{◌≡◌, ◌+◌, ◌*◌, ◌<◌, ◌≤◌, ◌^◌, ℕ, length, IfOk, slice_index};
ghost use Rattle.shift_method.specs.Shapes.{IsShapeOf};
ghost use Rattle.shift_method.specs.Peeled.{IsPeeled, IsInnerHead, KeepsAll, removed_at, ArePositions};

use crate::shape::Shape;
use canonical_orders::Removal;
use std::alloc::{AllocError, Global};

// Gives the inner heads of a vertex their positions, from its own.
fn spread_heads(x: &mut [u32], shape: &Shape, removal: &Removal)
    requires two { 2 ≤ length removal.now.1 }
    requires sizes { IsShapeOf (length x.old) shape.now }
    requires vertex_within { removal.now.0 < length x.old }
    requires heads_within { (v : ℕ) → IsInnerHead removal.now.1 v → v < length x.old }
    requires room { slice_index shape.now.half removal.now.0 ≤ slice_index x.old removal.now.0 }
    requires fits { (v : ℕ) → IsInnerHead removal.now.1 v
        → slice_index x.old removal.now.0 + slice_index shape.now.offset v
        < slice_index shape.now.half removal.now.0 + 2 ^ 32 }
    ensures inner { (v : ℕ) → IsInnerHead removal.now.1 v
        → slice_index x.new v + slice_index shape.now.half removal.now.0
        ≡ slice_index x.old removal.now.0 + slice_index shape.now.offset v }
    ensures others { (v : ℕ) → (IsInnerHead removal.now.1 v → ⊥)
        → slice_index x.new v ≡ slice_index x.old v }
    ensures number { length x.new ≡ length x.old }
{
    let w = removal.vertex();
    let heads = removal.heads();
    let left = x[w as usize] - shape.half(w);
    let inner = &heads[1..heads.len() - 1];
    for v in inner {
        x[*v as usize] = left + shape.offset(*v);
    }
}

// The positions of all vertices.
pub(crate) fn positions(
    alloc: Global,
    shape: &Shape,
    vertices: u32,
    left: u32,
    right: u32,
    removals: &[Removal],
) -> Result<Vec<u32>, AllocError>
    requires peeled { IsPeeled vertices left right removals.now }
    requires small { 2 * vertices ≤ 2 ^ 32 }
    requires sizes { IsShapeOf vertices shape.now }
    requires positions { (x : ℕ → ℕ) × ArePositions vertices left right removals.now shape.now x }
    ensures number { IfOk result (λ x. length x.items ≡ vertices) }
    ensures left { IfOk result (λ x. slice_index x.items left ≡ 0) }
    ensures top { IfOk result (λ x. slice_index x.items (removed_at removals.now 0).0
        ≡ slice_index shape.now.gap (removed_at removals.now 0).0) }
    ensures right { IfOk result (λ x. slice_index x.items right
        ≡ slice_index shape.now.gap (removed_at removals.now 0).0 + slice_index shape.now.gap right) }
    ensures kept { IfOk result (λ x. KeepsAll (slice_index x.items) shape.now removals.now 0) }
{
    let mut x = vec![in alloc; 0; vertices as usize]?;
    let top = removals[0].vertex();
    x[left as usize] = 0;
    x[top as usize] = shape.gap(top);
    x[right as usize] = shape.gap(top) + shape.gap(right);
    for removal in removals {
        spread_heads(&mut x, shape, removal);
    }
    Ok(x)
}
