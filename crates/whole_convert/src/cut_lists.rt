// The arrangements at the cut vertices of a component after moves of its blocks, and those that are then still to be made.

ghost use Rattle.std.specs.Prelude.{◌≡◌, ℕ, ◌<◌, ◌++◌, true, [], length, map, slice_index, slice_index_or, IfOk};
ghost use Rattle.std.specs.List.{list_any};
ghost use Rattle.multigraph.specs.Graph.{incident_edges};
ghost use Rattle.rotations.specs.Rotation.{IsCyclicOrder, IsRotationSystem};
ghost use Rattle.whole_embed.specs.Around.{edges_around, outer_at};
ghost use Rattle.whole_embed.specs.Component.{IsComponentInPlane};
ghost use Rattle.whole_embed.specs.Cuts.{blocks_in, HavePlanes};
ghost use Rattle.whole_convert.specs.Between.{as_steps, list_then, arrangements_below};
ghost use Rattle.whole_convert.specs.Led.{is_marked, AreWithin};

use crate::orders::order_around;
use crate::steps::WholeMove;
use multigraph::Numbers;
use rotations::Rotation;
use std::alloc::{AllocError, Global};
use whole_embed::{Cuts, Frame, Member, set};

// Whether a block with an edge at vertex i of the component is marked.
fn is_marked_at(frame: &Frame, marks: &[bool], i: u32) -> bool
    requires vertex { i < frame.now.part.graph.vertex_count }
    requires within { AreWithin frame.now (length marks.now) }
    ensures { result ≡ list_any (λ x. is_marked marks.now (slice_index frame.now.edge_blocks x))
        (incident_edges frame.now.part.graph i) }
{
    for edge in frame.part().graph().incident(i) {
        let b = frame.edge_blocks()[*edge as usize];
        if marks[b as usize] {
            return true;
        }
    }
    false
}

// A copy of the component with the arrangements at its cut vertices, where those around which a block is marked have their first ones.
pub(crate) fn cuts_then(
    alloc: Global,
    cuts: &Cuts,
    new: &[Member],
    marks: &[bool],
) -> Result<Cuts, AllocError>
    requires component { IsComponentInPlane cuts.now.component (blocks_in new.now) }
    requires planes { HavePlanes cuts.now.component new.now }
    requires within { AreWithin cuts.now.component (length marks.now) }
    ensures component { IfOk result (λ after. after.component ≡ cuts.now.component) }
    ensures lists { IfOk result (λ after. (i : ℕ) → i < length cuts.now.component.cuts
        → slice_index_or after.lists i [] ≡ list_then cuts.now.component (blocks_in new.now)
        (is_marked marks.now) cuts.now.lists i) }
{
    cuts.keeps();
    let mut after = cuts.copy(alloc)?;
    for i in 0..cuts.count() {
        let frame = cuts.frame();
        let v = frame.part().inner_vertex(frame.cuts()[i]).unwrap();
        if is_marked_at(frame, marks, v) {
            after.set_first(new, i);
        }
    }
    Ok(after)
}

// Appends an arrangement for each cut vertex around which the rotation system has another one than the list that is kept there.
pub(crate) fn add_arrangements(
    alloc: Global,
    after: &Cuts,
    q: &Rotation,
    list: &mut Vec<WholeMove>,
) -> Result<(), AllocError>
    requires { IsRotationSystem after.now.component.part.graph q.now }
    ensures { IfOk result (λ _. as_steps list.new.items ≡ as_steps list.old.items
        ++ arrangements_below after.now.component (λ i. slice_index_or after.now.lists i []) q.now
        (length after.now.component.cuts)) }
{
    let frame = after.frame();
    for i in 0..after.count() {
        let v = frame.cuts()[i];
        let order = order_around(alloc, frame.part(), q, v)?;
        if order.as_slice() != after.list(i) {
            list.push(WholeMove::Regroup(v, Numbers::of(order)))?;
        }
    }
    Ok(())
}

// Sets the list that the rotation system has around each cut vertex.
pub(crate) fn arrange_all(alloc: Global, cuts: &mut Cuts, q: &Rotation) -> Result<(), AllocError>
    requires system { IsRotationSystem cuts.old.component.part.graph q.now }
    requires orders { (i : ℕ) → i < length cuts.old.component.cuts
        → IsCyclicOrder (edges_around cuts.old.component (slice_index cuts.old.component.cuts i))
        (outer_at cuts.old.component.part q.now (slice_index cuts.old.component.cuts i)) }
    ensures component { IfOk result (λ _. cuts.new.component ≡ cuts.old.component) }
    ensures lists { IfOk result (λ _. cuts.new.lists
        ≡ map (outer_at cuts.old.component.part q.now) cuts.old.component.cuts) }
{
    cuts.keeps();
    for i in 0..cuts.count() {
        let frame = cuts.frame();
        let v = frame.cuts()[i];
        let order = order_around(alloc, frame.part(), q, v)?;
        set(cuts, v, &order);
    }
    Ok(())
}
