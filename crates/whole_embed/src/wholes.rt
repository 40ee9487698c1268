// The rotation system of a component.

ghost use Rattle.std.specs.Prelude.{◌≡◌, ◌<◌, length, map, slice_index, IfOk, Some};
ghost use Rattle.faces.specs.Euler.{IsPlaneSystem};
ghost use Rattle.skel_embed.specs.Block.{BlockState};
ghost use Rattle.skel_embed.specs.Taken.{IsGiven};
ghost use Rattle.whole_embed.specs.Component.{IsComponentInPlane};
ghost use Rattle.whole_embed.specs.Around.{outer_at, edges_around};
ghost use Rattle.whole_embed.specs.Cuts.{blocks_in, HavePlanes};
ghost use Rattle.whole_embed.specs.Whole.{AreArranged, first_order, whole_lists, whole_system};
ghost use Rattle.whole_embed.specs.Keeping.{HasVertex};

use crate::component::Frame;
use crate::cuts::Cuts;
use crate::members::Member;
use rotations::Lists;
use std::alloc::{AllocError, Global};

// The cyclic order of a block around vertex v, from the least edge on.
fn order_in(alloc: Global, member: &Member, v: u32) -> Result<Vec<u32>, AllocError>
    requires { HasVertex member.now v }
    ensures { IfOk result (λ order. (p : BlockState) → member.now.plane ≡ Some p
        → order.items ≡ outer_at member.now.part p.rotation v) }
{
    let mut order = Vec::new(alloc);
    match &member.plane {
        Some(plane) => {
            let part = &member.part;
            part.keeps_numbers();
            plane.belongs();
            let mut round = plane.rotation().list(part.inner_vertex(v).unwrap());
            while let Some(edge) = round.next() {
                order.push(part.edge(edge))?;
            }
        }
        None => unreachable!(),
    }
    Ok(order)
}

// The cyclic order around vertex i of the part in the block of its first edge; none where it has no edge.
fn own_order(alloc: Global, frame: &Frame, all: &[Member], i: u32) -> Result<Vec<u32>, AllocError>
    requires vertex { i < frame.now.part.graph.vertex_count }
    requires component { IsComponentInPlane frame.now (blocks_in all.now) }
    requires planes { HavePlanes frame.now all.now }
    ensures { IfOk result (λ order. order.items ≡ first_order frame.now (blocks_in all.now)
        (slice_index frame.now.part.vertices i)
        (edges_around frame.now (slice_index frame.now.part.vertices i))) }
{
    let part = frame.part();
    match part.graph().incident(i).first() {
        Some(edge) => {
            let b = frame.edge_blocks()[*edge as usize];
            order_in(alloc, &all[b as usize], part.vertex(i))
        }
        None => Ok(Vec::new(alloc)),
    }
}

// Each vertex of the component with the cyclic order around it, from the least edge on.
pub(crate) fn lists_around(
    alloc: Global,
    frame: &Frame,
    lists: &[Vec<u32>],
    all: &[Member],
) -> Result<Lists, AllocError>
    requires component { IsComponentInPlane frame.now (blocks_in all.now) }
    requires planes { HavePlanes frame.now all.now }
    requires each { length lists.now ≡ length frame.now.cuts }
    ensures { IfOk result (λ whole. whole ≡ whole_lists frame.now (blocks_in all.now)
        (map (λ l. l.items) lists.now)) }
{
    let part = frame.part();
    let mut whole = Lists::new(alloc);
    for i in 0..part.graph().vertex_count() {
        let v = part.vertex(i);
        match frame.find_cut(v) {
            Some(place) => whole.push(v, &lists[place])?,
            None => whole.push(v, &own_order(alloc, frame, all, i)?)?,
        }
    }
    Ok(whole)
}

/// The rotation system of the component: each of its vertices, increasing, with the cyclic order of its edges around it, from the
/// least edge on. At a cut vertex this is the list that is kept, elsewhere the present order of the one block. It is plane.
/// `all` has each block of the graph in order, and the lists that are kept are arrangements for their present rotation systems.
/// Fails only if memory runs out.
pub fn whole(alloc: Global, cuts: &Cuts, all: &[Member]) -> Result<Lists, AllocError>
    requires component { IsComponentInPlane cuts.now.component (blocks_in all.now) }
    requires planes { HavePlanes cuts.now.component all.now }
    requires arranged { AreArranged cuts.now.component (blocks_in all.now) cuts.now.lists }
    ensures lists { IfOk result (λ whole. whole ≡ whole_lists cuts.now.component
        (blocks_in all.now) cuts.now.lists) }
    ensures given { IfOk result (λ whole. IsGiven cuts.now.component.part whole
        (whole_system cuts.now.component (blocks_in all.now) cuts.now.lists)) }
    ensures plane { IsPlaneSystem cuts.now.component.part.graph
        (whole_system cuts.now.component (blocks_in all.now) cuts.now.lists) }
{
    lists_around(alloc, &cuts.frame, &cuts.lists, all)
}
