// Another arrangement at a cut vertex, and why a list is none.

ghost use Rattle.std.specs.Prelude.{◌≡◌, ℕ, ◌<◌, true, length, IfOk, IfErr, OnErr, Contains};
ghost use Rattle.permutations.specs.Members.{is_member};
ghost use Rattle.permutations.specs.Cyclic.{from_least};
ghost use Rattle.arrangements.specs.Tables.{rank_in};
ghost use Rattle.whole_embed.specs.Component.{IsComponentInPlane};
ghost use Rattle.whole_embed.specs.Around.{arrangements_around};
ghost use Rattle.whole_embed.specs.Cuts.{blocks_in, HavePlanes, set_around, IsRegroupRefusal};
ghost use Rattle.whole_embed.specs.Keeping.{KeepsTables, IsFoundRank};

use crate::component::Frame;
use crate::cuts::Cuts;
use crate::faults::RegroupFault;
use crate::members::Member;
use crate::numbering::{blocks_at, edges_at};
use crate::ordering::cyclic_order;
use crate::tables::renew;
use arrangements::VertexOrders;
use std::alloc::Global;

// The block, of those of the edges at a vertex in order, of the edges of a rank.
fn block_of_rank(at: &[u32], numbers: &[u32], orders: &VertexOrders, rank: u32) -> u32
    requires edges { orders.now.edges ≡ at.now }
    requires each { length numbers.now ≡ length at.now }
    requires some { (e : ℕ) × (is_member e orders.now.edges ≡ true) × (rank_in orders.now e ≡ rank) }
    ensures { IsFoundRank orders.now at.now numbers.now rank result }
{
    for p in 0..at.len() {
        if orders.rank(at[p]) == rank {
            return numbers[p];
        }
    }
    unreachable!()
}

// The arrangement at cut vertex v that a list is from its least edge on, or why it is none.
fn arrange_at(
    alloc: Global,
    frame: &Frame,
    all: &[Member],
    v: u32,
    orders: &mut VertexOrders,
    edges: &[u32],
) -> Result<Vec<u32>, RegroupFault>
    requires vertex { is_member v frame.now.cuts ≡ true }
    requires component { IsComponentInPlane frame.now (blocks_in all.now) }
    requires planes { HavePlanes frame.now all.now }
    requires tables { KeepsTables frame.now v orders.old }
    ensures list { IfOk result (λ list. list.items ≡ from_least edges.now) }
    ensures arranged { IfOk result (λ list. Contains (arrangements_around frame.now
        (blocks_in all.now) v) list.items) }
    ensures refused { IfErr result (IsRegroupRefusal frame.now (blocks_in all.now) v edges.now) }
    ensures tables { KeepsTables frame.now v orders.new }
{
    let part = frame.part();
    let i = part.inner_vertex(v).unwrap();
    let at = edges_at(alloc, part, i)?;
    let numbers = blocks_at(alloc, frame, i)?;
    let Some(list) = cyclic_order(alloc, &at, edges)? else {
        return Err(RegroupFault::BadRotation(v));
    };
    renew(frame, all, v, orders);
    if let Some(rank) = orders.changed_block(&list) {
        return Err(RegroupFault::BlockOrder(block_of_rank(&at, &numbers, orders, rank)));
    }
    if let Some(pair) = orders.crossing(&list) {
        let b = block_of_rank(&at, &numbers, orders, pair.0);
        let c = block_of_rank(&at, &numbers, orders, pair.1);
        return Err(RegroupFault::Cross(b, c));
    }
    Ok(list)
}

/// Sets the list at cut vertex `v` to a cyclic order of its edges, which is given from any of them on and kept from the least
/// on. All else stays. `all` has each block of the graph in order.
///
/// Fails with `BadRotation(v)` exactly where the list is not an ordering of the edges at `v`; else with `BlockOrder(b)` exactly
/// where it changes the cyclic order that a block has around `v`, b the least such block; else with `Cross(b, c)` exactly where
/// edges of two blocks alternate, b and c the least such pair; fails with `Memory` only if memory runs out. Nothing changes then.
/// Takes n log n time for n edges at `v`.
pub fn regroup(
    alloc: Global,
    cuts: &mut Cuts,
    all: &[Member],
    v: u32,
    edges: &[u32],
) -> Result<(), RegroupFault>
    requires vertex { is_member v cuts.old.component.cuts ≡ true }
    requires component { IsComponentInPlane cuts.old.component (blocks_in all.now) }
    requires planes { HavePlanes cuts.old.component all.now }
    ensures arranged { IfOk result (λ _. Contains (arrangements_around cuts.old.component
        (blocks_in all.now) v) (from_least edges.now)) }
    ensures set { IfOk result (λ _. cuts.new ≡ set_around cuts.old v (from_least edges.now)) }
    ensures refused { IfErr result (IsRegroupRefusal cuts.old.component
        (blocks_in all.now) v edges.now) }
    ensures as_before { OnErr result (cuts.new ≡ cuts.old) }
{
    let i = cuts.place(v);
    let list = arrange_at(alloc, &cuts.frame, all, v, &mut cuts.orders[i], edges)?;
    cuts.lists[i] = list;
    Ok(())
}
