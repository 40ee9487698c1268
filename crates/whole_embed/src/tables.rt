// The tables of a cut vertex, for its arrangements: its edges, their blocks, and what follows each edge in its block.

ghost use Rattle.std.specs.Prelude.{◌≡◌, ℕ, ◌+◌, length, true, false, IfOk, Contains};
ghost use Rattle.permutations.specs.Members.{is_member};
ghost use Rattle.choice_lists.specs.Order.{IsAt};
ghost use Rattle.choice_lists.specs.Products.{IsLast};
ghost use Rattle.arrangements.specs.Arranged.{first_arrangement};
ghost use Rattle.arrangements.specs.Tables.{AreTablesOf};
ghost use Rattle.whole_embed.specs.Component.{IsComponentInPlane};
ghost use Rattle.whole_embed.specs.Around.{edges_around, block_with, block_order, arrangements_around};
ghost use Rattle.whole_embed.specs.Cuts.{blocks_in, HavePlanes};
ghost use Rattle.whole_embed.specs.Keeping.{KeepsTables};

use crate::component::Frame;
use crate::members::Member;
use crate::numbering::{blocks_at, edges_at, follower_at, ranks_of};
use arrangements::VertexOrders;
use std::alloc::{AllocError, Global};

// The tables of cut vertex v.
pub(crate) fn tables_of(alloc: Global, frame: &Frame, v: u32) -> Result<VertexOrders, AllocError>
    requires { is_member v frame.now.cuts ≡ true }
    ensures { IfOk result (KeepsTables frame.now v) }
{
    let part = frame.part();
    let i = part.inner_vertex(v).unwrap();
    let edges = edges_at(alloc, part, i)?;
    let ranks = ranks_of(alloc, &blocks_at(alloc, frame, i)?)?;
    VertexOrders::new(alloc, edges, ranks)
}

// Sets what follows each edge at cut vertex v to what follows it in its block at present. Takes no memory.
pub(crate) fn renew(frame: &Frame, all: &[Member], v: u32, orders: &mut VertexOrders)
    requires vertex { is_member v frame.now.cuts ≡ true }
    requires component { IsComponentInPlane frame.now (blocks_in all.now) }
    requires planes { HavePlanes frame.now all.now }
    requires tables { KeepsTables frame.now v orders.old }
    ensures renewed { AreTablesOf orders.new (block_with frame.now)
        (block_order (blocks_in all.now) v) }
    ensures tables { KeepsTables frame.now v orders.new }
{
    let _ = orders.degree(); // for its promise alone
    let part = frame.part();
    let i = part.inner_vertex(v).unwrap();
    for inner in part.graph().incident(i) {
        let edge = part.edge(*inner);
        let b = frame.edge_blocks()[*inner as usize];
        orders.set_follower(edge, follower_at(&all[b as usize], v, edge));
    }
}

// Writes the first arrangement at cut vertex v. Takes no memory.
pub(crate) fn first_at(
    frame: &Frame,
    all: &[Member],
    v: u32,
    orders: &mut VertexOrders,
    list: &mut Vec<u32>,
)
    requires vertex { is_member v frame.now.cuts ≡ true }
    requires component { IsComponentInPlane frame.now (blocks_in all.now) }
    requires planes { HavePlanes frame.now all.now }
    requires tables { KeepsTables frame.now v orders.old }
    requires long { length list.old.items ≡ length (edges_around frame.now v) }
    ensures first { list.new.items ≡ first_arrangement (block_with frame.now)
        (block_order (blocks_in all.now) v) (edges_around frame.now v) }
    ensures long { length list.new.items ≡ length list.old.items }
    ensures tables { KeepsTables frame.now v orders.new }
{
    renew(frame, all, v, orders);
    orders.first(list);
}

// Goes to the arrangement at cut vertex v that follows; returns false and changes nothing exactly where the list is the last.
// Takes no memory.
pub(crate) fn next_at(
    frame: &Frame,
    all: &[Member],
    v: u32,
    orders: &mut VertexOrders,
    list: &mut Vec<u32>,
) -> bool
    requires vertex { is_member v frame.now.cuts ≡ true }
    requires component { IsComponentInPlane frame.now (blocks_in all.now) }
    requires planes { HavePlanes frame.now all.now }
    requires tables { KeepsTables frame.now v orders.old }
    requires arranged { Contains (arrangements_around frame.now (blocks_in all.now) v)
        list.old.items }
    ensures next { result ≡ true → (i : ℕ)
        → IsAt (arrangements_around frame.now (blocks_in all.now) v) i list.old.items
        → IsAt (arrangements_around frame.now (blocks_in all.now) v) (i + 1) list.new.items }
    ensures last { result ≡ false → IsLast (arrangements_around frame.now (blocks_in all.now) v)
        list.old.items }
    ensures as_before { result ≡ false → list.new.items ≡ list.old.items }
    ensures long { length list.new.items ≡ length list.old.items }
    ensures tables { KeepsTables frame.now v orders.new }
{
    renew(frame, all, v, orders);
    orders.next(list)
}
