// A component with an arrangement at each of its cut vertices.

ghost use Rattle.std.specs.Prelude.{◌≡◌, ℕ, ◌+◌, ◌<◌, true, false, [], List, length, map, slice_index, slice_index_or, slice_set, Contains, IfOk};
ghost use Rattle.permutations.specs.Members.{is_member, place_of};
ghost use Rattle.choice_lists.specs.Order.{IsAt};
ghost use Rattle.choice_lists.specs.Products.{IsLast};
ghost use Rattle.rotations.specs.Rotation.{IsCyclicOrder};
ghost use Rattle.blocks.specs.Blocks.{IsBlockStructure};
ghost use Rattle.arrangements.specs.Arranged.{first_arrangement};
ghost use Rattle.whole_embed.specs.Component.{component_of, AreInPlane, IsComponentInPlane};
ghost use Rattle.whole_embed.specs.Around.{edges_around, block_with, block_order, arrangements_around};
ghost use Rattle.whole_embed.specs.Cuts.{CutState, blocks_in, HavePlanes, set_around};
ghost use Rattle.whole_embed.specs.Keeping.{KeepsTables, KeepsCuts, AreFirstTo, tables_at};

use crate::component::Frame;
use crate::members::Member;
use crate::tables::{first_at, next_at, tables_of};
use arrangements::VertexOrders;
use blocks::Blocks;
use multigraph::Graph;
use std::alloc::{AllocError, Global};
use std::marker::Model;

/// A component of a graph with a list of the edges at each of its cut vertices, from the least edge on. Contracts see the
/// component and the lists, in order of the cut vertices.
#[derive(Debug, Drop)]
pub struct Cuts {
    pub(crate) frame: Frame,
    pub(crate) orders: Vec<VertexOrders>,
    pub(crate) lists: Vec<Vec<u32>>,
}

impl Model for Cuts {
    ghost use Rattle.std.specs.Prelude.{map};
    ghost use Rattle.whole_embed.specs.Cuts.{CutState};
    ghost use Rattle.whole_embed.specs.Keeping.{KeepsCuts};

    ghost Value = { CutState };

    ghost view = { λ c. record { component = c.frame; lists = map (λ l. l.items) c.lists.items } };

    ghost invariant = { λ c. KeepsCuts c.frame c.orders.items (map (λ l. l.items) c.lists.items) };
}

impl Cuts {
    /// Component `c` of a graph with its blocks, with the first arrangement at each cut vertex: the lexicographically smallest
    /// list. `all` has each block of the graph in order; those of the component are planar. Fails only if memory runs out.
    pub fn first(
        alloc: Global,
        graph: &Graph,
        blocks: &Blocks,
        c: u32,
        all: &[Member],
    ) -> Result<Cuts, AllocError>
        requires structure { IsBlockStructure graph.now blocks.now }
        requires component { c < blocks.now.component_count }
        requires blocks { AreInPlane graph.now blocks.now c (blocks_in all.now) }
        requires planes { HavePlanes (component_of graph.now blocks.now c) all.now }
        ensures component { IfOk result (λ cuts. cuts.component
            ≡ component_of graph.now blocks.now c) }
        ensures first { IfOk result (λ cuts. AreFirstTo cuts.component (blocks_in all.now) cuts.lists
            (length cuts.component.cuts)) }
    {
        graph.keeps_limits();
        let frame = Frame::of(alloc, graph, blocks, c)?;
        let orders = all_tables(alloc, &frame)?;
        let lists = blank_lists(alloc, &orders)?;
        let mut cuts = Cuts {
            frame,
            orders,
            lists,
        };
        for i in 0..cuts.count() {
            cuts.set_first(all, i);
        }
        Ok(cuts)
    }

    /// The component with its blocks and its cut vertices.
    pub fn frame(&self) -> &Frame
        ensures value { result.now ≡ self.now.component }
        ensures each { length self.now.lists ≡ length self.now.component.cuts }
    {
        &self.frame
    }

    /// The numbers of the blocks, increasing.
    pub fn blocks(&self) -> &[u32]
        ensures { result.now ≡ self.now.component.blocks }
    {
        self.frame.blocks()
    }

    /// The number of cut vertices.
    pub fn count(&self) -> usize
        ensures { result ≡ length self.now.component.cuts }
    {
        self.frame.cuts().len()
    }

    /// There is one list for each cut vertex. For proofs alone: does nothing.
    pub fn keeps(&self)
        ensures { length self.now.lists ≡ length self.now.component.cuts }
    {
        let _ = self.frame();
    }

    /// The list at the cut vertex at place `i`.
    pub fn list(&self, i: usize) -> &[u32]
        requires { i < length self.now.component.cuts }
        ensures { result.now ≡ slice_index_or self.now.lists i [] }
    {
        &self.lists[i]
    }

    /// Sets the first arrangement at the cut vertex at place `i`, for the present rotation systems of the blocks. All else stays. Takes
    /// no memory.
    pub fn set_first(&mut self, all: &[Member], i: usize)
        requires component { IsComponentInPlane self.old.component (blocks_in all.now) }
        requires planes { HavePlanes self.old.component all.now }
        requires within { i < length self.old.component.cuts }
        ensures { self.new ≡ record self.old {
          lists = slice_set self.old.lists i
              (first_arrangement (block_with self.old.component)
              (block_order (blocks_in all.now) (slice_index self.old.component.cuts i))
              (edges_around self.old.component (slice_index self.old.component.cuts i)));
        } }
    {
        let v = self.frame.cuts()[i];
        first_at(&self.frame, all, v, &mut self.orders[i], &mut self.lists[i]);
    }

    // Goes to the arrangement that follows at the cut vertex at place i; returns false and changes nothing exactly where the
    // present one is the last. Takes no memory.
    pub(crate) fn set_next(&mut self, all: &[Member], i: usize) -> bool
        requires component { IsComponentInPlane self.old.component (blocks_in all.now) }
        requires planes { HavePlanes self.old.component all.now }
        requires within { i < length self.old.component.cuts }
        requires arranged { Contains (arrangements_around self.old.component (blocks_in all.now)
            (slice_index self.old.component.cuts i)) (slice_index_or self.old.lists i []) }
        ensures next { result ≡ true → (list : List ℕ)
            × (self.new ≡ record self.old { lists = slice_set self.old.lists i list })
            × ((j : ℕ) → IsAt (arrangements_around self.old.component (blocks_in all.now)
            (slice_index self.old.component.cuts i)) j (slice_index_or self.old.lists i [])
            → IsAt (arrangements_around self.old.component (blocks_in all.now)
            (slice_index self.old.component.cuts i)) (j + 1) list) }
        ensures last { result ≡ false → IsLast (arrangements_around self.old.component
            (blocks_in all.now) (slice_index self.old.component.cuts i)) (slice_index_or self.old.lists i []) }
        ensures as_before { result ≡ false → self.new ≡ self.old }
    {
        let v = self.frame.cuts()[i];
        next_at(&self.frame, all, v, &mut self.orders[i], &mut self.lists[i])
    }

    // The place of cut vertex v.
    pub(crate) fn place(&self, v: u32) -> usize
        requires { is_member v self.now.component.cuts ≡ true }
        ensures is { result ≡ place_of self.now.component.cuts v }
        ensures within { result < length self.now.component.cuts }
    {
        self.frame.find_cut(v).unwrap()
    }
}

/// Sets the list at cut vertex `v`: a list of all its edges, from the least on. All else stays. Takes no memory.
pub fn set(cuts: &mut Cuts, v: u32, edges: &[u32])
    requires vertex { is_member v cuts.old.component.cuts ≡ true }
    requires edges { IsCyclicOrder (edges_around cuts.old.component v) edges.now }
    ensures { cuts.new ≡ set_around cuts.old v edges.now }
{
    let i = cuts.place(v);
    copy_to(&mut cuts.lists[i], edges);
}

// Writes numbers over as many others.
fn copy_to(list: &mut Vec<u32>, numbers: &[u32])
    requires { length list.old.items ≡ length numbers.now }
    ensures { list.new.items ≡ numbers.now }
{
    list.copy_from_slice(numbers);
}

// The tables of each cut vertex.
pub(crate) fn all_tables(alloc: Global, frame: &Frame) -> Result<Vec<VertexOrders>, AllocError>
    ensures each { IfOk result (λ orders. length orders.items ≡ length frame.now.cuts) }
    ensures tables { IfOk result (λ orders. (i : ℕ) → i < length frame.now.cuts
        → KeepsTables frame.now (slice_index frame.now.cuts i) (tables_at orders.items i)) }
{
    let mut orders = Vec::with_capacity(alloc, frame.cuts().len())?;
    for v in frame.cuts() {
        orders.push(tables_of(alloc, frame, *v)?)?;
    }
    Ok(orders)
}

// For each cut vertex a list of as many zeros as it has edges.
fn blank_lists(alloc: Global, orders: &[VertexOrders]) -> Result<Vec<Vec<u32>>, AllocError>
    ensures each { IfOk result (λ lists. length lists.items ≡ length orders.now) }
    ensures long { IfOk result (λ lists. (i : ℕ) → i < length orders.now
        → length (slice_index_or (map (λ l. l.items) lists.items) i []) ≡ length (tables_at orders.now i).edges) }
{
    let mut lists = Vec::with_capacity(alloc, orders.len())?;
    for tables in orders {
        lists.push(vec![in alloc; 0u32; tables.degree()]?)?;
    }
    Ok(lists)
}
