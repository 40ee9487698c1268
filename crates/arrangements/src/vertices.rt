// The arrangements of the edges around a vertex, one after another.

ghost use Rattle.std.specs.Prelude.{◌≡◌, ◌+◌, ◌<◌, ◌^◌, ◌↔◌, ℕ, nat_lt, true, false, length, IfOk, MatchOption, Contains, IsPermutation, slice_index, slice_set};
ghost use Rattle.permutations.specs.Members.{is_member, place_of};
ghost use Rattle.choice_lists.specs.Order.{IsAt, IsRising};
ghost use Rattle.choice_lists.specs.Products.{IsLast};
ghost use Rattle.arrangements.specs.Arranged.{arrangements_at, cross, first_arrangement};
ghost use Rattle.arrangements.specs.Tables.{VertexTables, rank_in, IsTables, HaveBlocks, HaveArrangement};
ghost use Rattle.arrangements.specs.Prefixes.{ForBlocks};
ghost use Rattle.arrangements.specs.Changed.{AreKept, IsLeastChangedRank};
ghost use Rattle.arrangements.specs.Crossings.{IsCrossingOf};

use crate::crossings::crossing_ranks;
use crate::groups::Groups;
use crate::kept::changed_rank;
use crate::making;
use crate::prefixes::Prefix;
use crate::tables::Tables;
use std::alloc::{AllocError, Global};
use std::marker::Model;

/// The edges at a vertex with the cyclic orders of its blocks: tables for making arrangements, and room for what is noted on the
/// way. Contracts view it as the tables.
#[derive(Debug, Drop)]
pub struct VertexOrders {
    tables: Tables,
    prefix: Prefix,
    expected: Vec<Option<u32>>,
    listed: Vec<u32>,
    met: Vec<u32>,
    groups: Groups,
}

impl Model for VertexOrders {
    ghost use Rattle.std.specs.Prelude.{◌≡◌, length};
    ghost use Rattle.arrangements.specs.Tables.{VertexTables};
    ghost use Rattle.arrangements.specs.Prefixes.{HasRoom};
    ghost use Rattle.arrangements.specs.Groups.{HaveRoom};

    ghost Value = { VertexTables };

    ghost view = { λ v. v.tables };

    ghost invariant = { λ v. HasRoom v.tables v.prefix
        × (length v.expected.items ≡ length v.tables.edges)
        × (length v.listed.items ≡ length v.tables.edges)
        × (length v.met.items ≡ length v.tables.edges)
        × HaveRoom v.groups (length v.tables.edges) };
}

impl VertexOrders {
    /// The edges at a vertex, increasing, and for each of them the rank of its block among the blocks at the vertex. Each edge
    /// follows itself, until another follower is set. Fails only if memory runs out.
    pub fn new(alloc: Global, edges: Vec<u32>, ranks: Vec<u32>) -> Result<VertexOrders, AllocError>
        requires increasing { IsRising nat_lt edges.items }
        requires few { length edges.items < 2 ^ 32 }
        requires each { length ranks.items ≡ length edges.items }
        requires ranks { (p : ℕ) → p < length edges.items → slice_index ranks.items p
            < length edges.items }
        ensures { IfOk result (λ v. v ≡ record {
          edges = edges.items;
          ranks = ranks.items;
          followers = edges.items;
        }) }
    {
        let prefix = Prefix::new(alloc, edges.len())?;
        let expected = vec![in alloc; None; edges.len()]?;
        let listed = vec![in alloc; 0; edges.len()]?;
        let met = vec![in alloc; 0; edges.len()]?;
        let groups = Groups::new(alloc, edges.len())?;
        let followers = Vec::from_slice(alloc, &edges)?;
        Ok(VertexOrders {
            tables: Tables::of(edges, ranks, followers),
            prefix,
            expected,
            listed,
            met,
            groups,
        })
    }

    /// How many edges there are.
    pub fn degree(&self) -> usize
        ensures degree { result ≡ length self.now.edges }
        ensures tables { IsTables self.now }
    {
        self.tables.keeps();
        self.tables.len()
    }

    /// The rank of the block of an edge.
    pub fn rank(&self, edge: u32) -> u32
        requires { is_member edge self.now.edges ≡ true }
        ensures { result ≡ rank_in self.now edge }
    {
        self.tables.keeps();
        self.tables.rank(self.tables.place(edge)) as u32
    }

    /// Sets the edge that follows an edge in the cyclic order of its block. Takes no memory.
    pub fn set_follower(&mut self, edge: u32, follower: u32)
        requires edge { is_member edge self.old.edges ≡ true }
        requires follower { is_member follower self.old.edges ≡ true }
        ensures { self.new ≡ record self.old {
          followers = slice_set self.old.followers
              (place_of self.old.edges edge) follower;
        } }
    {
        self.tables.set_follower(edge, follower);
    }

    /// Writes the first arrangement. Takes no memory.
    pub fn first(&mut self, into: &mut [u32])
        requires blocks { HaveBlocks self.old }
        requires all { length into.old ≡ length self.old.edges }
        ensures first { ForBlocks self.old (λ block order. into.new
            ≡ first_arrangement block order self.old.edges) }
        ensures tables { self.new ≡ self.old }
    {
        making::first(&self.tables, &mut self.prefix, into);
    }

    /// Goes to the arrangement that follows; returns false and changes nothing exactly where the list is the last. Takes no
    /// memory.
    pub fn next(&mut self, list: &mut [u32]) -> bool
        requires { HaveArrangement self.old list.old }
        ensures next { result ≡ true → ForBlocks self.old (λ block order. (i : ℕ)
            → IsAt (arrangements_at block order self.old.edges) i list.old
            → IsAt (arrangements_at block order self.old.edges) (i + 1) list.new) }
        ensures last { result ≡ false → ForBlocks self.old (λ block order.
            Contains (arrangements_at block order self.old.edges) list.old
            → IsLast (arrangements_at block order self.old.edges) list.old) }
        ensures unchanged { result ≡ false → list.new ≡ list.old }
        ensures tables { self.new ≡ self.old }
    {
        making::next(&self.tables, &mut self.prefix, list)
    }

    /// Whether the list is an arrangement. Takes no memory.
    pub fn is_arranged(&mut self, list: &[u32]) -> bool
        ensures exact { ForBlocks self.old (λ block order. (result ≡ true)
            ↔ Contains (arrangements_at block order self.old.edges) list.now) }
        ensures tables { self.new ≡ self.old }
    {
        making::is_arranged(&self.tables, &mut self.prefix, list)
    }

    /// The rank of the least block whose cyclic order the list changes; `None` exactly where it changes none. The list may begin
    /// with any edge. Takes no memory.
    pub fn changed_block(&mut self, list: &[u32]) -> Option<u32>
        requires { IsPermutation self.old.edges list.now }
        ensures exact { MatchOption result (ForBlocks self.old (λ block order. AreKept block order list.now))
            (λ rank. ForBlocks self.old (λ block order. IsLeastChangedRank self.old block order list.now rank)) }
        ensures tables { self.new ≡ self.old }
    {
        self.tables.keeps();
        let rank = changed_rank(&self.tables, &mut self.expected, list);
        if rank < self.tables.len() {
            return Some(rank as u32);
        }
        None
    }

    /// The ranks of the least two blocks that cross in the list; `None` exactly where no two do. The list may begin with any edge.
    /// Takes no memory, and time in proportion to the list, but for a search for each edge.
    pub fn crossing(&mut self, list: &[u32]) -> Option<(u32, u32)>
        requires { IsPermutation self.old.edges list.now }
        ensures exact { ForBlocks self.old (λ block order. MatchOption result ((b c : ℕ)
            → cross block b c list.now ≡ false)
            (λ pair. IsCrossingOf self.old block list.now pair.0 pair.1)) }
        ensures tables { self.new ≡ self.old }
    {
        crossing_ranks(
            &self.tables,
            &mut self.groups,
            &mut self.listed,
            &mut self.met,
            list,
        )
    }
}
