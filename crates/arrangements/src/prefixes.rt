// What is noted of a prefix while an arrangement is made edge by edge.

ghost use Rattle.std.specs.Prelude.{◌≡◌, ◌+◌, ◌<◌, ◌≤◌, ◌==◌, ◌&&◌, nat_lt, ℕ, true, false, List, [], length, take, IfOk, slice_index, slice_index_or};
ghost use Rattle.std.specs.Vec.{vec_capacity};
ghost use Rattle.permutations.specs.Members.{is_member};
ghost use Rattle.permutations.specs.Cyclic.{last_or};
ghost use Rattle.arrangements.specs.Options.{follower, is_option};
ghost use Rattle.arrangements.specs.Prefixes.{ForBuilt, HasGreater, NoneGreater, IsLeastFrom, HasRoom, IsNoted, IsTop, AreOpenedBetween, IsLeastUnopened, CanGoOn, without_top};

use crate::tables::Tables;
use std::alloc::{AllocError, Global};

// By place, whether the edge is in the prefix; by rank, whether the block has an edge in it; and of each unfinished block the edge
// that comes next, that of the block opened last on top, at the end.
#[derive(Debug, Drop)]
pub(crate) struct Prefix {
    used: Vec<bool>,
    opened: Vec<bool>,
    stack: Vec<u32>,
}

impl Prefix {
    // Room to note prefixes of this many edges.
    pub(crate) fn new(alloc: Global, count: usize) -> Result<Prefix, AllocError>
        ensures used { IfOk result (λ s. length s.used.items ≡ count) }
        ensures opened { IfOk result (λ s. length s.opened.items ≡ count) }
        ensures room { IfOk result (λ s. count ≤ vec_capacity s.stack) }
    {
        Ok(Prefix {
            used: vec![in alloc; false; count]?,
            opened: vec![in alloc; false; count]?,
            stack: Vec::with_capacity(alloc, count)?,
        })
    }

    // Notes the empty prefix.
    pub(crate) fn clear(&mut self, tables: &Tables)
        requires { HasRoom tables.now self.old }
        ensures { IsNoted tables.now self.new [] }
    {
        tables.keeps();
        self.used.fill(false);
        self.opened.fill(false);
        self.stack.clear();
    }

    // The top of the stack.
    fn top(&self) -> Option<u32>
        ensures { IsTop self.now.stack.items result }
    {
        self.stack.last().copied()
    }

    // Whether the edge is on top of the stack.
    fn is_top(&self, edge: u32) -> bool
        ensures { result ≡ (nat_lt 0 (length self.now.stack.items)
            && (last_or 0 self.now.stack.items == edge)) }
    {
        match self.top() {
            Some(top) => top == edge,
            None => false,
        }
    }

    // Takes the edge off the stack, where it is on top.
    fn pop(&mut self, edge: u32)
        ensures used { self.new.used ≡ self.old.used }
        ensures opened { self.new.opened ≡ self.old.opened }
        ensures room { vec_capacity self.new.stack ≡ vec_capacity self.old.stack }
        ensures stack { self.new.stack.items ≡ without_top self.old.stack.items edge }
    {
        if self.is_top(edge) {
            let _ = self.stack.pop();
        }
    }

    // Notes the edge at place i of the list, after those before it.
    pub(crate) fn lay(&mut self, tables: &Tables, list: &[u32], i: usize)
        requires place { (i < length list.now) × (i < length tables.now.edges) }
        requires edge { is_member (slice_index list.now i) tables.now.edges ≡ true }
        requires noted { IsNoted tables.now self.old (take i list.now) }
        ensures noted { IsNoted tables.now self.new (take (i + 1) list.now) }
        ensures opened { (r : ℕ) → slice_index_or self.old.opened.items r false ≡ true
            → slice_index_or self.new.opened.items r false ≡ true }
    {
        tables.keeps();
        let edge = list[i];
        let place = tables.place(edge);
        let next = tables.follower(place);
        self.pop(edge);
        self.used[place] = true;
        self.opened[tables.rank(place)] = true;
        if !self.used[tables.place(next)] {
            self.stack.push_reserved(next);
        }
    }

    // The least place from `low` on where the block of the edge is not opened, and the number of places if there is none.
    pub(crate) fn unopened_from(&self, tables: &Tables, low: usize) -> usize
        requires low { low ≤ length tables.now.edges }
        requires room { HasRoom tables.now self.now }
        ensures within { (low ≤ result) × (result ≤ length tables.now.edges) }
        ensures opened { AreOpenedBetween tables.now self.now.opened.items low result }
        ensures unopened { result < length tables.now.edges → slice_index_or self.now.opened.items
            (slice_index tables.now.ranks result) false ≡ false }
    {
        for place in low..tables.len() {
            if !self.opened[tables.rank(place)] {
                return place;
            }
        }
        tables.len()
    }

    // The number of places below `high` up to the greatest where the block of the edge is not opened; 0 if there is none.
    pub(crate) fn unopened_below(&self, tables: &Tables, high: usize) -> usize
        requires high { high ≤ length tables.now.edges }
        requires room { HasRoom tables.now self.now }
        ensures within { result ≤ high }
        ensures opened { AreOpenedBetween tables.now self.now.opened.items result high }
        ensures unopened { (p : ℕ) → result ≡ p + 1 → slice_index_or self.now.opened.items
            (slice_index tables.now.ranks p) false ≡ false }
    {
        let mut count = high;
        while count > 0 && self.opened[tables.rank(count - 1)] {
            count -= 1;
        }
        count
    }

    // Whether the edge at a place may come.
    pub(crate) fn may_come(&self, tables: &Tables, place: usize) -> bool
        requires place { place < length tables.now.edges }
        requires room { HasRoom tables.now self.now }
        ensures { (prefix : List ℕ) → IsNoted tables.now self.now prefix → ForBuilt tables.now prefix
            (λ block order. result ≡ is_option block (follower block order) tables.now.edges prefix
            (slice_index tables.now.edges place)) }
    {
        !self.opened[tables.rank(place)] || self.is_top(tables.edge(place))
    }

    // Whether an edge greater than this one may come, where `count` places are up to the greatest edge of a block not opened.
    pub(crate) fn may_be_greater(&self, tables: &Tables, edge: u32, count: usize) -> bool
        requires count { count ≤ length tables.now.edges }
        requires opened { AreOpenedBetween tables.now self.now.opened.items count
            (length tables.now.edges) }
        requires unopened { (p : ℕ) → count ≡ p + 1 → slice_index_or self.now.opened.items
            (slice_index tables.now.ranks p) false ≡ false }
        ensures some { (prefix : List ℕ) → IsNoted tables.now self.now prefix → result ≡ true
            → ForBuilt tables.now prefix (λ block order. HasGreater block (follower block order)
            tables.now.edges prefix edge) }
        ensures none { (prefix : List ℕ) → IsNoted tables.now self.now prefix → result ≡ false
            → ForBuilt tables.now prefix (λ block order. NoneGreater block (follower block order)
            tables.now.edges prefix edge) }
    {
        tables.keeps();
        if count > 0 && tables.edge(count - 1) > edge {
            return true;
        }
        match self.top() {
            Some(top) => top > edge,
            None => false,
        }
    }

    // The least edge that may come and is not below `from`, where `place` is the least place of such an edge of a block not
    // opened.
    pub(crate) fn option_from(&self, tables: &Tables, from: u64, place: usize) -> u32
        requires place { IsLeastUnopened tables.now self.now.opened.items from place }
        requires some { CanGoOn tables.now self.now.stack.items from place }
        ensures { (prefix : List ℕ) → IsNoted tables.now self.now prefix
            → IsLeastFrom tables.now prefix from result
            × (is_member result tables.now.edges ≡ true) }
    {
        tables.keeps();
        let Some(top) = self.top() else {
            return tables.edge(place);
        };
        if (top as u64) < from {
            return tables.edge(place);
        }
        if tables.is_less(top, place) {
            return top;
        }
        tables.edge(place)
    }
}
