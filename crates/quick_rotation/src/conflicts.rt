// The left-right test: whether the back edges can be partitioned into left and right ones (de Fraysseix and Rosenstiehl 1982;
// Brandes 2009). On the way of the search a stack holds pairs of intervals of back edges that must lie on different sides.

use crate::access::{NONE, at, mark, number, put, renew, renew_marks};
use crate::brackets::Brackets;
use crate::palm::Palm;
use std::alloc::{AllocError, Global};

// An interval of back edges, from the one that returns lowest to the one that returns highest; each refers to the next lower
// one. Where it is empty, both are `NONE`.
#[derive(Clone, Copy)]
struct Interval {
    low: u32,
    high: u32,
}

const EMPTY: Interval = Interval {
    low: NONE,
    high: NONE,
};

impl Interval {
    // Whether it is empty.
    fn is_empty(self) -> bool {
        self.low == NONE
    }

    // Whether its highest edge returns above this height.
    fn conflicts(self, palm: &Palm, height: u32) -> bool {
        !self.is_empty() && at(&palm.low, self.high) > height
    }

    // The interval with a lower one below it.
    fn over(self, refs: &mut [u32], lower: Interval) -> Interval {
        if lower.is_empty() {
            return self;
        }
        if self.is_empty() {
            return lower;
        }
        put(refs, self.low, lower.high);
        Interval {
            low: lower.low,
            high: self.high,
        }
    }
}

// Two intervals that must lie on different sides.
#[derive(Clone, Copy)]
struct ConflictPair {
    left: Interval,
    right: Interval,
}

impl ConflictPair {
    // The same with left and right exchanged.
    fn mirror(self) -> ConflictPair {
        ConflictPair {
            left: self.right,
            right: self.left,
        }
    }

    // The height to which its lowest edge returns.
    fn lowest(self, palm: &Palm) -> u32 {
        at(&palm.low, self.left.low).min(at(&palm.low, self.right.low))
    }
}

// What the test knows so far: the stack, and of each edge how high the stack was when it was taken, its lowest back edge, the
// edge that determines its side, and whether it is on the other side than that one.
#[derive(Drop)]
pub(crate) struct Conflicts {
    pairs: Vec<ConflictPair>,
    bottom: Vec<u32>,
    lowest: Vec<u32>,
    pub(crate) refs: Vec<u32>,
    pub(crate) turned: Vec<bool>,
}

impl Conflicts {
    // No edges.
    pub(crate) fn new(alloc: Global) -> Conflicts {
        Conflicts {
            pairs: Vec::new(alloc),
            bottom: Vec::new(alloc),
            lowest: Vec::new(alloc),
            refs: Vec::new(alloc),
            turned: Vec::new(alloc),
        }
    }

    // This many edges, of which none is taken yet.
    fn begin(&mut self, edges: usize) -> Result<(), AllocError> {
        self.pairs.clear();
        renew(&mut self.bottom, edges, 0)?;
        renew(&mut self.lowest, edges, NONE)?;
        renew(&mut self.refs, edges, NONE)?;
        renew_marks(&mut self.turned, edges)
    }

    // The edge is taken.
    fn open(&mut self, palm: &Palm, edge: u32) -> Result<(), AllocError> {
        put(&mut self.bottom, edge, number(self.pairs.len()));
        if palm.is_tree(edge) {
            return Ok(());
        }
        put(&mut self.lowest, edge, edge);
        let right = Interval {
            low: edge,
            high: edge,
        };
        self.pairs.push(ConflictPair { left: EMPTY, right })?;
        Ok(())
    }

    // The intervals that the edge put on the stack become one, which is returned; what returns as low as the parent edge is on
    // the side of its lowest edge. `None` where they can't all be on one side.
    fn own_interval(&mut self, palm: &Palm, edge: u32, parent: u32) -> Option<Interval> {
        let mut own = EMPTY;
        let bottom = at(&self.bottom, edge) as usize;
        for _ in bottom..self.pairs.len() {
            let Some(top) = self.pairs.pop() else {
                break;
            };
            let pair = if top.left.is_empty() {
                top
            } else {
                top.mirror()
            };
            if !pair.left.is_empty() {
                return None;
            }
            if at(&palm.low, pair.right.low) > at(&palm.low, parent) {
                own = own.over(&mut self.refs, pair.right);
            } else {
                put(&mut self.refs, pair.right.low, at(&self.lowest, parent));
            }
        }
        Some(own)
    }

    // Takes the top of the stack where it conflicts with an edge that returns to this height.
    fn take_conflicting(&mut self, palm: &Palm, height: u32) -> Option<ConflictPair> {
        let top = self.pairs.last().copied()?;
        if top.left.conflicts(palm, height) || top.right.conflicts(palm, height) {
            return self.pairs.pop();
        }
        None
    }

    // The pairs that conflict with the edge become one with its own interval, which is the right one. `None` where one of them
    // conflicts on both sides.
    fn merge(&mut self, palm: &Palm, edge: u32, own: Interval) -> Option<ConflictPair> {
        let mut merged = ConflictPair {
            left: EMPTY,
            right: own,
        };
        let height = at(&palm.low, edge);
        for _ in 0..self.pairs.len() {
            let Some(top) = self.take_conflicting(palm, height) else {
                break;
            };
            let pair = if top.right.conflicts(palm, height) {
                top.mirror()
            } else {
                top
            };
            if pair.right.conflicts(palm, height) {
                return None;
            }
            merged.right = merged.right.over(&mut self.refs, pair.right);
            merged.left = merged.left.over(&mut self.refs, pair.left);
        }
        Some(merged)
    }

    // The constraints of an edge that is not the first at its tail. Returns whether they can be satisfied.
    fn add(&mut self, palm: &Palm, edge: u32, parent: u32) -> Result<bool, AllocError> {
        let Some(own) = self.own_interval(palm, edge, parent) else {
            return Ok(false);
        };
        let Some(pair) = self.merge(palm, edge, own) else {
            return Ok(false);
        };
        if !pair.left.is_empty() || !pair.right.is_empty() {
            self.pairs.push(pair)?;
        }
        Ok(true)
    }

    // Drops the pairs of which all edges return to this height.
    fn drop_pairs(&mut self, palm: &Palm, height: u32) {
        for _ in 0..self.pairs.len() {
            let Some(pair) = self.pairs.last().copied() else {
                break;
            };
            if pair.lowest(palm) != height {
                break;
            }
            let _ = self.pairs.pop();
            mark(&mut self.turned, pair.left.low);
        }
    }

    // The highest edge of the interval that does not return to the vertex.
    fn high_off(&self, palm: &Palm, high: u32, vertex: u32) -> u32 {
        let mut at_most = high;
        for _ in 0..self.refs.len() {
            if at_most == NONE || at(&palm.head, at_most) != vertex {
                break;
            }
            at_most = at(&self.refs, at_most);
        }
        at_most
    }

    // The interval without the edges that return to the vertex. Where none is left, the side of its lowest edge is determined by
    // the lowest one of the other interval.
    fn trim_interval(
        &mut self,
        palm: &Palm,
        interval: Interval,
        other: u32,
        vertex: u32,
    ) -> Interval {
        if interval.is_empty() {
            return EMPTY;
        }
        let high = self.high_off(palm, interval.high, vertex);
        if high == NONE {
            put(&mut self.refs, interval.low, other);
            mark(&mut self.turned, interval.low);
            return EMPTY;
        }
        Interval {
            low: interval.low,
            high,
        }
    }

    // The back edges that return to the tail of the tree edge are taken off the stack; the tree edge is on the side of the
    // highest one that is left.
    fn trim(&mut self, palm: &Palm, edge: u32) -> Result<(), AllocError> {
        let vertex = at(&palm.tail, edge);
        let height = at(&palm.height, vertex);
        self.drop_pairs(palm, height);
        let Some(pair) = self.pairs.pop() else {
            return Ok(());
        };
        let left = self.trim_interval(palm, pair.left, pair.right.low, vertex);
        let right = self.trim_interval(palm, pair.right, left.low, vertex);
        self.pairs.push(ConflictPair { left, right })?;
        if at(&palm.low, edge) < height {
            let left_higher = right.is_empty()
                || at(&palm.low, left.high) > at(&palm.low, right.high);
            let side = if !left.is_empty() && left_higher {
                left.high
            } else {
                right.high
            };
            put(&mut self.refs, edge, side);
        }
        Ok(())
    }

    // The search returns from the edge. Returns whether the constraints so far can be satisfied.
    fn close(&mut self, palm: &Palm, out: &[u32], edge: u32) -> Result<bool, AllocError> {
        if palm.is_tree(edge) {
            self.trim(palm, edge)?;
        }
        let parent = palm.parent_of(edge);
        if parent == NONE || at(&palm.low, edge) >= palm.tail_height(edge) {
            return Ok(true);
        }
        if at(out, 0) == edge {
            let lowest = at(&self.lowest, edge);
            put(&mut self.lowest, parent, lowest);
            return Ok(true);
        }
        self.add(palm, edge, parent)
    }

    // One step of the way.
    fn step(&mut self, palm: &Palm, brackets: &Brackets, bracket: u32) -> Result<bool, AllocError> {
        let edge = bracket / 2;
        if bracket % 2 == 0 {
            self.open(palm, edge)?;
            return Ok(true);
        }
        let out = brackets.out.bin(at(&palm.tail, edge));
        self.close(palm, out, edge)
    }

    // The test along the whole way. Returns whether the back edges can be partitioned.
    pub(crate) fn test(&mut self, palm: &Palm, brackets: &Brackets) -> Result<bool, AllocError> {
        self.begin(palm.tail.len())?;
        for bracket in &brackets.way {
            if !self.step(palm, brackets, *bracket)? {
                return Ok(false);
            }
        }
        Ok(true)
    }
}
