// Prefixes of the edges off a tree, with some other edges and the paths of the tree up from the ends of all these; and the search
// for the least prefix that is not planar.

use crate::forest::{SearchTree, breadth_first};
use quick_rotation::access::{NONE, at, is_marked, mark, number, put};
use quick_rotation::{Bins, EdgeEnds, PartTest};
use std::alloc::{AllocError, Global};

// How many edges off a tree are planar with any part of it: a subdivision of K3,3 has four.
const ALWAYS_PLANAR: usize = 3;

// How many edges off a tree are many.
const MANY: u32 = 700;

// A prefix as it is collected: its edges, and its number at each vertex that it reaches. The next one takes its memory.
#[derive(Drop)]
struct Prefix {
    edges: Vec<u32>,
    number: u32,
    reached: Vec<u32>,
}

// Marks the edges.
fn mark_all(marks: &mut [bool], edges: &[u32]) {
    for edge in edges {
        mark(marks, *edge);
    }
}

// Marks on the edges of the paths, among this many edges.
fn marks_of(alloc: Global, edges: u32, paths: &[Vec<u32>]) -> Result<Vec<bool>, AllocError> {
    let mut marks = vec![in alloc; false; edges as usize]?;
    for path in paths {
        mark_all(&mut marks, path);
    }
    Ok(marks)
}

impl Prefix {
    // Begins the next prefix.
    fn begin(&mut self) {
        self.edges.clear();
        self.number = self.number.saturating_add(1);
    }

    // The path up from the vertex, as far as it is not there yet.
    fn climb(&mut self, list: &EdgeEnds, tree: &SearchTree, vertex: u32) -> Result<(), AllocError> {
        let mut here = vertex;
        for _ in 0..list.vertices {
            let dart = at(&tree.up, here);
            if at(&self.reached, here) == self.number {
                break;
            }
            put(&mut self.reached, here, self.number);
            if dart == NONE {
                break;
            }
            self.edges.push(dart / 2)?;
            here = list.head(dart);
        }
        Ok(())
    }

    // These edges, with the paths up from their ends.
    fn take(
        &mut self,
        list: &EdgeEnds,
        tree: &SearchTree,
        edges: &[u32],
    ) -> Result<(), AllocError> {
        for edge in edges {
            self.edges.push(*edge)?;
            let dart = edge.saturating_mul(2);
            self.climb(list, tree, list.tail(dart))?;
            self.climb(list, tree, list.head(dart))?;
        }
        Ok(())
    }

    // The first edges off the tree, this many, with the paths up from their ends.
    fn take_first(
        &mut self,
        list: &EdgeEnds,
        tree: &SearchTree,
        count: usize,
    ) -> Result<(), AllocError> {
        let count = count.min(tree.others.len());
        self.take(list, tree, &tree.others[..count])
    }
}

// Prefixes of some edges of a list, from a root on, and how many edges the tests have examined.
#[derive(Drop)]
pub(crate) struct Prefixes<'a> {
    alloc: Global,
    list: &'a EdgeEnds,
    tree: SearchTree,
    prefix: Prefix,
    pub(crate) spent: u64,
}

impl<'a> Prefixes<'a> {
    // The prefixes of the edges of these darts, from the root on along a breadth-first tree.
    pub(crate) fn from(
        alloc: Global,
        list: &'a EdgeEnds,
        around: &Bins,
        root: u32,
    ) -> Result<Prefixes<'a>, AllocError> {
        let marks = vec![in alloc; false; list.vertices as usize]?;
        let tree = breadth_first(alloc, list, around, root, NONE, marks)?;
        let prefix = Prefix {
            edges: Vec::new(alloc),
            number: 0,
            reached: vec![in alloc; NONE; list.vertices as usize]?,
        };
        Ok(Prefixes {
            alloc,
            list,
            tree,
            prefix,
            spent: 0,
        })
    }

    // How many edges are off the tree.
    pub(crate) fn count(&self) -> u32 {
        number(self.tree.others.len())
    }

    // The last edge of the prefix of this many.
    pub(crate) fn last_edge(&self, count: u32) -> u32 {
        at(&self.tree.others, count.saturating_sub(1))
    }

    // Collects the prefix of this many edges and these.
    fn collect(&mut self, count: u32, needed: &[u32]) -> Result<(), AllocError> {
        self.prefix.begin();
        self.prefix
            .take_first(self.list, &self.tree, count as usize)?;
        self.prefix.take(self.list, &self.tree, needed)
    }

    // The prefix of this many edges and these.
    pub(crate) fn prefix(&mut self, count: u32, needed: &[u32]) -> Result<Vec<u32>, AllocError> {
        self.collect(count, needed)?;
        Vec::from_slice(self.alloc, &self.prefix.edges)
    }

    // Of the edges off the tree keeps the first ones, this many, and those of the paths. Returns how many are left.
    pub(crate) fn keep_near(&mut self, near: u32, paths: &[Vec<u32>]) -> Result<u32, AllocError> {
        let alloc = self.alloc;
        let marks = marks_of(alloc, self.list.edge_count(), paths)?;
        let mut kept = Vec::new(alloc);
        for (k, edge) in self.tree.others.iter().enumerate() {
            if number(k) < near || is_marked(&marks, *edge) {
                kept.push(*edge)?;
            }
        }
        self.tree.others = kept;
        Ok(self.count())
    }

    // Whether this prefix is planar.
    pub(crate) fn is_planar(
        &mut self,
        test: &mut PartTest,
        count: u32,
        needed: &[u32],
    ) -> Result<bool, AllocError> {
        self.collect(count, needed)?;
        self.spent = self.spent.saturating_add(self.prefix.edges.len() as u64);
        if (count as usize).saturating_add(needed.len()) <= ALWAYS_PLANAR {
            return Ok(true);
        }
        test.is_planar(self.list, &self.prefix.edges)
    }

    // The least count above `low` and up to `high` for which the prefix is not planar, where the one for `high` is not. By
    // bisection.
    fn least(
        &mut self,
        test: &mut PartTest,
        low: u32,
        high: u32,
        needed: &[u32],
    ) -> Result<u32, AllocError> {
        let (mut low, mut high) = (low, high);
        for _ in 0..32 {
            let middle = low.saturating_add(high.saturating_sub(low) / 2);
            if middle <= low {
                break;
            }
            if self.is_planar(test, middle, needed)? {
                low = middle;
            } else {
                high = middle;
            }
        }
        Ok(high)
    }

    // The least count up to `high` for which the prefix with these edges is not planar, where the one for `high` is not. Often it
    // is `high` itself, which is tried first.
    pub(crate) fn last(
        &mut self,
        test: &mut PartTest,
        high: u32,
        needed: &[u32],
    ) -> Result<u32, AllocError> {
        let below = high.saturating_sub(1);
        if self.is_planar(test, below, needed)? {
            return Ok(high);
        }
        self.least(test, 0, below, needed)
    }

    // The least count for which the prefix is not planar; `None` where many edges are and more than a quarter of all.
    pub(crate) fn first(&mut self, test: &mut PartTest) -> Result<Option<u32>, AllocError> {
        let most = (self.count() / 4).max(MANY);
        let mut low = 0;
        let mut high: u32 = 8;
        for _ in 0..32 {
            if high >= self.count() {
                high = self.count();
                break;
            }
            if high > most {
                return Ok(None);
            }
            if !self.is_planar(test, high, &[])? {
                break;
            }
            low = high;
            high = high.saturating_mul(2);
        }
        Ok(Some(self.least(test, low, high, &[])?))
    }
}
