// Lists of edges, the darts at each vertex, and the part that some edges make under numbers of its own.
//
// Edge e has two darts: 2e leaves its first end, 2e + 1 its second; the other dart of the edge of dart d is d ^ 1.

use crate::access::{NONE, at, number, put, renew};
use crate::sorting::{Bins, bins_by_key};
use multigraph::Graph;
use std::alloc::{AllocError, Global};

/// Edges by their ends.
#[derive(Debug, Drop)]
pub struct EdgeEnds {
    /// The number of vertices.
    pub vertices: u32,
    /// The vertex that each dart leaves.
    pub tails: Vec<u32>,
}

impl EdgeEnds {
    /// The edges of a graph. Fails only if memory runs out.
    pub fn of(alloc: Global, g: &Graph) -> Result<EdgeEnds, AllocError> {
        let mut tails = Vec::new(alloc);
        for e in 0..g.edge_count() {
            let (first, second) = g.ends(e);
            tails.push(first)?;
            tails.push(second)?;
        }
        Ok(EdgeEnds {
            vertices: g.vertex_count(),
            tails,
        })
    }

    /// The number of edges.
    pub fn edge_count(&self) -> u32 {
        number(self.tails.len() / 2)
    }

    /// The vertex that the dart leaves.
    pub fn tail(&self, dart: u32) -> u32 {
        at(&self.tails, dart)
    }

    /// The vertex at which the dart arrives.
    pub fn head(&self, dart: u32) -> u32 {
        at(&self.tails, dart ^ 1)
    }

    /// The darts that leave each vertex, among those of these edges. Fails only if memory runs out.
    pub fn darts_of(&self, alloc: Global, edges: &[u32]) -> Result<Bins, AllocError> {
        let mut darts = Vec::new(alloc);
        for e in edges {
            darts.push(e.saturating_mul(2))?;
            darts.push(e.saturating_mul(2).saturating_add(1))?;
        }
        bins_by_key(alloc, &darts, &self.tails, self.vertices)
    }

    /// These edges as a list of their own, their vertices numbered in the order in which they are reached. Fails only if memory
    /// runs out.
    pub fn part(&self, alloc: Global, edges: &[u32]) -> Result<EdgeEnds, AllocError> {
        let mut parts = Parts::of(alloc, self)?;
        parts.take(self, edges)?;
        Ok(parts.part)
    }
}

/// Parts of one list, one after the other in the same memory.
#[derive(Drop)]
pub struct Parts {
    // Of each vertex of the list its number in the part that is taken; `NONE` everywhere between two parts.
    numbers: Vec<u32>,
    pub(crate) part: EdgeEnds,
}

impl Parts {
    /// No part of the list yet. Fails only if memory runs out.
    pub fn of(alloc: Global, list: &EdgeEnds) -> Result<Parts, AllocError> {
        Ok(Parts {
            numbers: vec![in alloc; NONE; list.vertices as usize]?,
            part: EdgeEnds {
                vertices: 0,
                tails: Vec::new(alloc),
            },
        })
    }

    // Adds the edge of the list with these ends.
    fn add(&mut self, tail: u32, head: u32) -> Result<(), AllocError> {
        let vertices = give_number(&mut self.numbers, tail, self.part.vertices);
        self.part.vertices = give_number(&mut self.numbers, head, vertices);
        self.part.tails.push(at(&self.numbers, tail))?;
        self.part.tails.push(at(&self.numbers, head))?;
        Ok(())
    }

    // Takes their numbers from the ends of the edges.
    fn forget(&mut self, list: &EdgeEnds, edges: &[u32]) {
        for e in edges {
            let dart = e.saturating_mul(2);
            put(&mut self.numbers, list.tail(dart), NONE);
            put(&mut self.numbers, list.head(dart), NONE);
        }
    }

    // These edges of the list become the part, as `EdgeEnds::part` makes it.
    pub(crate) fn take(&mut self, list: &EdgeEnds, edges: &[u32]) -> Result<(), AllocError> {
        self.part.vertices = 0;
        self.part.tails.clear();
        self.part.tails.reserve(edges.len().saturating_mul(2))?;
        for e in edges {
            let dart = e.saturating_mul(2);
            self.add(list.tail(dart), list.head(dart))?;
        }
        self.forget(list, edges);
        Ok(())
    }
}

// Numbers the vertex by the next number, unless it has one. Returns the number that is then the next.
fn give_number(numbers: &mut [u32], vertex: u32, next: u32) -> u32 {
    if at(numbers, vertex) != NONE {
        return next;
    }
    put(numbers, vertex, next);
    next.saturating_add(1)
}

/// The numbers below n in increasing order. Fails only if memory runs out.
pub fn numbers_below(alloc: Global, n: u32) -> Result<Vec<u32>, AllocError> {
    (0..n).collect(alloc)
}

// The list becomes that of the numbers below n.
pub(crate) fn count_up(list: &mut Vec<u32>, n: u32) -> Result<(), AllocError> {
    renew(list, n as usize, 0)?;
    for x in 0..n {
        put(list, x, x);
    }
    Ok(())
}
