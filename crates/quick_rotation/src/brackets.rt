// The way of a depth-first search that takes the edges at each vertex in a given order, as brackets: each edge opens where the
// search takes it and closes where the search returns from it. It is built without a stack, by the sizes of the edges.

use crate::access::{NONE, at, number, put, renew};
use crate::palm::Palm;
use crate::sorting::Bins;
use std::alloc::{AllocError, Global};

// The brackets of a palm tree.
#[derive(Drop)]
pub(crate) struct Brackets {
    // The edges in the given order.
    order: Bins,
    // The oriented edges that leave each vertex, in the given order.
    pub(crate) out: Bins,
    // The place where each edge opens.
    pub(crate) begin: Vec<u32>,
    // At each place 2e where edge e opens, or 2e + 1 where it closes.
    pub(crate) way: Vec<u32>,
}

impl Brackets {
    // No brackets.
    pub(crate) fn new(alloc: Global) -> Brackets {
        Brackets {
            order: Bins::new(alloc),
            out: Bins::new(alloc),
            begin: Vec::new(alloc),
            way: Vec::new(alloc),
        }
    }

    // The edges that leave the vertex get their brackets one after the other from the place on. Returns the place after the last.
    fn lay(&mut self, palm: &Palm, vertex: u32, from: u32) -> u32 {
        let mut place = from;
        for edge in self.out.bin(vertex) {
            put(&mut self.begin, *edge, place);
            put(&mut self.way, place, edge.saturating_mul(2));
            place = place.saturating_add(at(&palm.size, *edge));
            let opened = edge.saturating_mul(2);
            put(
                &mut self.way,
                place.saturating_sub(1),
                opened.saturating_add(1),
            );
        }
        place
    }

    // The brackets of all edges, once each has its place in the bins.
    fn lay_all(&mut self, palm: &Palm) {
        let mut top = 0;
        for vertex in &palm.vertices {
            let parent = at(&palm.parent, *vertex);
            if parent == NONE {
                top = self.lay(palm, *vertex, top);
            } else {
                let from = at(&self.begin, parent).saturating_add(1);
                self.lay(palm, *vertex, from);
            }
        }
    }

    // The way of a search that takes the edges at each vertex in the order of their keys, which are below `bound`, in the place of
    // the one before.
    pub(crate) fn lead(&mut self, palm: &Palm, keys: &[u32], bound: u32) -> Result<(), AllocError> {
        let edges = palm.tail.len();
        self.order.fill(&palm.edges, keys, bound)?;
        let vertices = number(palm.height.len());
        self.out.fill(&self.order.items, &palm.tail, vertices)?;
        renew(&mut self.begin, edges, NONE)?;
        renew(&mut self.way, edges.saturating_mul(2), NONE)?;
        self.lay_all(palm);
        Ok(())
    }

    // The way of a search that takes the edges at each vertex by nesting depth, in the place of the one before.
    pub(crate) fn lead_nested(&mut self, palm: &Palm, bound: u32) -> Result<(), AllocError> {
        self.lead(palm, &palm.nest, bound)
    }
}
