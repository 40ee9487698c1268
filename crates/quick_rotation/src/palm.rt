// A depth-first search with a stack of its own (Tarjan 1972): the edges oriented, tree edges away from the root and back edges
// towards it, with the low points of each edge and the order in which the edges at a vertex are nested.

use crate::access::{NONE, at, number, put, renew};
use crate::edges::EdgeEnds;
use crate::sorting::Bins;
use std::alloc::{AllocError, Global};

// A palm tree of each component of a list.
#[derive(Drop)]
pub(crate) struct Palm {
    // The ends of each edge as it is oriented.
    pub(crate) tail: Vec<u32>,
    pub(crate) head: Vec<u32>,
    // Of each vertex its height above the root, its parent edge, and the place of the next dart to look at.
    pub(crate) height: Vec<u32>,
    pub(crate) parent: Vec<u32>,
    place: Vec<u32>,
    // The vertices between the root and the one where the search is.
    stack: Vec<u32>,
    // The edges and the vertices in the order in which they were reached.
    pub(crate) edges: Vec<u32>,
    pub(crate) vertices: Vec<u32>,
    // Of each edge the two lowest heights to which it and the edges above it return, its nesting depth, and twice the number of
    // these edges and itself.
    pub(crate) low: Vec<u32>,
    pub(crate) second_low: Vec<u32>,
    pub(crate) nest: Vec<u32>,
    pub(crate) size: Vec<u32>,
}

impl Palm {
    // No edges.
    pub(crate) fn new(alloc: Global) -> Palm {
        Palm {
            tail: Vec::new(alloc),
            head: Vec::new(alloc),
            height: Vec::new(alloc),
            parent: Vec::new(alloc),
            place: Vec::new(alloc),
            stack: Vec::new(alloc),
            edges: Vec::new(alloc),
            vertices: Vec::new(alloc),
            low: Vec::new(alloc),
            second_low: Vec::new(alloc),
            nest: Vec::new(alloc),
            size: Vec::new(alloc),
        }
    }

    // The list, of which nothing is reached yet.
    fn begin(&mut self, list: &EdgeEnds, around: &Bins) -> Result<(), AllocError> {
        let vertices = list.vertices as usize;
        let edges = list.edge_count() as usize;
        renew(&mut self.tail, edges, NONE)?;
        renew(&mut self.head, edges, NONE)?;
        renew(&mut self.height, vertices, NONE)?;
        renew(&mut self.parent, vertices, NONE)?;
        renew(&mut self.low, edges, 0)?;
        renew(&mut self.second_low, edges, 0)?;
        renew(&mut self.nest, edges, 0)?;
        renew(&mut self.size, edges, 2)?;
        self.edges.clear();
        self.vertices.clear();
        self.stack.clear();
        self.place.clear();
        self.place.extend_from_slice(&around.begin)
    }

    // Whether the edge is a tree edge.
    pub(crate) fn is_tree(&self, edge: u32) -> bool {
        at(&self.parent, at(&self.head, edge)) == edge
    }

    // The height of the vertex that the edge leaves.
    pub(crate) fn tail_height(&self, edge: u32) -> u32 {
        at(&self.height, at(&self.tail, edge))
    }

    // The parent edge of the vertex that the edge leaves.
    pub(crate) fn parent_of(&self, edge: u32) -> u32 {
        at(&self.parent, at(&self.tail, edge))
    }

    // A vertex is reached at this height, by this edge.
    fn reach(&mut self, vertex: u32, height: u32, edge: u32) -> Result<(), AllocError> {
        put(&mut self.height, vertex, height);
        put(&mut self.parent, vertex, edge);
        self.vertices.push(vertex)?;
        self.stack.push(vertex)?;
        Ok(())
    }

    // The dart is looked at: its edge is oriented, unless it is already.
    fn look(&mut self, list: &EdgeEnds, dart: u32) -> Result<(), AllocError> {
        let edge = dart / 2;
        if at(&self.tail, edge) != NONE {
            return Ok(());
        }
        let from = list.tail(dart);
        let to = list.head(dart);
        put(&mut self.tail, edge, from);
        put(&mut self.head, edge, to);
        self.edges.push(edge)?;
        if at(&self.height, to) == NONE {
            let height = at(&self.height, from).saturating_add(1);
            self.reach(to, height, edge)?;
        }
        Ok(())
    }

    // One step at the vertex, the last of the stack: its next dart is looked at, or it is left.
    fn advance(&mut self, list: &EdgeEnds, around: &Bins, vertex: u32) -> Result<(), AllocError> {
        let place = at(&self.place, vertex);
        if place >= at(&around.begin, vertex.saturating_add(1)) {
            let _ = self.stack.pop();
            return Ok(());
        }
        put(&mut self.place, vertex, place.saturating_add(1));
        self.look(list, at(&around.items, place))
    }

    // Reaches all that the root is connected to.
    fn explore(&mut self, list: &EdgeEnds, around: &Bins, root: u32) -> Result<(), AllocError> {
        self.reach(root, 0, NONE)?;
        let turns = list.tails.len().saturating_mul(2).saturating_add(2);
        for _ in 0..turns {
            let Some(vertex) = self.stack.last().copied() else {
                break;
            };
            self.advance(list, around, vertex)?;
        }
        Ok(())
    }

    // The palm trees of the list, without low points.
    fn orient(&mut self, list: &EdgeEnds, around: &Bins) -> Result<(), AllocError> {
        self.begin(list, around)?;
        for root in 0..list.vertices {
            if at(&self.height, root) == NONE {
                self.explore(list, around, root)?;
            }
        }
        Ok(())
    }

    // Each edge returns to the vertex that it leaves, and a back edge to the one at which it arrives.
    fn begin_lows(&mut self) {
        for k in 0..number(self.edges.len()) {
            let edge = at(&self.edges, k);
            let height = self.tail_height(edge);
            put(&mut self.low, edge, height);
            put(&mut self.second_low, edge, height);
            if !self.is_tree(edge) {
                let end = at(&self.height, at(&self.head, edge));
                put(&mut self.low, edge, end);
            }
        }
    }

    // The edge's nesting depth: deeper where it returns lower, and where it returns to one height alone.
    fn nest(&mut self, edge: u32) {
        let chordal = at(&self.second_low, edge) < self.tail_height(edge);
        let depth = at(&self.low, edge).saturating_mul(2);
        let nest = if chordal {
            depth.saturating_add(1)
        } else {
            depth
        };
        put(&mut self.nest, edge, nest);
    }

    // The edge's low points and size are handed on to the parent edge.
    fn hand_on(&mut self, edge: u32, parent: u32) {
        let (low, second) = (at(&self.low, edge), at(&self.second_low, edge));
        let (parent_low, parent_second) = (at(&self.low, parent), at(&self.second_low, parent));
        if low < parent_low {
            put(&mut self.low, parent, low);
            put(&mut self.second_low, parent, parent_low.min(second));
        } else if low > parent_low {
            put(&mut self.second_low, parent, parent_second.min(low));
        } else {
            put(&mut self.second_low, parent, parent_second.min(second));
        }
        let size = at(&self.size, parent).saturating_add(at(&self.size, edge));
        put(&mut self.size, parent, size);
    }

    // The low points of all edges, from the last that was reached on.
    fn find_lows(&mut self) {
        let edges = number(self.edges.len());
        for k in 0..edges {
            let edge = at(&self.edges, edges - 1 - k);
            self.nest(edge);
            self.hand_on(edge, self.parent_of(edge));
        }
    }

    // The palm trees of the list, with low points, in the place of those before.
    pub(crate) fn grow(&mut self, list: &EdgeEnds, around: &Bins) -> Result<(), AllocError> {
        self.orient(list, around)?;
        self.begin_lows();
        self.find_lows();
        Ok(())
    }
}
