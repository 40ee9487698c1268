// Thin places of a list: edges without whose ends the vertices next to them are disconnected. Only a short search is made for each, so
// an edge also counts as thin where the way around it is long, or where very many edges are at its ends.
//
// In a long and narrow graph the thin edges are those that lead across; the others lead along its two sides.

use quick_rotation::access::{NONE, at, number, put};
use quick_rotation::{Bins, EdgeEnds};
use std::alloc::{AllocError, Global};

// How many vertices a search may reach.
const REACH: usize = 16;

// A search beside an edge: what it has reached and what it is to reach is marked by the number of the edge.
#[derive(Drop)]
pub(crate) struct Beside {
    edge: u32,
    first: u32,
    second: u32,
    reached: Vec<u32>,
    wanted: Vec<u32>,
    left: u32,
    queue: Vec<u32>,
}

impl Beside {
    // The heads of these darts are to be reached, except the ends of the edge. Returns one of them, or what is given.
    fn want(&mut self, list: &EdgeEnds, darts: &[u32], given: u32) -> u32 {
        let mut some = given;
        for dart in darts {
            let vertex = list.head(*dart);
            if at(&self.reached, vertex) != self.edge && at(&self.wanted, vertex) != self.edge {
                put(&mut self.wanted, vertex, self.edge);
                self.left = self.left.saturating_add(1);
                some = vertex;
            }
        }
        some
    }

    // The vertex is reached.
    fn reach(&mut self, vertex: u32) -> Result<(), AllocError> {
        if at(&self.reached, vertex) == self.edge {
            return Ok(());
        }
        put(&mut self.reached, vertex, self.edge);
        if at(&self.wanted, vertex) == self.edge {
            self.left = self.left.saturating_sub(1);
        }
        self.queue.push(vertex)?;
        Ok(())
    }

    // The heads of these darts are reached, as long as there are few.
    fn scan(&mut self, list: &EdgeEnds, darts: &[u32]) -> Result<(), AllocError> {
        for dart in darts {
            if self.queue.len() >= REACH {
                break;
            }
            self.reach(list.head(*dart))?;
        }
        Ok(())
    }

    // The search from the vertex, until all is reached that is to be.
    fn search(&mut self, list: &EdgeEnds, around: &Bins, from: u32) -> Result<(), AllocError> {
        self.queue.clear();
        self.reach(from)?;
        for turn in 0..number(REACH) {
            if self.left == 0 || turn >= number(self.queue.len()) {
                break;
            }
            let vertex = at(&self.queue, turn);
            self.scan(list, around.bin(vertex))?;
        }
        Ok(())
    }

    // Whether one of the heads of these darts is reached, of the first few.
    fn is_beside(&self, list: &EdgeEnds, darts: &[u32]) -> bool {
        for dart in darts.iter().take(REACH) {
            let vertex = list.head(*dart);
            if at(&self.reached, vertex) == self.edge
                && vertex != self.first
                && vertex != self.second
            {
                return true;
            }
        }
        false
    }

    // The heads of these darts that are to be reached and are next to one that is reached, are reached.
    fn meet(&mut self, list: &EdgeEnds, around: &Bins, darts: &[u32]) -> Result<(), AllocError> {
        for dart in darts {
            let vertex = list.head(*dart);
            if at(&self.reached, vertex) != self.edge && self.is_beside(list, around.bin(vertex)) {
                self.reach(vertex)?;
            }
        }
        Ok(())
    }

    // Whether the edge is thin.
    pub(crate) fn is_thin(
        &mut self,
        list: &EdgeEnds,
        around: &Bins,
        edge: u32,
    ) -> Result<bool, AllocError> {
        let dart = edge.saturating_mul(2);
        let (first, second) = (list.tail(dart), list.head(dart));
        let at_first = around.bin(first);
        let at_second = around.bin(second);
        if at_first.len().saturating_add(at_second.len()) > REACH {
            return Ok(true);
        }
        self.edge = edge;
        (self.first, self.second) = (first, second);
        self.left = 0;
        put(&mut self.reached, first, edge);
        put(&mut self.reached, second, edge);
        let some = self.want(list, at_first, NONE);
        let some = self.want(list, at_second, some);
        self.search(list, around, some)?;
        if self.left > 0 {
            self.meet(list, around, at_first)?;
            self.meet(list, around, at_second)?;
        }
        Ok(self.left > 0)
    }
}

// No search yet.
pub(crate) fn new_search(alloc: Global, list: &EdgeEnds) -> Result<Beside, AllocError> {
    Ok(Beside {
        edge: NONE,
        first: NONE,
        second: NONE,
        reached: vec![in alloc; NONE; list.vertices as usize]?,
        wanted: vec![in alloc; NONE; list.vertices as usize]?,
        left: 0,
        queue: Vec::new(alloc),
    })
}
