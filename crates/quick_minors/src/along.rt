// A forest of a list that leads along its thin places and not across: breadth first by the edges that are not thin, and by a
// thin one only where no other leads on.

use crate::thin::{Beside, new_search};
use quick_rotation::access::{NONE, at, is_marked, mark, number, put};
use quick_rotation::{Bins, EdgeEnds, numbers_below};
use std::alloc::{AllocError, Global};

// The edges of a forest and the others, in the order in which they are examined; and how many edges of the forest lead from a root
// to each of its edges, with itself.
#[derive(Drop)]
pub(crate) struct Forest {
    pub(crate) tree: Vec<u32>,
    pub(crate) depths: Vec<u32>,
    pub(crate) others: Vec<u32>,
}

// The forest so far: the vertices in the order in which they are reached, the thin darts that wait, of each vertex its depth, which
// is `NONE` where it is not reached, and marks on edges.
#[derive(Drop)]
struct Growth {
    forest: Forest,
    order: Vec<u32>,
    waiting: Vec<u32>,
    depth: Vec<u32>,
    met: Vec<bool>,
    beside: Beside,
}

impl Growth {
    // The vertex is reached at this depth.
    fn reach(&mut self, vertex: u32, depth: u32) -> Result<(), AllocError> {
        put(&mut self.depth, vertex, depth);
        self.order.push(vertex)?;
        Ok(())
    }

    // The dart is looked at.
    fn look(&mut self, list: &EdgeEnds, dart: u32) -> Result<(), AllocError> {
        if is_marked(&self.met, dart / 2) {
            return Ok(());
        }
        mark(&mut self.met, dart / 2);
        let end = list.head(dart);
        if at(&self.depth, end) != NONE {
            self.forest.others.push(dart / 2)?;
            return Ok(());
        }
        let depth = at(&self.depth, list.tail(dart)).saturating_add(1);
        self.forest.tree.push(dart / 2)?;
        self.forest.depths.push(depth)?;
        self.reach(end, depth)
    }

    // Whether the dart leads on by a thin edge.
    fn is_to_wait(
        &mut self,
        list: &EdgeEnds,
        around: &Bins,
        dart: u32,
    ) -> Result<bool, AllocError> {
        if at(&self.depth, list.head(dart)) != NONE {
            return Ok(false);
        }
        self.beside.is_thin(list, around, dart / 2)
    }

    // The darts at the vertex are looked at, those that lead on by thin edges later.
    fn scan(&mut self, list: &EdgeEnds, around: &Bins, vertex: u32) -> Result<(), AllocError> {
        for dart in around.bin(vertex) {
            if self.is_to_wait(list, around, *dart)? {
                self.waiting.push(*dart)?;
            } else {
                self.look(list, *dart)?;
            }
        }
        Ok(())
    }
}

// Nothing is reached yet.
fn new_growth(alloc: Global, list: &EdgeEnds) -> Result<Growth, AllocError> {
    let forest = Forest {
        tree: Vec::new(alloc),
        depths: Vec::new(alloc),
        others: Vec::new(alloc),
    };
    Ok(Growth {
        forest,
        order: Vec::new(alloc),
        waiting: Vec::new(alloc),
        depth: vec![in alloc; NONE; list.vertices as usize]?,
        met: vec![in alloc; false; list.edge_count() as usize]?,
        beside: new_search(alloc, list)?,
    })
}

// The forest of the whole list, from the root on. Each step examines a vertex that is reached, or else a dart that waits, or else
// begins at a vertex that is not reached.
pub(crate) fn forest_along(
    alloc: Global,
    list: &EdgeEnds,
    root: u32,
) -> Result<Forest, AllocError> {
    let all = numbers_below(alloc, list.edge_count())?;
    let around = list.darts_of(alloc, &all)?;
    let mut growth = new_growth(alloc, list)?;
    let (mut looked, mut waited, mut begun): (u32, u32, u32) = (0, 0, 0);
    let mut start = root;
    for _ in 0..list
        .tails
        .len()
        .saturating_add(list.vertices as usize)
        .saturating_mul(2)
    {
        if looked < number(growth.order.len()) {
            let vertex = at(&growth.order, looked);
            growth.scan(list, &around, vertex)?;
            looked = looked.saturating_add(1);
        } else if waited < number(growth.waiting.len()) {
            let dart = at(&growth.waiting, waited);
            growth.look(list, dart)?;
            waited = waited.saturating_add(1);
        } else if begun <= list.vertices {
            if at(&growth.depth, start) == NONE {
                growth.reach(start, 0)?;
            }
            start = begun;
            begun = begun.saturating_add(1);
        } else {
            break;
        }
    }
    Ok(growth.forest)
}
