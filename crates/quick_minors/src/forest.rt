// Trees by breadth-first search.

use quick_rotation::access::{NONE, at, is_marked, mark, number, put};
use quick_rotation::{Bins, EdgeEnds};
use std::alloc::{AllocError, Global};

/// A tree of all that is reached from a root.
#[derive(Drop)]
pub struct SearchTree {
    /// Of each vertex the dart towards the root; `NONE` at the root and where nothing is reached.
    pub up: Vec<u32>,
    /// The other edges that were examined, in this order.
    pub others: Vec<u32>,
}

// What a search knows so far: the vertices in the order in which they are reached, and marks on vertices and edges.
#[derive(Drop)]
struct BreadthFirst {
    tree: SearchTree,
    order: Vec<u32>,
    reached: Vec<bool>,
    met: Vec<bool>,
}

impl BreadthFirst {
    // The dart is looked at.
    fn look(&mut self, list: &EdgeEnds, dart: u32) -> Result<(), AllocError> {
        let end = list.head(dart);
        if is_marked(&self.met, dart / 2) {
            return Ok(());
        }
        mark(&mut self.met, dart / 2);
        if is_marked(&self.reached, end) {
            self.tree.others.push(dart / 2)?;
            return Ok(());
        }
        mark(&mut self.reached, end);
        put(&mut self.tree.up, end, dart ^ 1);
        self.order.push(end)?;
        Ok(())
    }

    // All darts at the vertex are looked at.
    fn scan(&mut self, list: &EdgeEnds, darts: &[u32]) -> Result<(), AllocError> {
        for dart in darts {
            self.look(list, *dart)?;
        }
        Ok(())
    }
}

// A search from the root that has reached nothing else yet, past no vertex that is marked.
fn search_from(
    alloc: Global,
    list: &EdgeEnds,
    root: u32,
    marks: Vec<bool>,
) -> Result<BreadthFirst, AllocError> {
    let tree = SearchTree {
        up: vec![in alloc; NONE; list.vertices as usize]?,
        others: Vec::new(alloc),
    };
    let mut search = BreadthFirst {
        tree,
        order: vec![in alloc; root; 1]?,
        reached: marks,
        met: vec![in alloc; false; list.edge_count() as usize]?,
    };
    mark(&mut search.reached, root);
    Ok(search)
}

/// The tree of what is reached from the root by these darts, past no vertex that is marked, breadth first, until vertex `goal` is
/// reached; of all, where it is `NONE`. Fails only if memory runs out.
pub fn breadth_first(
    alloc: Global,
    list: &EdgeEnds,
    around: &Bins,
    root: u32,
    goal: u32,
    marks: Vec<bool>,
) -> Result<SearchTree, AllocError> {
    let mut search = search_from(alloc, list, root, marks)?;
    for turn in 0..list.vertices {
        if turn >= number(search.order.len()) || at(&search.tree.up, goal) != NONE {
            break;
        }
        let vertex = at(&search.order, turn);
        search.scan(list, around.bin(vertex))?;
    }
    Ok(search.tree)
}

/// The edges from the vertex up to the root. Fails only if memory runs out.
pub fn path_up(
    alloc: Global,
    list: &EdgeEnds,
    tree: &SearchTree,
    vertex: u32,
) -> Result<Vec<u32>, AllocError> {
    let mut path = Vec::new(alloc);
    let mut here = vertex;
    for _ in 0..list.vertices {
        let dart = at(&tree.up, here);
        if dart == NONE {
            break;
        }
        path.push(dart / 2)?;
        here = list.head(dart);
    }
    Ok(path)
}
