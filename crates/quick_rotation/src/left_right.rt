// The left-right method as a whole: whether a list of edges is planar, and if so, the darts around each vertex.

use crate::brackets::Brackets;
use crate::complete::complete_rotation;
use crate::conflicts::Conflicts;
use crate::edges::{EdgeEnds, Parts, count_up};
use crate::orders::orders;
use crate::palm::Palm;
use crate::signs::{sided_keys, sides};
use crate::sorting::Bins;
use multigraph::Graph;
use rotations::Lists;
use std::alloc::{AllocError, Global};

/// The left-right test, whose memory serves for one list after the other.
#[derive(Drop)]
pub struct LeftRightTest {
    darts: Vec<u32>,
    around: Bins,
    palm: Palm,
    brackets: Brackets,
    conflicts: Conflicts,
}

impl LeftRightTest {
    /// A test that has seen no list yet.
    pub fn new(alloc: Global) -> LeftRightTest {
        LeftRightTest {
            darts: Vec::new(alloc),
            around: Bins::new(alloc),
            palm: Palm::new(alloc),
            brackets: Brackets::new(alloc),
            conflicts: Conflicts::new(alloc),
        }
    }

    // The palm tree of the list, and the way through it by nesting depth.
    fn search(&mut self, list: &EdgeEnds) -> Result<(), AllocError> {
        count_up(&mut self.darts, list.edge_count().saturating_mul(2))?;
        self.around.fill(&self.darts, &list.tails, list.vertices)?;
        self.palm.grow(list, &self.around)?;
        let bound = list.vertices.saturating_mul(2).saturating_add(2);
        self.brackets.lead_nested(&self.palm, bound)
    }

    // Whether the back edges of the list can be partitioned.
    fn run(&mut self, list: &EdgeEnds) -> Result<bool, AllocError> {
        self.search(list)?;
        self.conflicts.test(&self.palm, &self.brackets)
    }

    /// Whether the method finds that the list, without parallel edges, is planar. Where the numbers of vertices and edges decide
    /// it, they do: a graph of five vertices is planar unless it is K5, and one of fewer than nine edges always is. Fails only if
    /// memory runs out.
    pub fn is_planar(&mut self, list: &EdgeEnds) -> Result<bool, AllocError> {
        let edges = list.edge_count();
        if list.vertices < 5 || edges < 9 {
            return Ok(true);
        }
        if edges > list.vertices.saturating_mul(3).saturating_sub(6) {
            return Ok(false);
        }
        if list.vertices == 5 {
            return Ok(true);
        }
        self.run(list)
    }
}

/// The left-right test of parts of one list.
#[derive(Drop)]
pub struct PartTest {
    parts: Parts,
    test: LeftRightTest,
}

impl PartTest {
    /// A test of parts of the list. Fails only if memory runs out.
    pub fn of(alloc: Global, list: &EdgeEnds) -> Result<PartTest, AllocError> {
        Ok(PartTest {
            parts: Parts::of(alloc, list)?,
            test: LeftRightTest::new(alloc),
        })
    }

    /// Whether the method finds that these edges of the list, of which no two are parallel, are planar. Fails only if memory runs
    /// out.
    pub fn is_planar(&mut self, list: &EdgeEnds, edges: &[u32]) -> Result<bool, AllocError> {
        self.parts.take(list, edges)?;
        self.test.is_planar(&self.parts.part)
    }
}

// The darts around each vertex in a plane cyclic order, if the method finds one.
fn plane_orders(alloc: Global, list: &EdgeEnds) -> Result<Option<Bins>, AllocError> {
    let mut test = LeftRightTest::new(alloc);
    if !test.run(list)? {
        return Ok(None);
    }
    let LeftRightTest {
        palm,
        mut brackets,
        conflicts,
        ..
    } = test;
    let left = sides(alloc, &palm, conflicts)?;
    let (keys, bound) = sided_keys(alloc, &palm, &left)?;
    brackets.lead(&palm, &keys, bound)?;
    Ok(Some(orders(alloc, list, &palm, &brackets, &left)?))
}

// The edges of the darts.
fn edges_of(alloc: Global, darts: &[u32]) -> Result<Vec<u32>, AllocError> {
    let mut edges = Vec::with_capacity(alloc, darts.len())?;
    for dart in darts {
        edges.push(*dart / 2)?;
    }
    Ok(edges)
}

// The edges around each vertex, as lists.
fn lists(alloc: Global, orders: &Bins, vertices: u32) -> Result<Lists, AllocError> {
    let mut lists = Lists::new(alloc);
    for vertex in 0..vertices {
        let edges = edges_of(alloc, orders.bin(vertex))?;
        if lists.is_above(vertex) {
            lists.push(vertex, &edges)?;
        }
    }
    Ok(lists)
}

/// The edges around each vertex in cyclic orders that may be a plane rotation system of the graph; `None` where the method finds
/// that it is not planar. In linear time, without a search for K4. Fails only if memory runs out.
pub fn propose_rotation(alloc: Global, g: &Graph) -> Result<Option<Lists>, AllocError> {
    if let Some(lists) = complete_rotation(alloc, g)? {
        return Ok(Some(lists));
    }
    let list = EdgeEnds::of(alloc, g)?;
    let Some(orders) = plane_orders(alloc, &list)? else {
        return Ok(None);
    };
    Ok(Some(lists(alloc, &orders, list.vertices)?))
}
