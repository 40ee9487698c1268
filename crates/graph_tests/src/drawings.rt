// Points for the vertices of small graphs, and whether they are a straight-line drawing.

use crate::rotation_systems::lists_of;
use grid_drawing::{Points, first_parallel, is_drawing};
use multigraph::Graph;
use rotations::Rotation;
use std::alloc::Global;
use std::test::Fail;

// A graph, the edges around each vertex in counterclockwise order, the least first, a point for each vertex, and whether this is a
// drawing.
struct Row {
    name: &'static str,
    vertices: u32,
    ends: &'static [(u32, u32)],
    orders: &'static [(u32, &'static [u32])],
    points: &'static [(u32, u32)],
    is_drawing: bool,
}

const K4: &[(u32, u32)] = &[(0, 1), (0, 2), (0, 3), (1, 2), (1, 3), (2, 3)];

const K4_ORDERS: &[(u32, &[u32])] = &[
    (0, &[0, 1, 2]),
    (1, &[0, 4, 3]),
    (2, &[1, 3, 5]),
    (3, &[2, 5, 4]),
];

const STAR: &[(u32, u32)] = &[(0, 1), (0, 2), (0, 3)];

const TWO: &[(u32, u32)] = &[(0, 1), (2, 3)];

const PATH: &[(u32, u32)] = &[(0, 1), (0, 2)];

// Worked out by hand, on squared paper.
static ROWS: [Row; 17] = [
    Row {
        name: "K4",
        vertices: 4,
        ends: K4,
        orders: K4_ORDERS,
        points: &[(2, 1), (0, 0), (4, 0), (2, 2)],
        is_drawing: true,
    },
    Row {
        name: "K4 with two points exchanged",
        vertices: 4,
        ends: K4,
        orders: K4_ORDERS,
        points: &[(2, 1), (4, 0), (0, 0), (2, 2)],
        is_drawing: false,
    },
    Row {
        name: "K4 with an edge across another",
        vertices: 4,
        ends: K4,
        orders: K4_ORDERS,
        points: &[(0, 2), (0, 0), (2, 0), (2, 2)],
        is_drawing: false,
    },
    Row {
        name: "a star",
        vertices: 4,
        ends: STAR,
        orders: &[(0, &[0, 1, 2]), (1, &[0]), (2, &[1]), (3, &[2])],
        points: &[(1, 1), (2, 1), (1, 2), (0, 1)],
        is_drawing: true,
    },
    Row {
        name: "a star in the other order",
        vertices: 4,
        ends: STAR,
        orders: &[(0, &[0, 2, 1]), (1, &[0]), (2, &[1]), (3, &[2])],
        points: &[(1, 1), (2, 1), (1, 2), (0, 1)],
        is_drawing: false,
    },
    Row {
        name: "two edges on one line",
        vertices: 3,
        ends: PATH,
        orders: &[(0, &[0, 1]), (1, &[0]), (2, &[1])],
        points: &[(1, 1), (0, 0), (2, 2)],
        is_drawing: true,
    },
    Row {
        name: "two edges one over the other",
        vertices: 3,
        ends: PATH,
        orders: &[(0, &[0, 1]), (1, &[0]), (2, &[1])],
        points: &[(0, 0), (1, 1), (2, 2)],
        is_drawing: false,
    },
    Row {
        name: "parallel edges",
        vertices: 2,
        ends: &[(0, 1), (0, 1)],
        orders: &[(0, &[0, 1]), (1, &[0, 1])],
        points: &[(0, 0), (1, 0)],
        is_drawing: false,
    },
    Row {
        name: "equal points",
        vertices: 2,
        ends: &[],
        orders: &[(0, &[]), (1, &[])],
        points: &[(3, 4), (3, 4)],
        is_drawing: false,
    },
    Row {
        name: "isolated vertices",
        vertices: 2,
        ends: &[],
        orders: &[(0, &[]), (1, &[])],
        points: &[(3, 4), (4, 3)],
        is_drawing: true,
    },
    Row {
        name: "a vertex on an edge",
        vertices: 3,
        ends: &[(0, 1)],
        orders: &[(0, &[0]), (1, &[0]), (2, &[])],
        points: &[(0, 0), (4, 2), (2, 1)],
        is_drawing: false,
    },
    Row {
        name: "an edge that ends on another",
        vertices: 4,
        ends: TWO,
        orders: &[(0, &[0]), (1, &[0]), (2, &[1]), (3, &[1])],
        points: &[(0, 0), (4, 2), (2, 1), (1, 3)],
        is_drawing: false,
    },
    Row {
        name: "an edge that ends beside another",
        vertices: 4,
        ends: TWO,
        orders: &[(0, &[0]), (1, &[0]), (2, &[1]), (3, &[1])],
        points: &[(0, 0), (4, 2), (1, 1), (1, 3)],
        is_drawing: true,
    },
    Row {
        name: "edges that cross",
        vertices: 4,
        ends: TWO,
        orders: &[(0, &[0]), (1, &[0]), (2, &[1]), (3, &[1])],
        points: &[(0, 0), (2, 2), (0, 2), (2, 0)],
        is_drawing: false,
    },
    Row {
        name: "edges whose lines cross",
        vertices: 4,
        ends: TWO,
        orders: &[(0, &[0]), (1, &[0]), (2, &[1]), (3, &[1])],
        points: &[(0, 0), (2, 2), (0, 3), (1, 2)],
        is_drawing: true,
    },
    Row {
        name: "far away, a vertex beside an edge",
        vertices: 3,
        ends: &[(0, 1)],
        orders: &[(0, &[0]), (1, &[0]), (2, &[])],
        points: &[(0, 0), (4294967295, 4294967294), (4294967294, 4294967293)],
        is_drawing: true,
    },
    Row {
        name: "far away, a vertex on an edge",
        vertices: 3,
        ends: &[(0, 1)],
        orders: &[(0, &[0]), (1, &[0]), (2, &[])],
        points: &[(0, 0), (4294967294, 4294967292), (2147483647, 2147483646)],
        is_drawing: false,
    },
];

// Whether the check says of the row what the row says.
fn is_as_told(alloc: Global, row: &Row) -> Result<bool, Fail> {
    let g = Graph::build(alloc, row.vertices, row.ends)?;
    let r = Rotation::from_lists(alloc, &g, &lists_of(alloc, row.orders)?)?;
    let points = Points::of(alloc, row.points)?;
    if points.as_slice().len() != g.vertex_count() as usize {
        return Ok(false);
    }
    Ok(is_drawing(&g, &r, &points) == row.is_drawing)
}

#[test]
fn drawings_are_told_from_others(rt: HostRuntime) -> Result<(), Fail> {
    for row in &ROWS {
        assert!(rt; is_as_told(rt.alloc(), row)?, "{}", row.name);
    }
    Ok(())
}

#[test]
fn points_by_coordinate(rt: HostRuntime) -> Result<(), Fail> {
    let points = Points::of(rt.alloc(), &[(3, 4), (5, 6)])?;
    if points.as_slice().len() == 2 {
        assert_eq!(rt; (points.x(1), points.y(1)), (5, 6));
    }
    assert_eq!(rt; points.as_slice(), [(3, 4), (5, 6)].as_slice());
    Ok(())
}

// A graph, and its least pair of edges with the same ends.
struct Parallels {
    vertices: u32,
    ends: &'static [(u32, u32)],
    pair: Option<(u32, u32)>,
}

static PARALLELS: [Parallels; 7] = [
    Parallels {
        vertices: 3,
        ends: &[(0, 1), (1, 2), (1, 2), (0, 1)],
        pair: Some((0, 3)),
    },
    Parallels {
        vertices: 2,
        ends: &[(0, 1), (0, 1)],
        pair: Some((0, 1)),
    },
    Parallels {
        vertices: 2,
        ends: &[(0, 1), (1, 0), (0, 1)],
        pair: Some((0, 1)),
    },
    Parallels {
        vertices: 4,
        ends: &[(0, 1), (0, 2), (0, 3), (3, 0)],
        pair: Some((2, 3)),
    },
    Parallels {
        vertices: 3,
        ends: &[(0, 1), (2, 0), (0, 2), (1, 2), (1, 0)],
        pair: Some((0, 4)),
    },
    Parallels {
        vertices: 3,
        ends: &[(0, 1), (1, 2), (2, 0)],
        pair: None,
    },
    Parallels {
        vertices: 1,
        ends: &[],
        pair: None,
    },
];

#[test]
fn least_pairs_of_parallel_edges(rt: HostRuntime) -> Result<(), Fail> {
    for row in &PARALLELS {
        let g = Graph::build(rt.alloc(), row.vertices, row.ends)?;
        assert_eq!(rt; first_parallel(&g), row.pair);
    }
    Ok(())
}
