// Drawings that are made: of small graphs and of a large wheel, on the grid, and the pair of edges for which there is none.

ghost use Rattle.rotations.specs.Rotation.{IsRotationSystem};

use crate::rotation_systems::lists_of;
use crate::triangulating::append;
use faces::euler;
use grid_drawing::{DrawFault, Points, draw, is_drawing};
use multigraph::Graph;
use rotations::{Lists, Rotation};
use std::alloc::Global;
use std::test::Fail;

// A graph, the edges around each vertex in counterclockwise order, the least first, and what `draw` returns.
struct Row {
    name: &'static str,
    vertices: u32,
    ends: &'static [(u32, u32)],
    orders: &'static [(u32, &'static [u32])],
    outcome: Outcome,
}

// What `draw` returns.
#[derive(Debug, Clone, Copy, PartialEq, Eq)]
enum Outcome {
    // A drawing on the grid.
    Drawn,
    // Points that are no such drawing.
    Wrong,
    // The least pair of edges with the same ends.
    Parallel(u32, u32),
    // Memory ran out.
    Memory,
    // Not called: the graph has fewer than two vertices or is not connected, or the rotation system is not plane.
    NotCalled,
}

static ROWS: [Row; 11] = [
    Row {
        name: "one edge",
        vertices: 2,
        ends: &[(1, 0)],
        orders: &[(0, &[0]), (1, &[0])],
        outcome: Outcome::Drawn,
    },
    Row {
        name: "a path",
        vertices: 4,
        ends: &[(2, 0), (0, 3), (3, 1)],
        orders: &[(0, &[0, 1]), (1, &[2]), (2, &[0]), (3, &[1, 2])],
        outcome: Outcome::Drawn,
    },
    Row {
        name: "a star",
        vertices: 5,
        ends: &[(0, 1), (0, 2), (3, 0), (0, 4)],
        orders: &[
            (0, &[0, 2, 1, 3]),
            (1, &[0]),
            (2, &[1]),
            (3, &[2]),
            (4, &[3]),
        ],
        outcome: Outcome::Drawn,
    },
    Row {
        name: "a tree",
        vertices: 8,
        ends: &[(0, 1), (0, 2), (1, 3), (1, 4), (2, 5), (5, 6), (5, 7)],
        orders: &[
            (0, &[0, 1]),
            (1, &[0, 3, 2]),
            (2, &[1, 4]),
            (3, &[2]),
            (4, &[3]),
            (5, &[4, 5, 6]),
            (6, &[5]),
            (7, &[6]),
        ],
        outcome: Outcome::Drawn,
    },
    Row {
        name: "a triangle",
        vertices: 3,
        ends: &[(0, 1), (1, 2), (2, 0)],
        orders: &[(0, &[0, 2]), (1, &[0, 1]), (2, &[1, 2])],
        outcome: Outcome::Drawn,
    },
    Row {
        name: "two triangles with a common vertex, one inside the other",
        vertices: 5,
        ends: &[(0, 1), (1, 2), (2, 0), (0, 3), (3, 4), (4, 0)],
        orders: &[
            (0, &[0, 3, 5, 2]),
            (1, &[0, 1]),
            (2, &[1, 2]),
            (3, &[3, 4]),
            (4, &[4, 5]),
        ],
        outcome: Outcome::Drawn,
    },
    Row {
        name: "K4",
        vertices: 4,
        ends: &[(0, 1), (0, 2), (0, 3), (1, 2), (1, 3), (2, 3)],
        orders: &[
            (0, &[0, 1, 2]),
            (1, &[0, 4, 3]),
            (2, &[1, 3, 5]),
            (3, &[2, 5, 4]),
        ],
        outcome: Outcome::Drawn,
    },
    Row {
        name: "a cube",
        vertices: 8,
        ends: &[
            (0, 1),
            (1, 2),
            (2, 3),
            (3, 0),
            (4, 5),
            (5, 6),
            (6, 7),
            (7, 4),
            (0, 4),
            (1, 5),
            (2, 6),
            (3, 7),
        ],
        orders: &[
            (0, &[0, 3, 8]),
            (1, &[0, 9, 1]),
            (2, &[1, 10, 2]),
            (3, &[2, 11, 3]),
            (4, &[4, 8, 7]),
            (5, &[4, 5, 9]),
            (6, &[5, 6, 10]),
            (7, &[6, 7, 11]),
        ],
        outcome: Outcome::Drawn,
    },
    Row {
        name: "K2,4 with an edge inside",
        vertices: 6,
        ends: &[
            (0, 2),
            (1, 2),
            (0, 3),
            (1, 3),
            (0, 4),
            (1, 4),
            (0, 5),
            (1, 5),
            (0, 1),
        ],
        orders: &[
            (0, &[0, 2, 8, 4, 6]),
            (1, &[1, 7, 5, 8, 3]),
            (2, &[0, 1]),
            (3, &[2, 3]),
            (4, &[4, 5]),
            (5, &[6, 7]),
        ],
        outcome: Outcome::Drawn,
    },
    Row {
        name: "a path with each edge twice",
        vertices: 3,
        ends: &[(0, 1), (1, 2), (1, 2), (0, 1)],
        orders: &[(0, &[0, 3]), (1, &[0, 1, 2, 3]), (2, &[1, 2])],
        outcome: Outcome::Parallel(0, 3),
    },
    Row {
        name: "two parallel edges",
        vertices: 2,
        ends: &[(0, 1), (0, 1)],
        orders: &[(0, &[0, 1]), (1, &[0, 1])],
        outcome: Outcome::Parallel(0, 1),
    },
];

// Whether these points of n vertices, three or more, have x at most 2n - 4 and y at most n - 2; two are (0, 0) and (1, 0).
fn are_on_grid(points: &[(u32, u32)]) -> bool {
    if points.len() == 2 {
        return points[0] == (0, 0) && points[1] == (1, 0);
    }
    let n = points.len() as u64;
    for (x, y) in points {
        if *x as u64 + 4 > 2 * n || *y as u64 + 2 > n {
            return false;
        }
    }
    true
}

// What the points are for the graph with this rotation system.
fn judged(g: &Graph, r: &Rotation, points: &Points) -> Outcome
    requires { IsRotationSystem g.now r.now }
{
    if points.as_slice().len() != g.vertex_count() as usize {
        return Outcome::Wrong;
    }
    if are_on_grid(points.as_slice()) && is_drawing(g, r, points) {
        return Outcome::Drawn;
    }
    Outcome::Wrong
}

// What `draw` returns for the graph with the edges around each vertex in the order of the lists.
fn outcome_of(
    alloc: Global,
    vertices: u32,
    ends: &[(u32, u32)],
    lists: &Lists,
) -> Result<Outcome, Fail> {
    let g = Graph::build(alloc, vertices, ends)?;
    let r = Rotation::from_lists(alloc, &g, lists)?;
    let numbers = euler(alloc, &g, &r)?;
    if numbers.v < 2 || numbers.c != 1 {
        return Ok(Outcome::NotCalled);
    }
    if !numbers.plane {
        return Ok(Outcome::NotCalled);
    }
    match draw(alloc, &g, &r) {
        Ok(points) => Ok(judged(&g, &r, &points)),
        Err(DrawFault::Parallel(a, b)) => Ok(Outcome::Parallel(a, b)),
        Err(DrawFault::Memory) => Ok(Outcome::Memory),
    }
}

#[test]
fn drawings_of_small_graphs(rt: HostRuntime) -> Result<(), Fail> {
    for row in &ROWS {
        let lists = lists_of(rt.alloc(), row.orders)?;
        let found = outcome_of(rt.alloc(), row.vertices, row.ends, &lists)?;
        assert_eq!(rt; found, row.outcome, "{}", row.name);
    }
    Ok(())
}

#[test]
fn drawing_of_a_large_wheel(rt: HostRuntime) -> Result<(), Fail> {
    let mut ends = Vec::new(rt.alloc());
    let mut spokes = Vec::new(rt.alloc());
    for v in 1..201u32 {
        ends.push((0, v))?;
        spokes.push(v - 1)?;
    }
    let mut lists = Lists::new(rt.alloc());
    append(&mut lists, 0, &spokes)?;
    append(&mut lists, 1, &[0, 399, 200])?;
    ends.push((1, 2))?;
    for v in 2..200u32 {
        ends.push((v, v + 1))?;
        append(&mut lists, v, &[v - 1, v + 198, v + 199])?;
    }
    ends.push((200, 1))?;
    append(&mut lists, 200, &[199, 398, 399])?;
    assert_eq!(rt; outcome_of(rt.alloc(), 201, &ends, &lists)?, Outcome::Drawn);
    Ok(())
}
