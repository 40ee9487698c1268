// Worked rows: small graphs with rotation systems, and their numbers counted by hand.

use faces::{Euler, Faces, euler, face_steps, trace};
use multigraph::Graph;
use rotations::{Lists, Rotation};
use std::alloc::Global;
use std::test::Fail;

// A graph by the ends of its edges, its rotation system by the edges around each vertex, and what is counted there.
struct Row {
    vertices: u32,
    ends: &'static [(u32, u32)],
    orders: &'static [(u32, &'static [u32])],
    sum: Euler,
}

fn lists_of(alloc: Global, row: &Row) -> Result<Lists, Fail> {
    let mut lists = Lists::new(alloc);
    for (vertex, edges) in row.orders {
        if lists.is_above(*vertex) {
            lists.push(*vertex, edges)?;
        }
    }
    Ok(lists)
}

fn sum_of(alloc: Global, row: &Row) -> Result<Euler, Fail> {
    let graph = Graph::build(alloc, row.vertices, row.ends)?;
    let lists = lists_of(alloc, row)?;
    let rotation = Rotation::from_lists(alloc, &graph, &lists)?;
    Ok(euler(alloc, &graph, &rotation)?)
}

fn faces_of(alloc: Global, row: &Row) -> Result<Faces, Fail> {
    let graph = Graph::build(alloc, row.vertices, row.ends)?;
    let lists = lists_of(alloc, row)?;
    let rotation = Rotation::from_lists(alloc, &graph, &lists)?;
    Ok(trace(alloc, &graph, &rotation)?)
}

fn steps_of(alloc: Global, row: &Row) -> Result<Vec<u32>, Fail> {
    let graph = Graph::build(alloc, row.vertices, row.ends)?;
    let lists = lists_of(alloc, row)?;
    let rotation = Rotation::from_lists(alloc, &graph, &lists)?;
    Ok(face_steps(alloc, &graph, &rotation)?)
}

static ROWS: [Row; 5] = [
    Row {
        vertices: 0,
        ends: &[],
        orders: &[],
        sum: Euler {
            v: 0,
            e: 0,
            f: 0,
            c: 0,
            plane: true,
        },
    },
    Row {
        vertices: 2,
        ends: &[(0, 1), (1, 0)],
        orders: &[(0, &[0, 1]), (1, &[0, 1])],
        sum: Euler {
            v: 2,
            e: 2,
            f: 2,
            c: 1,
            plane: true,
        },
    },
    Row {
        vertices: 4,
        ends: &[(0, 1), (0, 2), (0, 3), (1, 2), (1, 3), (2, 3)],
        orders: &[
            (0, &[0, 1, 2]),
            (1, &[0, 4, 3]),
            (2, &[1, 3, 5]),
            (3, &[2, 5, 4]),
        ],
        sum: Euler {
            v: 4,
            e: 6,
            f: 4,
            c: 1,
            plane: true,
        },
    },
    Row {
        vertices: 7,
        ends: &[(0, 1), (1, 2), (0, 2), (0, 3), (3, 4), (0, 4), (4, 5)],
        orders: &[
            (0, &[0, 2, 3, 5]),
            (1, &[0, 1]),
            (2, &[1, 2]),
            (3, &[3, 4]),
            (4, &[4, 5, 6]),
            (5, &[6]),
        ],
        sum: Euler {
            v: 7,
            e: 7,
            f: 4,
            c: 2,
            plane: true,
        },
    },
    Row {
        vertices: 7,
        ends: &[(0, 1), (1, 2), (0, 2), (0, 3), (3, 4), (0, 4), (4, 5)],
        orders: &[
            (0, &[0, 3, 2, 5]),
            (1, &[0, 1]),
            (2, &[1, 2]),
            (3, &[3, 4]),
            (4, &[4, 5, 6]),
            (5, &[6]),
        ],
        sum: Euler {
            v: 7,
            e: 7,
            f: 2,
            c: 2,
            plane: false,
        },
    },
];

#[test]
fn counts_worked_rows(rt: HostRuntime) -> Result<(), Fail> {
    for row in &ROWS {
        assert_eq!(rt; sum_of(rt.alloc(), row)?, row.sum);
    }
    Ok(())
}

// The faces of the third row and of the last.
static THIRD: [&[(u32, u32)]; 4] = [
    &[(0, 0), (1, 4), (3, 2)],
    &[(0, 1), (2, 3), (1, 0)],
    &[(0, 2), (3, 5), (2, 1)],
    &[(1, 3), (2, 5), (3, 4)],
];

static LAST: [&[(u32, u32)]; 1] = [&[
    (0, 0),
    (1, 1),
    (2, 2),
    (0, 5),
    (4, 6),
    (5, 6),
    (4, 4),
    (3, 3),
    (0, 2),
    (2, 1),
    (1, 0),
    (0, 3),
    (3, 4),
    (4, 5),
]];

#[test]
fn traces_worked_rows(rt: HostRuntime) -> Result<(), Fail> {
    let faces = faces_of(rt.alloc(), &ROWS[2])?;
    assert_eq!(rt; faces.count(), 4);
    for i in 0..4 {
        assert_eq!(rt; faces.face(i), THIRD[i as usize]);
    }
    let faces = faces_of(rt.alloc(), &ROWS[4])?;
    assert_eq!(rt; faces.count(), 1);
    assert_eq!(rt; faces.face(0), LAST[0]);
    Ok(())
}

// What follows each dart of the second row: 0 and 3 leave vertex 0, 1 and 2 vertex 1.
static SECOND: [u32; 4] = [2, 3, 0, 1];

#[test]
fn steps_along_worked_rows(rt: HostRuntime) -> Result<(), Fail> {
    let steps = steps_of(rt.alloc(), &ROWS[1])?;
    assert_eq!(rt; steps.as_slice(), SECOND.as_slice());
    Ok(())
}
