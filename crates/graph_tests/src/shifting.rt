// The points of small triangulations, worked out by hand.

ghost use Rattle.canonical_orders.specs.State.{IsTriangulatedMap};

use crate::rotation_systems::lists_of;
use crate::triangulating::triangulation;
use canonical_orders::peel;
use shift_method::place_vertices;
use std::alloc::{AllocError, Global};
use std::test::Fail;
use triangulations::DartMap;

// A triangulation, the edges around each vertex, the least first, and its points: one list for each order in which its vertices can be
// removed.
struct Row {
    name: &'static str,
    vertices: u32,
    ends: &'static [(u32, u32)],
    orders: &'static [(u32, &'static [u32])],
    drawings: &'static [&'static [(u32, u32)]],
}

static ROWS: [Row; 3] = [
    Row {
        name: "a triangle",
        vertices: 3,
        ends: &[(0, 1), (1, 2), (2, 0)],
        orders: &[(0, &[0, 2]), (1, &[0, 1]), (2, &[1, 2])],
        drawings: &[&[(0, 0), (2, 0), (1, 1)]],
    },
    Row {
        name: "K4",
        vertices: 4,
        ends: &[(0, 1), (0, 2), (0, 3), (1, 2), (1, 3), (2, 3)],
        orders: &[
            (0, &[0, 1, 2]),
            (1, &[0, 4, 3]),
            (2, &[1, 3, 5]),
            (3, &[2, 5, 4]),
        ],
        drawings: &[&[(0, 0), (4, 0), (2, 1), (2, 2)]],
    },
    Row {
        name: "an octahedron",
        vertices: 6,
        ends: &[
            (0, 1),
            (0, 2),
            (0, 3),
            (0, 4),
            (1, 2),
            (2, 3),
            (3, 4),
            (4, 1),
            (5, 1),
            (5, 2),
            (5, 3),
            (5, 4),
        ],
        orders: &[
            (0, &[0, 1, 2, 3]),
            (1, &[0, 7, 8, 4]),
            (2, &[1, 4, 9, 5]),
            (3, &[2, 5, 10, 6]),
            (4, &[3, 6, 11, 7]),
            (5, &[8, 11, 10, 9]),
        ],
        drawings: &[
            &[(0, 0), (8, 0), (5, 1), (3, 2), (4, 4), (4, 3)],
            &[(0, 0), (8, 0), (3, 1), (4, 3), (4, 4), (5, 2)],
        ],
    },
];

// The points of a triangulation with 1,000 vertices at most; none for a larger one.
fn points_of(alloc: Global, map: &DartMap) -> Result<Vec<(u32, u32)>, AllocError>
    requires { IsTriangulatedMap map.now }
{
    let vertices = map.vertex_count();
    if vertices > 1_000 {
        return Ok(Vec::new(alloc));
    }
    let order = peel(alloc, map)?;
    place_vertices(alloc, vertices, map.tail(0), map.head(0), &order)
}

// The points of the row's triangulation.
fn row_points(alloc: Global, row: &Row) -> Result<Vec<(u32, u32)>, Fail> {
    let lists = lists_of(alloc, row.orders)?;
    match triangulation(alloc, row.vertices, row.ends, &lists)? {
        Some(map) => Ok(points_of(alloc, &map)?),
        None => Ok(Vec::new(alloc)),
    }
}

// Whether these points are one of the drawings.
fn is_among(drawings: &[&[(u32, u32)]], points: &[(u32, u32)]) -> bool {
    for drawing in drawings {
        if *drawing == points {
            return true;
        }
    }
    false
}

#[test]
fn points_by_hand(rt: HostRuntime) -> Result<(), Fail> {
    for row in &ROWS {
        let points = row_points(rt.alloc(), row)?;
        assert!(rt; is_among(row.drawings, &points), "{}", row.name);
    }
    Ok(())
}
