// Canonical orders of small triangulations: the orders of those that have one order alone, and that each removed vertex has two
// neighbours or more among those that stay, each joined to the next.

use crate::rotation_systems::lists_of;
use crate::triangulating::triangulation;
use canonical_orders::{Removal, peel};
use std::alloc::Global;
use std::test::Fail;

// A triangulation, the edges around each vertex, the least first, and the vertices in the order in which they are removed, each with its
// neighbours among those that stay; none where there are several such orders.
struct Row {
    name: &'static str,
    vertices: u32,
    ends: &'static [(u32, u32)],
    orders: &'static [(u32, &'static [u32])],
    removals: &'static [(u32, &'static [u32])],
}

static ROWS: [Row; 3] = [
    Row {
        name: "a triangle",
        vertices: 3,
        ends: &[(0, 1), (1, 2), (2, 0)],
        orders: &[(0, &[0, 2]), (1, &[0, 1]), (2, &[1, 2])],
        removals: &[(2, &[0, 1])],
    },
    Row {
        name: "K4",
        vertices: 4,
        ends: &[(0, 1), (0, 2), (0, 3), (1, 2), (1, 3), (2, 3)],
        orders: &[
            (0, &[0, 1, 2]),
            (1, &[0, 4, 3]),
            (2, &[1, 3, 5]),
            (3, &[2, 5, 4]),
        ],
        removals: &[(3, &[0, 2, 1]), (2, &[0, 1])],
    },
    Row {
        name: "an octahedron",
        vertices: 6,
        ends: &[
            (0, 1),
            (0, 2),
            (0, 3),
            (0, 4),
            (1, 2),
            (2, 3),
            (3, 4),
            (4, 1),
            (5, 1),
            (5, 2),
            (5, 3),
            (5, 4),
        ],
        orders: &[
            (0, &[0, 1, 2, 3]),
            (1, &[0, 7, 8, 4]),
            (2, &[1, 4, 9, 5]),
            (3, &[2, 5, 10, 6]),
            (4, &[3, 6, 11, 7]),
            (5, &[8, 11, 10, 9]),
        ],
        removals: &[],
    },
];

// The canonical order of the row's triangulation.
fn order_of(alloc: Global, row: &Row) -> Result<Vec<Removal>, Fail> {
    let lists = lists_of(alloc, row.orders)?;
    match triangulation(alloc, row.vertices, row.ends, &lists)? {
        Some(map) => Ok(peel(alloc, &map)?),
        None => Ok(Vec::new(alloc)),
    }
}

// Whether some edge joins the vertices a and b.
fn are_joined(ends: &[(u32, u32)], a: u32, b: u32) -> bool {
    for (x, y) in ends {
        if (*x == a && *y == b) || (*x == b && *y == a) {
            return true;
        }
    }
    false
}

// Whether there are two heads or more, each joined to the next.
fn are_in_turn(ends: &[(u32, u32)], heads: &[u32]) -> bool {
    for i in 1..heads.len() {
        if !are_joined(ends, heads[i - 1], heads[i]) {
            return false;
        }
    }
    heads.len() >= 2
}

#[test]
fn heads_are_in_turn(rt: HostRuntime) -> Result<(), Fail> {
    for row in &ROWS {
        let order = order_of(rt.alloc(), row)?;
        assert!(rt; order.len() + 2 == row.vertices as usize, "{}", row.name);
        for removal in &order {
            assert!(rt; are_in_turn(row.ends, removal.heads()), "{}", row.name);
        }
    }
    Ok(())
}

// Whether the removal is of this vertex, with these heads.
fn is_removal(removal: &Removal, vertex: u32, heads: &[u32]) -> bool {
    removal.vertex() == vertex && removal.heads() == heads
}

#[test]
fn orders_that_are_determined(rt: HostRuntime) -> Result<(), Fail> {
    for row in &ROWS {
        let order = order_of(rt.alloc(), row)?;
        for (i, (vertex, heads)) in row.removals.iter().enumerate() {
            assert!(rt;
                i < order.len() && is_removal(&order[i], *vertex, heads),
                "{}",
                row.name
            );
        }
    }
    Ok(())
}
