// Small graphs drawn path by path.

use crate::rows::{Expected, ROWS, Row, TRAPS, graph_of, graph_with, is_plane};
use path_rotation::{Drawn, draw};
use std::alloc::Global;
use std::test::Fail;

// Whether the graph of the row is drawn as expected.
fn is_drawn(alloc: Global, row: &Row) -> Result<bool, Fail> {
    let graph = graph_of(alloc, row)?;
    match (draw(alloc, &graph)?, &row.expected) {
        (Drawn::Plane(r), Expected::Plane(numbers)) => {
            Ok(is_plane(alloc, &graph, &r, *numbers)?)
        }
        (Drawn::NotPlanar, Expected::Not(_)) => Ok(true),
        _ => Ok(false),
    }
}

#[test]
fn draws_rows(rt: HostRuntime) -> Result<(), Fail> {
    let alloc = rt.alloc();
    for row in ROWS.iter().chain(&TRAPS) {
        assert!(rt; is_drawn(alloc, row)?);
    }
    Ok(())
}

// Graphs that are not triconnected, by their numbers of vertices and the ends of their edges, where a path that is left fits two
// faces, or is attached at one vertex alone.
static CHOICES: [(u32, &[u32]); 4] = [
    // four edges between two vertices
    (2, &[0, 1, 0, 1, 0, 1, 0, 1]),
    // two vertices, each joined with four others
    (6, &[2, 0, 2, 1, 3, 0, 3, 1, 4, 0, 4, 1, 5, 0, 5, 1]),
    // a path
    (3, &[0, 1, 1, 2]),
    // two triangles at one vertex
    (5, &[0, 1, 1, 2, 2, 0, 2, 3, 3, 4, 4, 2]),
];

// Whether the drawing is stuck.
fn is_stuck(alloc: Global, vertices: u32, ends: &[u32]) -> Result<bool, Fail> {
    let graph = graph_with(alloc, vertices, ends)?;
    match draw(alloc, &graph)? {
        Drawn::Stuck => Ok(true),
        _ => Ok(false),
    }
}

#[test]
fn is_stuck_at_choices(rt: HostRuntime) -> Result<(), Fail> {
    let alloc = rt.alloc();
    for (vertices, ends) in &CHOICES {
        assert!(rt; is_stuck(alloc, *vertices, ends)?);
    }
    Ok(())
}
