// Triangulations of small graphs, and of a long path and a large star: how many edges they have.

ghost use Rattle.std.specs.Bool.{OnTrue};
ghost use Rattle.std.specs.Prelude.{◌≡◌, ◌<◌, ℕ, true, IfOk, IfSome};
ghost use Rattle.multigraph.specs.Graph.{edge_count, ends_of};
ghost use Rattle.graph_theory.specs.Triconnected.{IsSimple, SameEnds};
ghost use Rattle.canonical_orders.specs.State.{IsTriangulatedMap};

use crate::rotation_systems::lists_of;
use faces::euler;
use multigraph::Graph;
use rotations::{Lists, Rotation};
use std::alloc::{AllocError, Global};
use std::test::Fail;
use triangulations::{DartMap, triangulate};

// A graph, the edges around each vertex, the least first, and how many darts its triangulation has: 6n - 12 with n vertices.
struct Row {
    name: &'static str,
    vertices: u32,
    ends: &'static [(u32, u32)],
    orders: &'static [(u32, &'static [u32])],
    darts: u32,
}

static ROWS: [Row; 7] = [
    Row {
        name: "a path of three vertices",
        vertices: 3,
        ends: &[(0, 1), (1, 2)],
        orders: &[(0, &[0]), (1, &[0, 1]), (2, &[1])],
        darts: 6,
    },
    Row {
        name: "a star",
        vertices: 4,
        ends: &[(0, 1), (0, 2), (0, 3)],
        orders: &[(0, &[0, 1, 2]), (1, &[0]), (2, &[1]), (3, &[2])],
        darts: 12,
    },
    Row {
        name: "a cycle",
        vertices: 5,
        ends: &[(0, 1), (1, 2), (2, 3), (3, 4), (4, 0)],
        orders: &[
            (0, &[0, 4]),
            (1, &[0, 1]),
            (2, &[1, 2]),
            (3, &[2, 3]),
            (4, &[3, 4]),
        ],
        darts: 18,
    },
    Row {
        name: "two triangles with a common vertex",
        vertices: 5,
        ends: &[(0, 1), (1, 2), (2, 0), (0, 3), (3, 4), (4, 0)],
        orders: &[
            (0, &[0, 2, 3, 5]),
            (1, &[0, 1]),
            (2, &[1, 2]),
            (3, &[3, 4]),
            (4, &[4, 5]),
        ],
        darts: 18,
    },
    Row {
        name: "a triangle with an edge inside",
        vertices: 4,
        ends: &[(0, 1), (1, 2), (2, 0), (0, 3)],
        orders: &[(0, &[0, 2, 3]), (1, &[0, 1]), (2, &[1, 2]), (3, &[3])],
        darts: 12,
    },
    Row {
        name: "K4",
        vertices: 4,
        ends: &[(0, 1), (0, 2), (0, 3), (1, 2), (1, 3), (2, 3)],
        orders: &[
            (0, &[0, 1, 2]),
            (1, &[0, 4, 3]),
            (2, &[1, 3, 5]),
            (3, &[2, 5, 4]),
        ],
        darts: 12,
    },
    Row {
        name: "a wheel",
        vertices: 5,
        ends: &[
            (0, 1),
            (0, 2),
            (0, 3),
            (0, 4),
            (1, 2),
            (2, 3),
            (3, 4),
            (4, 1),
        ],
        orders: &[
            (0, &[0, 1, 2, 3]),
            (1, &[0, 7, 4]),
            (2, &[1, 4, 5]),
            (3, &[2, 5, 6]),
            (4, &[3, 6, 7]),
        ],
        darts: 18,
    },
];

// Whether edges a and b have the same two ends.
fn are_parallel(g: &Graph, a: u32, b: u32) -> bool
    requires first { a < edge_count g.now }
    requires second { b < edge_count g.now }
    ensures { SameEnds (ends_of g.now a) (ends_of g.now b) → result ≡ true }
{
    let (p, q) = g.ends(a);
    let (x, y) = g.ends(b);
    (p == x && q == y) || (p == y && q == x)
}

// Whether no edge before edge a has the same two ends.
fn is_new(g: &Graph, a: u32) -> bool
    requires { a < edge_count g.now }
    ensures { OnTrue result ((b : ℕ) → b < a → SameEnds (ends_of g.now a) (ends_of g.now b) → ⊥) }
{
    for b in 0..a {
        if are_parallel(g, a, b) {
            return false;
        }
    }
    true
}

// Whether no two edges have the same two ends.
fn is_simple(g: &Graph) -> bool
    ensures { OnTrue result (IsSimple g.now) }
{
    for a in 0..g.edge_count() {
        if !is_new(g, a) {
            return false;
        }
    }
    true
}

// The triangulation of the graph, with the edges around each vertex in the order of the lists; none where the graph or the order is
// not as `triangulate` requires.
pub(crate) fn triangulation(
    alloc: Global,
    vertices: u32,
    ends: &[(u32, u32)],
    lists: &Lists,
) -> Result<Option<DartMap>, Fail>
    ensures { IfOk result (λ found. IfSome found IsTriangulatedMap) }
{
    let g = Graph::build(alloc, vertices, ends)?;
    let r = Rotation::from_lists(alloc, &g, lists)?;
    let numbers = euler(alloc, &g, &r)?;
    if numbers.v < 3 || numbers.c != 1 {
        return Ok(None);
    }
    if !numbers.plane {
        return Ok(None);
    }
    if !is_simple(&g) {
        return Ok(None);
    }
    let map = triangulate(alloc, &g, &r)?;
    Ok(Some(map))
}

// How many darts this triangulation has.
fn dart_count(
    alloc: Global,
    vertices: u32,
    ends: &[(u32, u32)],
    lists: &Lists,
) -> Result<Option<u32>, Fail> {
    match triangulation(alloc, vertices, ends, lists)? {
        Some(map) => Ok(Some(map.dart_count())),
        None => Ok(None),
    }
}

#[test]
fn triangulations_have_three_edges_a_vertex(rt: HostRuntime) -> Result<(), Fail> {
    for row in &ROWS {
        let lists = lists_of(rt.alloc(), row.orders)?;
        let darts = dart_count(rt.alloc(), row.vertices, row.ends, &lists)?;
        assert_eq!(rt; darts, Some(row.darts), "{}", row.name);
    }
    Ok(())
}

// Appends the edges around vertex v, which is above the last one.
pub(crate) fn append(lists: &mut Lists, v: u32, edges: &[u32]) -> Result<(), AllocError> {
    if lists.is_above(v) {
        lists.push(v, edges)?;
    }
    Ok(())
}

#[test]
fn long_path(rt: HostRuntime) -> Result<(), Fail> {
    let mut ends = Vec::new(rt.alloc());
    let mut lists = Lists::new(rt.alloc());
    append(&mut lists, 0, &[0])?;
    for v in 1..1_999u32 {
        ends.push((v - 1, v))?;
        append(&mut lists, v, &[v - 1, v])?;
    }
    ends.push((1_998, 1_999))?;
    append(&mut lists, 1_999, &[1_998])?;
    assert_eq!(rt; dart_count(rt.alloc(), 2_000, &ends, &lists)?, Some(11_988));
    Ok(())
}

#[test]
fn large_star(rt: HostRuntime) -> Result<(), Fail> {
    let mut ends = Vec::new(rt.alloc());
    let mut around = Vec::new(rt.alloc());
    for v in 1..2_000u32 {
        ends.push((0, v))?;
        around.push(v - 1)?;
    }
    let mut lists = Lists::new(rt.alloc());
    append(&mut lists, 0, &around)?;
    for v in 1..2_000u32 {
        append(&mut lists, v, &[v - 1])?;
    }
    assert_eq!(rt; dart_count(rt.alloc(), 2_000, &ends, &lists)?, Some(11_988));
    Ok(())
}
