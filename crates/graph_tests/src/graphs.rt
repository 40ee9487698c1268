// The complete graph on four vertices read back, and the first fault of lists that are not a graph.

use multigraph::*;
use std::alloc::{AllocError, Global};
use std::test::Fail;

const K4: [(u32, u32); 6] = [(0, 1), (0, 2), (0, 3), (1, 2), (1, 3), (2, 3)];

// What building returns, as a text.
fn answer(alloc: Global, n: u32, ends: &[(u32, u32)]) -> Result<String, AllocError> {
    match Graph::build(alloc, n, ends) {
        Ok(g) => {
            let vertices = g.vertex_count();
            let edges = g.edge_count();
            format!(in alloc; "{vertices} vertices, {edges} edges")
        }
        Err(fault) => format!(in alloc; "{fault}"),
    }
}

#[test]
fn reads_back_a_graph(rt: HostRuntime) -> Result<(), Fail> {
    let g = Graph::build(rt.alloc(), 5, &K4)?;
    assert_eq!(rt; g.vertex_count(), 5);
    assert_eq!(rt; g.edge_count(), 6);
    assert_eq!(rt; g.ends(4), (1, 3));
    assert_eq!(rt; g.degree(1), 3);
    assert_eq!(rt; g.incident(2), [1, 3, 5].as_slice());
    assert_eq!(rt; g.incident(4), [].as_slice());
    assert_eq!(rt; g.other_end(4, 3), 1);
    for (e, v, far) in [(4, 3, 1), (4, 1, 3), (4, 0, 99), (0, 0, 1), (6, 0, 99)] {
        assert_eq!(rt; g.is_edge_at(e, v), far != 99);
        assert_eq!(rt; number(g.far_end(e, v)), far);
    }
    let again = g.copy(rt.alloc())?;
    assert_eq!(rt; again.vertex_count(), 5);
    assert_eq!(rt; again.edge_count(), 6);
    for e in 0..g.edge_count() {
        assert_eq!(rt; again.ends(e), g.ends(e));
    }
    for v in 0..g.vertex_count() {
        assert_eq!(rt; again.incident(v), g.incident(v));
    }
    Ok(())
}

// Numbers of vertices and ends of edges, with what building says.
static BUILT: [(u32, &[(u32, u32)], &str); 7] = [
    (0, &[], "0 vertices, 0 edges"),
    (2, &[(0, 1), (1, 0), (0, 1)], "2 vertices, 3 edges"),
    (20_000, &[(19_999, 0)], "20000 vertices, 1 edges"),
    (
        2,
        &[(0, 1), (0, 2), (0, 0)],
        "edge 1 has an end that is not a vertex",
    ),
    (
        2,
        &[(0, 1), (2, 0)],
        "edge 1 has an end that is not a vertex",
    ),
    (2, &[(0, 1), (1, 1), (0, 2)], "edge 1 is a loop"),
    (1, &[(1, 1)], "edge 0 has an end that is not a vertex"),
];

#[test]
fn names_the_first_fault(rt: HostRuntime) -> Result<(), Fail> {
    for (n, ends, expected) in &BUILT {
        let text = answer(rt.alloc(), *n, ends)?;
        assert_eq!(rt; text.as_str(), *expected);
    }
    let many = vec![in rt.alloc(); (0u32, 0u32); 50_001]?;
    let vertices = answer(rt.alloc(), 20_001, &many)?;
    let edges = answer(rt.alloc(), 1, &many)?;
    assert_eq!(rt; vertices.as_str(), "20001 vertices are too many");
    assert_eq!(rt; edges.as_str(), "50001 edges are too many");
    Ok(())
}

#[test]
fn shows_each_fault(rt: HostRuntime) -> Result<(), Fail> {
    let rows = [
        (
            BuildFault::TooManyVertices(20_001),
            "20001 vertices are too many",
        ),
        (BuildFault::TooManyEdges(50_001), "50001 edges are too many"),
        (
            BuildFault::EndOut(7),
            "edge 7 has an end that is not a vertex",
        ),
        (BuildFault::Loop(0), "edge 0 is a loop"),
        (BuildFault::Memory, "out of memory"),
    ];
    for (fault, expected) in rows {
        let text = format!(in rt.alloc(); "{fault}")?;
        assert_eq!(rt; text.as_str(), expected);
    }
    Ok(())
}

#[test]
fn lists_show_what_they_are_made_of(rt: HostRuntime) -> Result<(), Fail> {
    let alloc = rt.alloc();
    let numbers = Numbers::of(vec![in alloc; 3, 1, 2]?);
    assert_eq!(rt; numbers.as_slice(), [3, 1, 2].as_slice());
    let lists = NumberLists::of(vec![in alloc; numbers]?);
    assert_eq!(rt; lists.as_slice().len(), 1);
    assert_eq!(rt; lists.as_slice()[0].as_slice(), [3, 1, 2].as_slice());
    Ok(())
}

// The numbers that an answer holds, and 99 for none.
fn number(answer: Option<u32>) -> u32 {
    answer.unwrap_or(99)
}

// The edges of a part: their numbers, ends and numbers in the whole graph.
static PART_EDGES: [(u32, (u32, u32), u32); 3] = [(0, (0, 1), 3), (1, (2, 1), 4), (2, (2, 3), 6)];

// Its vertices, and their numbers in the whole graph.
static PART_VERTICES: [(u32, u32); 4] = [(0, 2), (1, 3), (2, 4), (3, 5)];

// For each vertex and each edge of the whole graph the number in the part.
static INNER_VERTICES: [u32; 7] = [99, 99, 0, 1, 2, 3, 99];

static INNER_EDGES: [u32; 7] = [99, 99, 99, 0, 1, 99, 2];

#[test]
fn part_of_two_triangles(rt: HostRuntime) -> Result<(), Fail> {
    // Two triangles at vertex 2 with a tail, and a vertex without edges.
    let ends = [(0, 1), (2, 1), (0, 2), (2, 3), (4, 3), (2, 4), (4, 5)];
    let g = Graph::build(rt.alloc(), 7, &ends)?;
    let part = g.part(rt.alloc(), &[3, 4, 6])?;
    assert_eq!(rt; part.graph().vertex_count(), 4);
    assert_eq!(rt; part.graph().edge_count(), 3);
    // Each edge of the part has its ends there and its number in the whole graph.
    for (i, ends, outer) in &PART_EDGES {
        assert_eq!(rt; part.graph().ends(*i), *ends);
        assert_eq!(rt; part.edge(*i), *outer);
    }
    for (i, outer) in &PART_VERTICES {
        assert_eq!(rt; part.vertex(*i), *outer);
    }
    // The numbers in the part of all vertices and edges, 99 for those that are not in it.
    for v in 0..7u32 {
        assert_eq!(rt; number(part.inner_vertex(v)), INNER_VERTICES[v as usize]);
        assert_eq!(rt; number(part.inner_edge(v)), INNER_EDGES[v as usize]);
    }
    Ok(())
}

#[test]
fn parts_of_all_and_of_no_edges(rt: HostRuntime) -> Result<(), Fail> {
    let g = Graph::build(rt.alloc(), 5, &K4)?;
    let all = g.part(rt.alloc(), &[0, 1, 2, 3, 4, 5])?;
    assert_eq!(rt; all.graph().vertex_count(), 4);
    for e in 0..6 {
        assert_eq!(rt; all.graph().ends(e), g.ends(e));
    }
    let none = g.part(rt.alloc(), &[])?;
    assert_eq!(rt; none.graph().vertex_count(), 0);
    assert_eq!(rt; none.graph().edge_count(), 0);
    assert_eq!(rt; number(none.inner_vertex(0)), 99);
    assert_eq!(rt; number(none.inner_edge(0)), 99);
    Ok(())
}
