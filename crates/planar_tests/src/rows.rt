// Small triconnected graphs, plane ones and others, with what an embedder is to answer.

ghost use Rattle.rotations.specs.Rotation.{IsRotationSystem};

use faces::euler;
use kuratowski::Pattern;
use multigraph::Graph;
use rotations::Rotation;
use std::alloc::{AllocError, Global};
use std::test::Fail;

// How a graph is to be answered: with a plane rotation system, where it has this many vertices, edges, faces and components, or
// with a subdivision of this pattern.
pub(crate) enum Expected {
    Plane([u32; 4]),
    Not(Pattern),
}

// A graph by the ends of its edges, those of an edge next to each other, and its answer.
pub(crate) struct Row {
    pub(crate) vertices: u32,
    pub(crate) ends: &'static [u32],
    pub(crate) expected: Expected,
}

pub(crate) static ROWS: [Row; 10] = [
    // the tetrahedron
    Row {
        vertices: 4,
        ends: &[0, 1, 0, 2, 0, 3, 1, 2, 1, 3, 2, 3],
        expected: Expected::Plane([4, 6, 4, 1]),
    },
    // the cube
    Row {
        vertices: 8,
        ends: &[
            0, 1, 1, 2, 2, 3, 3, 0, 4, 5, 5, 6, 6, 7, 7, 4, 0, 4, 1, 5, 2, 6, 3, 7,
        ],
        expected: Expected::Plane([8, 12, 6, 1]),
    },
    // the octahedron
    Row {
        vertices: 6,
        ends: &[
            0, 1, 1, 2, 2, 3, 3, 0, 4, 0, 4, 1, 4, 2, 4, 3, 5, 0, 5, 1, 5, 2, 5, 3,
        ],
        expected: Expected::Plane([6, 12, 8, 1]),
    },
    // the dodecahedron: a ring of ten outer vertices, the spokes, and the inner vertices, each joined with the next but one
    Row {
        vertices: 20,
        ends: &[
            0, 1, 1, 2, 2, 3, 3, 4, 4, 5, 5, 6, 6, 7, 7, 8, 8, 9, 9, 0, 0, 10, 1, 11, 2, 12, 3, 13,
            4, 14, 5, 15, 6, 16, 7, 17, 8, 18, 9, 19, 10, 12, 11, 13, 12, 14, 13, 15, 14, 16, 15,
            17, 16, 18, 17, 19, 18, 10, 19, 11,
        ],
        expected: Expected::Plane([20, 30, 12, 1]),
    },
    // the wheel with twelve spokes
    Row {
        vertices: 13,
        ends: &[
            0, 1, 1, 2, 2, 3, 3, 4, 4, 5, 5, 6, 6, 7, 7, 8, 8, 9, 9, 10, 10, 11, 11, 0, 12, 0, 12,
            1, 12, 2, 12, 3, 12, 4, 12, 5, 12, 6, 12, 7, 12, 8, 12, 9, 12, 10, 12, 11,
        ],
        expected: Expected::Plane([13, 24, 13, 1]),
    },
    // the complete graph on five vertices
    Row {
        vertices: 5,
        ends: &[0, 1, 0, 2, 0, 3, 0, 4, 1, 2, 1, 3, 1, 4, 2, 3, 2, 4, 3, 4],
        expected: Expected::Not(Pattern::K5),
    },
    // the complete bipartite graph on three and three vertices
    Row {
        vertices: 6,
        ends: &[0, 3, 0, 4, 0, 5, 1, 3, 1, 4, 1, 5, 2, 3, 2, 4, 2, 5],
        expected: Expected::Not(Pattern::K33),
    },
    // the same with edges between the first three vertices; only these three have four edges or more
    Row {
        vertices: 6,
        ends: &[
            0, 3, 0, 4, 0, 5, 1, 3, 1, 4, 1, 5, 2, 3, 2, 4, 2, 5, 0, 1, 1, 2, 2, 0,
        ],
        expected: Expected::Not(Pattern::K33),
    },
    // the graph of Petersen; no vertex has four edges
    Row {
        vertices: 10,
        ends: &[
            0, 1, 1, 2, 2, 3, 3, 4, 4, 0, 0, 5, 1, 6, 2, 7, 3, 8, 4, 9, 5, 7, 7, 9, 9, 6, 6, 8, 8,
            5,
        ],
        expected: Expected::Not(Pattern::K33),
    },
    // the graph of Wagner: a ring of eight, opposite vertices joined
    Row {
        vertices: 8,
        ends: &[
            0, 1, 1, 2, 2, 3, 3, 4, 4, 5, 5, 6, 6, 7, 7, 0, 0, 4, 1, 5, 2, 6, 3, 7,
        ],
        expected: Expected::Not(Pattern::K33),
    },
];

// Graphs that a left-right method with a mistake gets wrong; which mistakes, is said with each.
pub(crate) static TRAPS: [Row; 7] = [
    // nesting depths without their last bit, or with the bit turned; no second exchange of sides; back edges not trimmed, or
    // those of the left interval not; the side of a tree edge, or of a trimmed interval, not noted; back edges on the right in
    // the same order as on the left
    Row {
        vertices: 5,
        ends: &[1, 4, 4, 2, 3, 0, 2, 0, 3, 1, 4, 0, 3, 4, 0, 1, 1, 2],
        expected: Expected::Plane([5, 9, 6, 1]),
    },
    // intervals merged without reference; dropped pairs not turned; sides determined in one pass
    Row {
        vertices: 5,
        ends: &[0, 3, 0, 2, 0, 1, 3, 4, 3, 2, 1, 4, 2, 1, 1, 3, 2, 4],
        expected: Expected::Plane([5, 9, 6, 1]),
    },
    // the second low point not handed on; no first exchange of sides; a trimmed interval without reference
    Row {
        vertices: 7,
        ends: &[
            4, 6, 3, 0, 0, 5, 4, 0, 1, 3, 3, 5, 5, 2, 5, 6, 1, 5, 2, 4, 6, 2, 4, 5, 1, 6,
        ],
        expected: Expected::Plane([7, 13, 8, 1]),
    },
    // pairs not dropped; four vertices have four edges or more
    Row {
        vertices: 6,
        ends: &[
            2, 0, 4, 3, 1, 0, 3, 1, 2, 1, 2, 4, 2, 5, 3, 5, 1, 5, 0, 3, 4, 1, 2, 3,
        ],
        expected: Expected::Not(Pattern::K33),
    },
    // back edges of the right interval not trimmed
    Row {
        vertices: 6,
        ends: &[
            0, 3, 5, 4, 3, 5, 5, 1, 5, 2, 0, 2, 4, 2, 2, 1, 3, 4, 0, 5, 1, 4, 2, 3,
        ],
        expected: Expected::Plane([6, 12, 8, 1]),
    },
    // edges that return to the same height taken for conflicting
    Row {
        vertices: 5,
        ends: &[0, 2, 4, 0, 2, 3, 3, 4, 1, 4, 0, 3, 1, 2, 1, 0],
        expected: Expected::Plane([5, 8, 5, 1]),
    },
    // an interval that returns as low as the parent edge without reference to its lowest edge
    Row {
        vertices: 7,
        ends: &[
            4, 1, 6, 4, 3, 1, 3, 4, 5, 6, 6, 0, 4, 5, 2, 0, 6, 2, 2, 4, 3, 6, 1, 0, 5, 3,
        ],
        expected: Expected::Plane([7, 13, 8, 1]),
    },
];

// The graph of so many vertices with these ends of edges, those of an edge next to each other.
pub(crate) fn graph_with(alloc: Global, vertices: u32, ends: &[u32]) -> Result<Graph, Fail> {
    let mut pairs = Vec::new(alloc);
    for pair in ends.chunks(2) {
        if let [first, second] = pair {
            pairs.push((*first, *second))?;
        }
    }
    Ok(Graph::build(alloc, vertices, &pairs)?)
}

// The graph of the row.
pub(crate) fn graph_of(alloc: Global, row: &Row) -> Result<Graph, Fail> {
    graph_with(alloc, row.vertices, row.ends)
}

// Whether the rotation system is plane, with these numbers of vertices, edges, faces and components.
pub(crate) fn is_plane(
    alloc: Global,
    graph: &Graph,
    r: &Rotation,
    numbers: [u32; 4],
) -> Result<bool, AllocError>
    requires { IsRotationSystem graph.now r.now }
{
    let sum = euler(alloc, graph, r)?;
    Ok(sum.plane && [sum.v, sum.e, sum.f, sum.c] == numbers)
}
