// K4, which many skeletons are: its plane rotation system, without a search.

use multigraph::Graph;
use rotations::Lists;
use std::alloc::{AllocError, Global};

// The other three of the vertices 0 to 3 in a cyclic order around one of them. Together they are plane: each of the four triangles is a face.
fn others_around(vertex: u32) -> [u32; 3] {
    match vertex {
        0 => [1, 2, 3],
        1 => [0, 3, 2],
        2 => [0, 1, 3],
        _ => [0, 2, 1],
    }
}

// The least edge between two vertices, if there is one.
fn edge_between(g: &Graph, v: u32, w: u32) -> Option<u32> {
    for e in 0..g.edge_count() {
        let (first, second) = g.ends(e);
        if (first == v && second == w) || (first == w && second == v) {
            return Some(e);
        }
    }
    None
}

// The edges around a vertex, if there is one to each other vertex.
fn edges_around(g: &Graph, vertex: u32) -> Option<[u32; 3]> {
    let [a, b, c] = others_around(vertex);
    let first = edge_between(g, vertex, a)?;
    let second = edge_between(g, vertex, b)?;
    let third = edge_between(g, vertex, c)?;
    Some([first, second, third])
}

/// The edges around each vertex, if the graph is K4. Fails only if memory runs out.
pub(crate) fn complete_rotation(alloc: Global, g: &Graph) -> Result<Option<Lists>, AllocError> {
    if g.vertex_count() != 4 || g.edge_count() != 6 {
        return Ok(None);
    }
    let mut lists = Lists::new(alloc);
    for vertex in 0..4 {
        let Some(edges) = edges_around(g, vertex) else {
            return Ok(None);
        };
        if lists.is_above(vertex) {
            lists.push(vertex, &edges)?;
        }
    }
    Ok(Some(lists))
}
