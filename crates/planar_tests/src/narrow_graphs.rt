// Long and narrow graphs that are not planar: short ones, in which few edges are enough, and long ones, in which a subdivision is
// found by minors.

use kuratowski::is_subdivision;
use multigraph::Graph;
use quick_obstruct::propose_subdivision;
use std::alloc::{AllocError, Global};
use std::test::Fail;

// A ring of this many vertices, opposite ones joined: a ladder closed with a twist.
fn twisted_ladder(alloc: Global, vertices: u32) -> Result<Graph, Fail> {
    let mut ends = Vec::new(alloc);
    for v in 1..vertices {
        ends.push((v - 1, v))?;
    }
    ends.push((vertices.saturating_sub(1), 0))?;
    for v in 0..vertices / 2 {
        ends.push((v, v.saturating_add(vertices / 2)))?;
    }
    Ok(Graph::build(alloc, vertices, &ends)?)
}

// Triangles in a row, each on an edge of the one before, and three edges across.
fn strip(alloc: Global, vertices: u32) -> Result<Graph, Fail> {
    let mut ends = Vec::new(alloc);
    ends.push((0, 1))?;
    let (mut last, mut other) = (0, 1);
    for v in 2..vertices {
        ends.push((last, v))?;
        ends.push((v, other))?;
        other = if v % 2 == 0 { last } else { other };
        last = v;
    }
    ends.push((0, vertices.saturating_sub(1)))?;
    ends.push((5, vertices / 2))?;
    ends.push((9, vertices / 3))?;
    Ok(Graph::build(alloc, vertices, &ends)?)
}

// Whether what is proposed for the graph is a subdivision in it.
fn is_found(alloc: Global, graph: &Graph) -> Result<bool, AllocError> {
    match propose_subdivision(alloc, graph)? {
        None => Ok(false),
        Some(proposal) => is_subdivision(alloc, graph, &proposal),
    }
}

#[test]
fn finds_subdivisions_in_narrow_graphs(rt: HostRuntime) -> Result<(), Fail> {
    let alloc = rt.alloc();
    for vertices in [6, 8, 60, 2000] {
        let ladder = twisted_ladder(alloc, vertices)?;
        assert!(rt; is_found(alloc, &ladder)?, "{vertices}");
    }
    for vertices in [60, 100, 2000] {
        let strip = strip(alloc, vertices)?;
        assert!(rt; is_found(alloc, &strip)?, "{vertices}");
    }
    Ok(())
}
