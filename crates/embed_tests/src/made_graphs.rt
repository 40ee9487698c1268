// Worked rows: the first turns from the number 1.

ghost use Rattle.std.specs.Prelude.{◌≤◌};
ghost use Rattle.made_graph.specs.Made.{max_asked};

use made_graph::make_graph;
use multigraph::Graph;
use std::alloc::Global;
use std::test::Fail;

// How many vertices and edges the graph has, and the ends of its last edge.
fn row(alloc: Global, n: u32, seed: u64) -> Result<(u32, u32, (u32, u32)), Fail>
    requires least { 6 ≤ n }
    requires most { n ≤ max_asked }
{
    let graph = make_graph(alloc, n, seed)?;
    let edges = graph.edge_count();
    let last = if edges > 0 {
        graph.ends(edges - 1)
    } else {
        (0, 0)
    };
    Ok((graph.vertex_count(), edges, last))
}

#[test]
fn no_turn(rt: HostRuntime) -> Result<(), Fail> {
    assert_eq!(rt; row(rt.alloc(), 6, 1)?, (4, 6, (2, 3)));
    assert_eq!(rt; row(rt.alloc(), 6, u64::MAX)?, (4, 6, (2, 3)));
    Ok(())
}

#[test]
fn one_turn(rt: HostRuntime) -> Result<(), Fail> {
    assert_eq!(rt; row(rt.alloc(), 7, 1)?, (5, 8, (4, 3)));
    Ok(())
}
