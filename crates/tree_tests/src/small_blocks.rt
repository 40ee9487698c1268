// Small blocks by the ends of their edges.

ghost use Rattle.std.specs.Prelude.{IfOk};
ghost use Rattle.graph_theory.specs.Block.{IsOneBlock};

use blocks::is_one_block;
use multigraph::Graph;
use std::alloc::{AllocError, Global};
use std::test::Fail;

// The ends of the edges, a digit for each, from the edge at `first` on.
pub(crate) fn ends_of(
    alloc: Global,
    text: &str,
    first: usize,
) -> Result<Vec<(u32, u32)>, AllocError> {
    let mut ends = Vec::new(alloc);
    for word in text.split(' ') {
        if let [a, b] = word.as_bytes() {
            ends.push((a.wrapping_sub(b'0') as u32, b.wrapping_sub(b'0') as u32))?;
        }
    }
    ends.rotate_left(first.min(ends.len()));
    Ok(ends)
}

// The graph of these edges, where it is one block.
pub(crate) fn block_of(alloc: Global, n: u32, ends: &[(u32, u32)]) -> Result<Graph, Fail>
    ensures { IfOk result IsOneBlock }
{
    let Ok(graph) = Graph::build(alloc, n, ends) else {
        return Err(Fail::from("no graph"));
    };
    if !is_one_block(alloc, &graph)? {
        return Err(Fail::from("no block"));
    }
    Ok(graph)
}
