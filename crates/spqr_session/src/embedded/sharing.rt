// What was found of a block, copied for a later block with the same graph.
ghost use Rattle.std.specs.Prelude.{◌≡◌, ◌<◌, ◌↔◌, IsTrue, IfOk, IfSome};
ghost use Rattle.std.specs.List.{Contains};
ghost use Rattle.multigraph.specs.Graph.{edge_count, ends_of};

use super::EmbeddedBlock;
use multigraph::Graph;
use skel_embed::Outcome;
use std::alloc::{AllocError, Global};

// With how many of the blocks before it a block is compared. A comparison takes at most the time of reading the block, so all of
// them together take time in proportion to the graph.
const LOOK_BACK: usize = 8;

// Whether edge `e` has the same first and the same second end in both graphs.
fn has_same_ends(one: &Graph, other: &Graph, e: u32) -> bool
    requires one { e < edge_count one.now }
    requires other { e < edge_count other.now }
    ensures { IsTrue result ↔ (ends_of one.now e ≡ ends_of other.now e) }
{
    let (first, second) = one.ends(e);
    let (other_first, other_second) = other.ends(e);
    first == other_first && second == other_second
}

// Whether the graphs are equal: as many vertices and edges, and each edge with the same ends.
fn is_same(one: &Graph, other: &Graph) -> bool
    ensures { IsTrue result ↔ (one.now ≡ other.now) }
{
    if one.vertex_count() != other.vertex_count() {
        return false;
    }
    if one.edge_count() != other.edge_count() {
        return false;
    }
    for e in 0..one.edge_count() {
        if !has_same_ends(one, other, e) {
            return false;
        }
    }
    true
}

/// The last one of the last few blocks that has this graph, if one has. Takes no memory.
pub(crate) fn last_like<'a>(before: &'a [EmbeddedBlock], graph: &Graph) -> Option<&'a EmbeddedBlock>
    ensures among { IfSome result (λ block. Contains before.now block.now) }
    ensures graph { IfSome result (λ block. block.now.tree.part.graph ≡ graph.now) }
{
    before
        .iter()
        .rev()
        .take(LOOK_BACK)
        .find(|block| is_same(block.part().graph(), graph))
}

/// A copy of what was found, which shares graph and tree with it, and the certificate where it has one. Fails only if memory runs out.
pub(crate) fn copied(alloc: Global, outcome: &Outcome) -> Result<Outcome, AllocError>
    ensures { IfOk result (λ copy. copy ≡ outcome.now) }
{
    match outcome {
        Outcome::Plane(plane) => Ok(Outcome::Plane(plane.copy(alloc)?)),
        Outcome::Not(block) => Ok(Outcome::Not(block.copy()?)),
    }
}
