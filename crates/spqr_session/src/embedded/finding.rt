// What is found of a block: its tree, and its first plane rotation system or a certificate. It depends on the block's graph alone.
ghost use Rattle.std.specs.Prelude.{ℕ, List, length, None, IfOk};
ghost use Rattle.multigraph.specs.Graph.{Multigraph};
ghost use Rattle.graph_theory.specs.Block.{IsOneBlock};
ghost use Rattle.spqr_session.specs.Embedded.{AreStartBlocks, IsFound};

use super::EmbeddedBlock;
use super::sharing::{copied, last_like};
use multigraph::Graph;
use pair_split::Splitter;
use planarity::Embedder;
use skel_embed::{Outcome, plane_block};
use spqr_tree::Tree;
use std::alloc::{AllocError, Global};

// What is found of a block by splitting it, putting the split components together to its tree, and embedding it.
fn found_anew<P: Splitter, E: Embedder>(
    alloc: Global,
    graph: &Graph,
    splitter: &mut P,
    embedder: &mut E,
) -> Result<Outcome, AllocError>
    requires { IsOneBlock graph.now }
    ensures { IfOk result (IsFound graph.now) }
{
    graph.keeps_limits();
    let comps = splitter.split(alloc, graph)?;
    let tree = Tree::assemble(alloc, graph, comps)?;
    let kept = graph.copy(alloc)?;
    let outcome = plane_block(alloc, kept, tree, embedder)?;
    Ok(outcome)
}

/// What is found of a block. Where one of the last few blocks before it has the same graph, what was found of that one is copied;
/// else it is found anew. The blocks before stand at the start of a session. Fails only if memory runs out.
pub(crate) fn outcome_of<P: Splitter, E: Embedder>(
    alloc: Global,
    graph: &Graph,
    before: &[EmbeddedBlock],
    splitter: &mut P,
    embedder: &mut E,
) -> Result<Outcome, AllocError>
    requires block { IsOneBlock graph.now }
    requires start { (g : Multigraph) × (blocks : List (List ℕ))
        × AreStartBlocks None g blocks (length before.now) before.now }
    ensures { IfOk result (IsFound graph.now) }
{
    match last_like(before, graph) {
        Some(block) => copied(alloc, block.outcome()),
        None => found_anew(alloc, graph, splitter, embedder),
    }
}
