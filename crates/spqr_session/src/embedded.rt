// The blocks of a graph, each with its tree, and its embedding or its certificate.
ghost use Rattle.std.specs.Prelude.{◌≡◌, ◌<◌, length, None, IfOk};
ghost use Rattle.blocks.specs.Blocks.{IsBlockStructure, block_at};
ghost use Rattle.spqr_session.specs.Embedded.{block_view, KeepsTogether, IsEmbedded, IsInPlane, IsStartBlock, AreStartBlocks};

mod changing;
mod finding;
mod returning;
mod sharing;

use blocks::Blocks;
pub(crate) use changing::moved_copy;
use finding::outcome_of;
use multigraph::{Graph, Part};
use pair_split::Splitter;
use planarity::{Embedder, subdivision_excludes_plane};
use skel_embed::Outcome;
use spqr_tree::Tree;
use std::alloc::{AllocError, Global};
use std::marker::Model;

/// A block as a graph of its own with its tree; and where it is planar its present plane rotation system with the locks of
/// nodes, else a subdivision of K5 or K3,3 in it. Contracts see the part with the tree, the certificate and the embedding.
#[derive(Debug, Drop)]
pub struct EmbeddedBlock {
    part: Part,
    outcome: Outcome,
}

impl Model for EmbeddedBlock {
    ghost use Rattle.spqr_session.specs.Embedded.{BlockView, block_view, IsEmbedded};

    ghost Value = { BlockView };

    ghost view = { λ b. block_view b.part b.outcome };

    ghost invariant = { λ b. IsEmbedded b.part b.outcome };
}

impl EmbeddedBlock {
    /// The block as a graph of its own.
    pub fn part(&self) -> &Part
        ensures { result.now ≡ self.now.tree.part }
    {
        &self.part
    }

    /// The block in the plane with its tree, or its graph, its tree and its certificate.
    pub fn outcome(&self) -> &Outcome
        ensures view { block_view self.now.tree.part result.now ≡ self.now }
        ensures right { IsEmbedded self.now.tree.part result.now }
    {
        &self.outcome
    }

    /// The embedding of a planar block is a plane rotation system of it. For proofs alone: does nothing.
    pub fn belongs(&self)
        ensures { IsInPlane self.now }
    {
        let _ = self.outcome();
    }

    /// The tree.
    pub fn tree(&self) -> &Tree
        ensures { result.now ≡ self.now.tree.nodes }
    {
        match &self.outcome {
            Outcome::Plane(plane) => plane.tree(),
            Outcome::Not(block) => block.tree(),
        }
    }
}

// What a block in the plane keeps belongs together.
fn keeps_together(outcome: &Outcome)
    ensures { KeepsTogether outcome.now }
{
    if let Outcome::Plane(plane) = outcome {
        plane.belongs();
    }
}

// Block `b` with its tree, embedded; the blocks before it are those of the graph, at the start of a session.
fn embedded_block<P: Splitter, E: Embedder>(
    alloc: Global,
    graph: &Graph,
    blocks: &Blocks,
    b: u32,
    before: &[EmbeddedBlock],
    splitter: &mut P,
    embedder: &mut E,
) -> Result<EmbeddedBlock, AllocError>
    requires structure { IsBlockStructure graph.now blocks.now }
    requires block { b < length blocks.now.blocks }
    requires start { AreStartBlocks None graph.now blocks.now.blocks b before.now }
    ensures { IfOk result (IsStartBlock None graph.now (block_at blocks.now.blocks b)) }
{
    let part = graph.part(alloc, blocks.edges(b))?;
    let outcome = outcome_of(alloc, part.graph(), before, splitter, embedder)?;
    keeps_together(&outcome);
    // That a block with a certificate has no plane rotation system.
    subdivision_excludes_plane();
    Ok(EmbeddedBlock { part, outcome })
}

/// The blocks of a graph, in order: each is made a graph of its own, split, and the split components are put together to its
/// tree; then it is brought to its first plane rotation system, with no node locked, or has a certificate. Where a block has the same
/// graph as one of the last few before it, all this is copied.
pub fn embedded_blocks<P: Splitter, E: Embedder>(
    alloc: Global,
    graph: &Graph,
    blocks: &Blocks,
    splitter: &mut P,
    embedder: &mut E,
) -> Result<Vec<EmbeddedBlock>, AllocError>
    requires { IsBlockStructure graph.now blocks.now }
    ensures { IfOk result (λ embedded. AreStartBlocks None graph.now blocks.now.blocks
        (length blocks.now.blocks) embedded.items) }
{
    let mut embedded = Vec::with_capacity(alloc, blocks.block_count() as usize)?;
    for b in 0..blocks.block_count() {
        let block = embedded_block(alloc, graph, blocks, b, &embedded, splitter, embedder)?;
        embedded.push(block)?;
    }
    Ok(embedded)
}
