// The start of a session that a file gives.
ghost use Rattle.std.specs.Prelude.{◌≡◌, ◌⊎◌, length, None, IfOk, IfErr, IsSome, IsTrue, IsFalse};
ghost use Rattle.multigraph.specs.Graph.{IsGraph};
ghost use Rattle.gml_graph.specs.Named.{IsNamed};
ghost use Rattle.blocks.specs.Blocks.{IsBlockStructure};
ghost use Rattle.spqr_session.specs.Embedded.{AreStartBlocks};
ghost use Rattle.spqr_session.specs.Start.{IsStartRefusal};
ghost use Rattle.spqr_session.specs.Starting.{IsReadyFor, IsBlockTaken, IsGenusRefusal};

use crate::embedded::EmbeddedBlock;
use crate::fault::StartFault;
use crate::sorting::start_lists;
use blocks::Blocks;
use gml_graph::Named;
use rotations::Lists;
use skel_embed::TakeFault;
use std::alloc::Global;

// Whether the file gives a start to a graph with a vertex.
fn has_start(named: &Named) -> bool
    ensures some { IsTrue result → IsSome named.now.start }
    ensures none { IsFalse result
        → (named.now.start ≡ None) ⊎ (named.now.graph.vertex_count ≡ 0) }
    ensures graph { IsGraph named.now.graph }
    ensures named { IsNamed named.now }
{
    named.graph().vertex_count() > 0 && named.start(0).is_some()
}

// Brings block `b` to the rotation system that its lists are, if it is planar.
fn start_block(
    alloc: Global,
    block: &mut EmbeddedBlock,
    b: u32,
    lists: &Lists,
) -> Result<(), StartFault>
    requires { IsReadyFor lists.now block.old }
    ensures taken { IfOk result (λ _. IsBlockTaken lists.now block.old block.new) }
    ensures refused { IfErr result (IsGenusRefusal b lists.now block.old) }
{
    match block.take(alloc, lists) {
        Ok(()) => Ok(()),
        Err(fault) => match fault {
            TakeFault::NotGenusZero(v, e, f) => Err(StartFault::StartGenus(b, v, e, f)),
            TakeFault::Memory => Err(StartFault::Memory),
            TakeFault::BadRotation(_) | TakeFault::Locked(_) => unreachable!(),
        },
    }
}

/// Brings the planar blocks of a graph to the rotation systems that its file gives; where it gives none, they stay at their
/// first plane ones. Fails with `StartGenus` exactly where that of a planar block is not plane, with the least such block; fails
/// with `Memory` only if memory runs out. Reads each list once.
pub(crate) fn take_starts(
    alloc: Global,
    named: &Named,
    blocks: &Blocks,
    embedded: &mut Vec<EmbeddedBlock>,
) -> Result<(), StartFault>
    requires structure { IsBlockStructure named.now.graph blocks.now }
    requires first { AreStartBlocks None named.now.graph blocks.now.blocks
        (length blocks.now.blocks) embedded.old.items }
    ensures started { IfOk result (λ _. AreStartBlocks named.now.start named.now.graph blocks.now.blocks
        (length blocks.now.blocks) embedded.new.items) }
    ensures refused { IfErr result (IsStartRefusal named.now) }
{
    if !has_start(named) {
        return Ok(());
    }
    let lists = start_lists(alloc, named, blocks)?;
    for b in 0..blocks.block_count() {
        start_block(alloc, &mut embedded[b as usize], b, &lists[b as usize])?;
    }
    Ok(())
}
