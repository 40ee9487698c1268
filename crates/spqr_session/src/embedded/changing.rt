// A block's embedding changed. Memory is taken only for lists.
ghost use Rattle.std.specs.Prelude.{◌≡◌, ◌<◌, [], ◌∷◌, length, Some, IfOk, IfErr, All};
ghost use Rattle.skel_embed.specs.Block.{IsBlockState};
ghost use Rattle.skel_embed.specs.Taken.{IsGiven, IsTakeRefusal};
ghost use Rattle.spqr_session.specs.Starting.{IsBlockTaken, IsBlockRefusal};
ghost use Rattle.spqr_session.specs.State.{Embedding};
ghost use Rattle.embed_moves.specs.Made.{Fits};
ghost use Rattle.spqr_session.specs.Moved.{moved, all_moved};
ghost use Rattle.skel_embed.specs.Values.{as_move, as_moves};
ghost use Rattle.spqr_session.specs.History.{entry_moved, entry_locked, entry_mirrored};
ghost use Rattle.spqr_session.specs.Embedded.{entry_lock};

use super::EmbeddedBlock;
use embed_moves::carry_out;
use multigraph::Part;
use rotations::Lists;
use skel_embed::{Move, MoveList, Outcome, PlaneBlock, TakeFault};
use std::alloc::{AllocError, Global};

impl EmbeddedBlock {
    /// Whether node `k` is locked; no node of a block that is not planar is.
    pub(crate) fn locked(&self, k: u32) -> bool
        requires { k < length self.now.tree.nodes }
        ensures { result ≡ entry_lock k self.now.entry }
    {
        match &self.outcome {
            Outcome::Plane(plane) => plane.locked(k),
            Outcome::Not(_) => false,
        }
    }

    /// Locks node `k` of a planar block, or takes its lock away.
    pub(crate) fn set_lock(&mut self, k: u32, on: bool)
        requires { k < length self.old.tree.nodes }
        ensures { self.new ≡ record self.old { entry = entry_locked k on self.old.entry } }
    {
        if let Outcome::Plane(plane) = &mut self.outcome {
            plane.set_lock(k, on);
        }
    }

    /// Makes a move of a planar block.
    pub(crate) fn carry(&mut self, one: &Move)
        requires { Fits self.old.tree.nodes (as_move one.now) }
        ensures { self.new ≡ record self.old {
          entry = entry_moved self.old.tree.nodes
              (as_move one.now ∷ []) self.old.entry;
        } }
    {
        if let Outcome::Plane(plane) = &mut self.outcome {
            carry_one(plane, one);
        }
    }

    /// Reverses every rotation of a planar block.
    pub(crate) fn mirror(&mut self)
        ensures { self.new ≡ record self.old { entry = entry_mirrored self.old.entry } }
    {
        if let Outcome::Plane(plane) = &mut self.outcome {
            plane.mirror();
        }
    }

    /// Makes lists the rotation system of a planar block; they are in the numbers of the whole graph. Another block stays. Fails
    /// as `PlaneBlock::take` does.
    pub(crate) fn take(&mut self, alloc: Global, lists: &Lists) -> Result<(), TakeFault>
        ensures taken { IfOk result (λ _. IsBlockTaken lists.now self.old self.new) }
        ensures refused { IfErr result (IsBlockRefusal lists.now self.old) }
    {
        let _ = self.part.graph();
        match &mut self.outcome {
            Outcome::Plane(plane) => take_in(alloc, plane, &self.part, lists),
            Outcome::Not(_) => Ok(()),
        }
    }

    /// Puts another one with the same graph and tree in the place of a block in the plane.
    pub(crate) fn replace(&mut self, plane: PlaneBlock)
        requires planar { (e : Embedding) × (self.old.entry ≡ Some e) }
        requires graph { plane.graph ≡ self.old.tree.part.graph }
        requires tree { plane.tree ≡ self.old.tree.nodes }
        ensures { self.new ≡ record self.old {
          entry = Some
              (record { rotation = plane.rotation; locks = plane.locks });
        } }
    {
        plane.belongs();
        self.outcome = Outcome::Plane(plane);
    }
}

// Makes lists the rotation system of a block in the plane.
fn take_in(
    alloc: Global,
    plane: &mut PlaneBlock,
    part: &Part,
    lists: &Lists,
) -> Result<(), TakeFault>
    requires { part.now.graph ≡ plane.old.graph }
    ensures given { IfOk result (λ _. IsGiven part.now lists.now plane.new.rotation) }
    ensures rest { IfOk result (λ _. plane.new ≡ record plane.old {
      rotation = plane.new.rotation;
      choices = plane.new.choices;
    }) }
    ensures right { IsBlockState plane.new }
    ensures refused { IfErr result (λ fault. IsTakeRefusal plane.old part.now lists.now fault
        × (plane.new ≡ plane.old)) }
{
    let taken = plane.take(alloc, part, lists);
    plane.belongs();
    taken
}

// Makes one move.
fn carry_one(plane: &mut PlaneBlock, one: &Move)
    requires { Fits plane.old.tree (as_move one.now) }
    ensures { plane.new ≡ record plane.old {
      rotation = moved plane.old.tree
          (as_move one.now) plane.old.rotation;
      choices = plane.new.choices;
    } }
{
    plane.belongs();
    carry_out(plane, one);
}

/// A block in the plane after moves of it, made on a copy.
pub(crate) fn moved_copy(
    alloc: Global,
    plane: &PlaneBlock,
    moves: &MoveList,
) -> Result<PlaneBlock, AllocError>
    requires { All (Fits plane.now.tree) (as_moves moves.now) }
    ensures { IfOk result (λ p. p ≡ record plane.now {
      rotation = all_moved plane.now.tree (as_moves moves.now) plane.now.rotation;
      choices = p.choices;
    }) }
{
    let mut copy = plane.copy(alloc)?;
    for one in moves.as_slice() {
        carry_one(&mut copy, one);
    }
    Ok(copy)
}
