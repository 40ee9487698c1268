// The moves that lead back from where others lead.
ghost use Rattle.std.specs.Prelude.{◌≡◌, ◌<◌, length, Some, IfOk};
ghost use Rattle.skeletons.specs.Moves.{moved_node};
ghost use Rattle.skel_embed.specs.Values.{as_move, as_moves};
ghost use Rattle.spqr_session.specs.State.{Embedding};
ghost use Rattle.spqr_session.specs.Moved.{AreOfNodes, LeadBack, way_back};

use super::EmbeddedBlock;
use skel_embed::{Keys, Move, MoveList, Outcome, PlaneBlock};
use std::alloc::{AllocError, Global};

impl EmbeddedBlock {
    /// Moves that lead back from where these moves of a planar block lead, no two of one node.
    pub(crate) fn back(&self, alloc: Global, forth: &MoveList) -> Result<MoveList, AllocError>
        requires planar { (e : Embedding) × (self.now.entry ≡ Some e) }
        requires moves { AreOfNodes self.now.tree.nodes (as_moves forth.now) }
        ensures { (e : Embedding) → self.now.entry ≡ Some e
            → IfOk result (λ back. LeadBack self.now.tree.nodes e.rotation (as_moves forth.now) (as_moves back)) }
    {
        match &self.outcome {
            Outcome::Plane(plane) => moves_back(alloc, plane, forth),
            Outcome::Not(_) => unreachable!(),
        }
    }
}

// The move that leads back from where a move leads: the same flip, or a permute to the present choice.
fn move_back(alloc: Global, plane: &PlaneBlock, one: &Move) -> Result<Move, AllocError>
    requires { moved_node (as_move one.now) < length plane.now.tree }
    ensures { IfOk result (λ back. as_move back ≡ way_back plane.now.tree plane.now.rotation (as_move one.now)) }
{
    match one {
        Move::Flip(k) => Ok(Move::Flip(*k)),
        Move::Permute(k, _) => Ok(Move::Permute(*k, Keys::of(alloc, plane.keys(*k))?)),
    }
}

// Moves that lead back from where these lead. Each leads back on its own, and in any order, since no two are of one node.
fn moves_back(alloc: Global, plane: &PlaneBlock, forth: &MoveList) -> Result<MoveList, AllocError>
    requires { AreOfNodes plane.now.tree (as_moves forth.now) }
    ensures { IfOk result (λ back. LeadBack plane.now.tree plane.now.rotation (as_moves forth.now) (as_moves back)) }
{
    plane.belongs();
    let mut back = Vec::new(alloc);
    for one in forth.as_slice() {
        back.push(move_back(alloc, plane, one)?)?;
    }
    Ok(MoveList::of(back))
}
