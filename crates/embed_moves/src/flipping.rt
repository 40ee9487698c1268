// A triconnected node flipped, if allowed.

ghost use Rattle.std.specs.Prelude.{◌≡◌, ◌<◌, false, length, IfOk, IfErr};
ghost use Rattle.skeletons.specs.Moves.{flip};
ghost use Rattle.skel_embed.specs.Block.{lock_at};
ghost use Rattle.embed_moves.specs.Made.{IsMade, IsFlipRefusal};

use pair_split::Kind;
use skel_embed::PlaneBlock;
use thiserror::Error;

/// Why a node is not flipped.
#[derive(Debug, Drop, Error)]
pub enum FlipFault {
    /// It is not triconnected.
    #[error("the node is not triconnected")]
    WrongKind,
    /// It is this node, and locked.
    #[error("node {0} is locked")]
    Locked(u32),
}

/// Flips node `k`: at each of its vertices its groups come into the reverse cyclic order, each group as it was (Di Battista and
/// Tamassia 1996).
///
/// Fails with `WrongKind` if the node is not triconnected, else with `Locked` if it is locked; the block is then unchanged.
/// Takes no memory, and time in proportion to the degrees of the node's vertices, times that of `Tree::group`.
pub fn flip(p: &mut PlaneBlock, k: u32) -> Result<(), FlipFault>
    requires { k < length p.old.tree }
    ensures made { IfOk result (λ _. IsMade (flip k) p.old p.new) }
    ensures unlocked { IfOk result (λ _. lock_at p.old.locks k ≡ false) }
    ensures refused { IfErr result (λ fault. IsFlipRefusal p.old k fault × (p.new ≡ p.old)) }
{
    if p.tree().kind(k) != Kind::R {
        return Err(FlipFault::WrongKind);
    }
    if p.locked(k) {
        return Err(FlipFault::Locked(k));
    }
    p.turn(k);
    Ok(())
}
