// The mirror image of a block in the plane, if allowed.

ghost use Rattle.std.specs.Prelude.{◌≡◌, ◌<◌, IfOk, IfErr, MatchOption};
ghost use Rattle.embed_moves.specs.Made.{IsMirrored, NoneHeld, IsLeastHeld};

use skel_embed::PlaneBlock;
use thiserror::Error;

/// This node is locked, and the mirror image has another choice there.
#[derive(Debug, Drop, Error)]
#[error("node {0} is locked")]
pub struct Locked(pub u32);

/// The least locked node that has choices, a bond or a triconnected node, if there is one.
pub fn least_held(p: &PlaneBlock) -> Option<u32>
    ensures { MatchOption result (NoneHeld p.now) (IsLeastHeld p.now) }
{
    for k in 0..p.tree().node_count() {
        if p.locked(k) && p.tree().kind(k).has_choices() {
            return Some(k);
        }
    }
    None
}

/// Reverses every rotation of the block: it becomes its mirror image, and each choice is reversed.
///
/// Fails with `Locked` and the least such node if a node with a choice, a bond or a triconnected one, is locked; the block is then
/// unchanged. Takes no memory, and time in proportion to the size of the block.
pub fn mirror(p: &mut PlaneBlock) -> Result<(), Locked>
    ensures mirrored { IfOk result (λ _. IsMirrored p.old p.new) }
    ensures unlocked { IfOk result (λ _. NoneHeld p.old) }
    ensures refused { IfErr result (λ locked. IsLeastHeld p.old locked.0 × (p.new ≡ p.old)) }
{
    match least_held(p) {
        Some(k) => Err(Locked(k)),
        None => {
            p.mirror();
            Ok(())
        }
    }
}
