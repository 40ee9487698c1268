// The longest face and the moves to it.

ghost use Rattle.std.specs.Prelude.{ℕ, List, IfOk};
ghost use Rattle.skeletons.specs.Families.{FollowsFamily};
ghost use Rattle.skel_embed.specs.Values.{as_moves};
ghost use Rattle.face_weights.specs.Numbers.{KnowFaces};
ghost use Rattle.face_weights.specs.Reached.{AreWeights};
ghost use Rattle.long_face.specs.Longest.{HasFace, IsLongest};

use crate::joining::wants_of;
use crate::moving::moves_for;
use crate::numbers::present_faces;
use crate::present::has_face;
use face_weights::{Weights, weigh};
use faces::face_steps;
use skel_decompose::{FlatLists, order_of};
use skel_embed::{Move, PlaneBlock};
use std::alloc::{AllocError, Global};

/// The greatest length of a face, and moves to a plane rotation system with such a face.
#[derive(Debug, Drop)]
pub struct LongestFace {
    pub length: u32,
    pub moves: Vec<Move>,
}

// The moves to a longest face from a rotation system that has no face of this length.
fn moves_to_longest(
    alloc: Global,
    p: &PlaneBlock,
    faces: &FlatLists,
    weights: &Weights,
) -> Result<Vec<Move>, AllocError>
    requires known { (family : List (List (List ℕ))) × KnowFaces p.now.tree family faces.now
        × FollowsFamily p.now.tree family p.now.rotation × AreWeights p.now.tree family weights.now }
    requires lacks { HasFace p.now.graph p.now.rotation weights.now.most → ⊥ }
    ensures { IfOk result (λ moves. IsLongest p.now.graph p.now.tree p.now.rotation weights.now.most
        (as_moves moves.items)) }
{
    p.belongs();
    p.graph().keeps_limits();
    let wants = wants_of(alloc, p.tree(), faces, weights)?;
    moves_for(alloc, p, &wants)
}

/// The greatest length of a face over all plane rotation systems of the block, and the moves from the present one to one with such
/// a face (Gutwenger and Mutzel 2003): in order of the nodes, a flip of a triconnected node or a permute of a bond (Di Battista and
/// Tamassia 1996), none where the present one has such a face. Locks are not looked at. In time n log n. Fails only if
/// memory runs out.
pub fn longest(alloc: Global, p: &PlaneBlock) -> Result<LongestFace, AllocError>
    ensures { IfOk result (λ found. IsLongest p.now.graph p.now.tree p.now.rotation found.length
        (as_moves found.moves.items)) }
{
    p.belongs();
    p.graph().keeps_limits();
    let steps = face_steps(alloc, p.graph(), p.rotation())?;
    let order = order_of(alloc, p.tree())?;
    let faces = present_faces(alloc, p, &order, &steps)?;
    let weights = weigh(alloc, p.tree(), order, &faces)?;
    let length = weights.most();
    if has_face(alloc, steps, length)? {
        return Ok(LongestFace {
            length,
            moves: Vec::new(alloc),
        });
    }
    let moves = moves_to_longest(alloc, p, &faces, &weights)?;
    Ok(LongestFace { length, moves })
}
