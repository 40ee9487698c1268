// The members that follow the current one, as rotation systems.

ghost use Rattle.std.specs.Prelude.{◌≡◌, ℕ, List, ◌+◌, take, drop, IfOk};
ghost use Rattle.skeletons.specs.Lists.{IsRank};
ghost use Rattle.embed_enum.specs.Walk.{IsMemberList};

use crate::walking::next;
use rotations::Rotation;
use skel_embed::PlaneBlock;
use std::alloc::{AllocError, Global};

/// The first `n` members of the list that follow the current one, or all if they are fewer. A copy of the block walks; the
/// block stays. Fails only if memory runs out.
/// For callers of the library: the program does not call it.
pub fn members_after(alloc: Global, p: &PlaneBlock, n: u32) -> Result<Vec<Rotation>, AllocError>
    ensures { (l : List (List (List ℕ))) (i : ℕ) → IsMemberList p.now l → IsRank l p.now.rotation i
        → IfOk result (λ members. members.items ≡ take n (drop (i + 1) l)) }
{
    let mut walker = p.copy(alloc)?;
    let mut found = Vec::new(alloc);
    for _turn in 0..n {
        if !next(&mut walker) {
            return Ok(found);
        }
        found.push(walker.rotation().copy(alloc)?)?;
    }
    Ok(found)
}
