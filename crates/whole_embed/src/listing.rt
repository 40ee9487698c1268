// The members that follow the present one.

ghost use Rattle.std.specs.Prelude.{◌≡◌, ℕ, List, ◌+◌, map, take, drop, IfOk};
ghost use Rattle.skeletons.specs.Lists.{IsRank};
ghost use Rattle.whole_embed.specs.Component.{IsComponentInPlane};
ghost use Rattle.whole_embed.specs.Cuts.{blocks_in, HavePlanes};
ghost use Rattle.whole_embed.specs.Whole.{AreArranged, whole_system, IsWholeList};
ghost use Rattle.whole_embed.specs.Walk.{system_lists};

use crate::copying::copies;
use crate::cuts::Cuts;
use crate::members::Member;
use crate::walking::next_whole;
use crate::wholes::whole;
use rotations::Lists;
use std::alloc::{AllocError, Global};

/// The first `n` members of the list that follow the present one, or all if they are fewer, in the order of `next_whole`: of each the
/// vertices of the component, increasing, with the edges around them from the least on. Copies of the blocks and the
/// arrangements walk, and `cuts` and `all` stay. Fails only if memory runs out.
pub fn list_after(
    alloc: Global,
    cuts: &Cuts,
    all: &[Member],
    n: u32,
) -> Result<Vec<Lists>, AllocError>
    requires component { IsComponentInPlane cuts.now.component (blocks_in all.now) }
    requires planes { HavePlanes cuts.now.component all.now }
    requires arranged { AreArranged cuts.now.component (blocks_in all.now) cuts.now.lists }
    ensures { (l : List (List (List ℕ))) (i : ℕ)
        → IsWholeList cuts.now.component (blocks_in all.now) l
        → IsRank l (whole_system cuts.now.component (blocks_in all.now) cuts.now.lists) i
        → IfOk result (λ found. found.items
        ≡ map (system_lists cuts.now.component) (take n (drop (i + 1) l))) }
{
    let mut walker = cuts.copy(alloc)?;
    let mut blocks = copies(alloc, all)?;
    let mut found = Vec::new(alloc);
    for _turn in 0..n {
        if !next_whole(&mut walker, &mut blocks) {
            return Ok(found);
        }
        found.push(whole(alloc, &walker, &blocks)?)?;
    }
    Ok(found)
}
