// The moves that lead a component to another rotation system.

ghost use Rattle.std.specs.Prelude.{◌≡◌, IfOk, IfErr};
ghost use Rattle.whole_embed.specs.Component.{IsComponentInPlane};
ghost use Rattle.whole_embed.specs.Cuts.{blocks_in, HavePlanes};
ghost use Rattle.whole_embed.specs.Whole.{AreArranged};
ghost use Rattle.whole_convert.specs.Between.{as_steps};
ghost use Rattle.whole_convert.specs.Target.{IsWholeRefusal, IsMovedTo, IsLedWhole};

use crate::cut_lists::{add_arrangements, arrange_all, cuts_then};
use crate::faults::WholeFault;
use crate::leading::all_led;
use crate::moving::all_moves;
use crate::steps::WholeMove;
use crate::target::system_of;
use rotations::Lists;
use std::alloc::Global;
use whole_embed::{Cuts, Member};

/// A component led to another rotation system.
#[derive(Debug, Drop)]
pub struct Led {
    /// The moves that lead there.
    pub moves: Vec<WholeMove>,
    /// Each block of the graph, in order; those of the component have their parts of the rotation system.
    pub all: Vec<Member>,
    /// The component with the arrangements of the rotation system at its cut vertices.
    pub cuts: Cuts,
}

/// The moves from the present rotation system of a component to another one, which `target` gives: each vertex of the component,
/// increasing, with the cyclic order of its edges around it, from any of them on. First, for each block in order, the moves to its part
/// in the target, in order of its nodes (Di Battista and Tamassia 1996); then, for each cut vertex in order around which the
/// target has another arrangement than there is after these moves, that arrangement. After the moves of a block its cut vertices
/// have their first arrangements. `all` has each block of the graph in order, and the lists that are kept are arrangements for
/// their present rotation systems. All stays as it is: copies are moved, and given with the moves.
///
/// Fails with `BadRotation` if the lists are not a rotation system of the component, with the least number that is a vertex whose list
/// is not an ordering of its edges, or that is named and not a vertex of it; else with `NotGenusZero` if V - E + F is not 2 (Euler
/// 1758, Heffter 1891); else with `Locked` if it has another choice at a locked node, with the least block in which it has, and the
/// least such node of it; fails with `Memory` only if memory runs out. Takes time in proportion to the graph, a logarithmic factor more
/// for edges that are found by their numbers, and what `PlaneBlock::take` takes in each block.
pub fn lead_whole(
    alloc: Global,
    cuts: &Cuts,
    all: &[Member],
    target: &Lists,
) -> Result<Led, WholeFault>
    requires component { IsComponentInPlane cuts.now.component (blocks_in all.now) }
    requires planes { HavePlanes cuts.now.component all.now }
    requires arranged { AreArranged cuts.now.component (blocks_in all.now) cuts.now.lists }
    ensures led { IfOk result (λ led. IsLedWhole cuts.now.component (blocks_in all.now)
        cuts.now.lists target.now (as_steps led.moves.items) led.all.items led.cuts) }
    ensures refused { IfErr result (IsWholeRefusal cuts.now.component
        (blocks_in all.now) target.now) }
{
    let frame = cuts.frame();
    let q = system_of(alloc, frame.part(), target)?;
    let new = all_led(alloc, frame, &q, all)?;
    let mut marks = vec![in alloc; false; all.len()]?;
    let mut list = all_moves(alloc, frame, all, &new, &mut marks)?;
    let mut after = cuts_then(alloc, cuts, &new, &marks)?;
    add_arrangements(alloc, &after, &q, &mut list)?;
    arrange_all(alloc, &mut after, &q)?;
    Ok(Led {
        moves: list,
        all: new,
        cuts: after,
    })
}

/// The moves from the present rotation system of a component to another one, as `lead_whole` gives them with what they lead to. All stays as
/// it is. Fails as `lead_whole` does.
pub fn whole_moves(
    alloc: Global,
    cuts: &Cuts,
    all: &[Member],
    target: &Lists,
) -> Result<Vec<WholeMove>, WholeFault>
    requires component { IsComponentInPlane cuts.now.component (blocks_in all.now) }
    requires planes { HavePlanes cuts.now.component all.now }
    requires arranged { AreArranged cuts.now.component (blocks_in all.now) cuts.now.lists }
    ensures moves { IfOk result (λ list. IsMovedTo cuts.now.component (blocks_in all.now)
        cuts.now.lists target.now (as_steps list.items)) }
    ensures refused { IfErr result (IsWholeRefusal cuts.now.component
        (blocks_in all.now) target.now) }
{
    Ok(lead_whole(alloc, cuts, all, target)?.moves)
}
