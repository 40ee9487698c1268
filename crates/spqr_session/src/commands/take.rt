// `take B ROT`: lists of edges become the rotation system of a block.
ghost use Rattle.std.specs.Prelude.{◌≡◌, map, IfOk, OnErr};
ghost use Rattle.spqr_session.specs.State.{State};
ghost use Rattle.spqr_session.specs.Embedded.{view_tree, view_entry};
ghost use Rattle.spqr_session.specs.Scene.{setting_on};
ghost use Rattle.spqr_session.specs.declared.scene.Scene.{Scene};
ghost use Rattle.spqr_session.specs.Board.{state_on, BelongTogether, IsCarried};
ghost use Rattle.spqr_session.specs.Planned.{IsLowestPlanAt, IsTakePlan};
ghost use Rattle.spqr_session.specs.Commands.Take.{TakeApplies, IsTaken, TakeStep};

use crate::board::Board;
use crate::code::Code;
use crate::embedded::EmbeddedBlock;
use crate::planar::plane_of;
use crate::planned::{Planned, settle};
use multigraph::Part;
use rotations::Lists;
use skel_embed::{PlaneBlock, TakeFault};
use std::alloc::{AllocError, Global};

// The plan for a block in the plane, which is that part: made on a copy.
fn take_of_plane(
    alloc: Global,
    plane: &PlaneBlock,
    part: &Part,
    lists: &Lists,
) -> Result<Planned, AllocError>
    requires { part.now.graph ≡ plane.now.graph }
    ensures { IfOk result (IsTakePlan part.now lists.now plane.now) }
{
    let mut copy = plane.copy(alloc)?;
    match copy.take(alloc, part, lists) {
        Ok(()) => {
            copy.belongs();
            Ok(Planned::Change(copy))
        }
        Err(fault) => match fault {
            TakeFault::BadRotation(v) => Ok(Planned::Refused(Code::BadRotation(v))),
            TakeFault::NotGenusZero(v, e, f) => Ok(Planned::Refused(Code::NotGenusZero(v, e, f))),
            TakeFault::Locked(k) => Ok(Planned::Refused(Code::Locked(k))),
            TakeFault::Memory => Err(AllocError),
        },
    }
}

/// The plan for block `b` to take the rotation system that the lists give.
pub(crate) fn plan_take(
    alloc: Global,
    blocks: &[EmbeddedBlock],
    b: u32,
    lists: &Lists,
) -> Result<Planned, AllocError>
    ensures { (s : State) → s.present.entries ≡ map view_entry blocks.now
        → IfOk result (IsLowestPlanAt (TakeApplies (map view_tree blocks.now) b lists.now s) (IsTaken lists.now) blocks.now b) }
{
    match plane_of(blocks, b) {
        Ok((part, plane)) => {
            let _ = part.graph();
            take_of_plane(alloc, plane, part, lists)
        }
        Err(code) => Ok(Planned::Refused(code)),
    }
}

/// Carries out `take`: the rotation system of the block becomes the one that the lists give, or code 1, 5, 6, 7 or 12. If memory runs out, the
/// board stays as it was.
pub(crate) fn carry_take(
    alloc: Global,
    board: &mut Board,
    b: u32,
    lists: &Lists,
) -> Result<Vec<u8>, AllocError>
    ensures step { (scene : Scene) → BelongTogether scene board.old → IfOk result (λ text. TakeStep (setting_on scene board.old.views) b lists.now
        (state_on scene board.old.views board.old) text.items (state_on scene board.old.views board.new)) }
    ensures setting { IsCarried board.old.views board.new.views }
    ensures memory { OnErr result (board.new ≡ board.old) }
{
    let planned = plan_take(alloc, board.blocks(), b, lists)?;
    settle(alloc, board, b, planned)
}
