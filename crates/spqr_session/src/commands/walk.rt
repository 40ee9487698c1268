// `first B`, `goto B R` and `next B`: along the list of a block.
ghost use Rattle.std.specs.Prelude.{◌≡◌, ◌<◌, ◌^◌, map, IfOk, OnErr};
ghost use Rattle.spqr_session.specs.State.{State};
ghost use Rattle.spqr_session.specs.Embedded.{view_tree, view_entry};
ghost use Rattle.spqr_session.specs.Scene.{setting_on};
ghost use Rattle.spqr_session.specs.declared.scene.Scene.{Scene};
ghost use Rattle.spqr_session.specs.Members.{StandsAt};
ghost use Rattle.spqr_session.specs.Products.{product_rank_codes, GotoByProduct};
ghost use Rattle.spqr_session.specs.BlockCodes.{block_ladder, read_ladder};
ghost use Rattle.spqr_session.specs.Board.{state_on, BelongTogether, IsCarried};
ghost use Rattle.spqr_session.specs.PlannedMoves.{IsMovesPlanAt, IsFirstPlan, IsRankPlan, IsNextPlanAt, IsStepPlan};
ghost use Rattle.spqr_session.specs.Commands.Walk.{FirstStep, NextStep};

use crate::board::Board;
use crate::code::Code;
use crate::embedded::EmbeddedBlock;
use crate::planar::plane_of;
use crate::planned_moves::{PlannedMoves, settle_moves};
use embed_enum::{GotoFault, moves_to_first, moves_to_next, moves_to_rank};
use skel_embed::PlaneBlock;
use std::alloc::{AllocError, Global};

// ---- first

// The plan for a block in the plane.
fn first_of_plane(alloc: Global, plane: &PlaneBlock) -> Result<PlannedMoves, AllocError>
    ensures { IfOk result (IsFirstPlan plane.now) }
{
    let moves = moves_to_first(alloc, plane)?;
    Ok(PlannedMoves::Make(moves))
}

// The plan for block `b`.
fn plan_first(alloc: Global, blocks: &[EmbeddedBlock], b: u32) -> Result<PlannedMoves, AllocError>
    ensures { (s : State) → s.present.entries ≡ map view_entry blocks.now
        → IfOk result (IsMovesPlanAt (block_ladder (map view_tree blocks.now) b s) (StandsAt 0) blocks.now b) }
{
    match plane_of(blocks, b) {
        Ok((_, plane)) => first_of_plane(alloc, plane),
        Err(code) => Ok(PlannedMoves::Refused(code)),
    }
}

/// Carries out `first`: to the first member of the block's list, or code 1 or 5. If memory runs out, the board stays as it was.
pub(crate) fn carry_first(alloc: Global, board: &mut Board, b: u32) -> Result<Vec<u8>, AllocError>
    ensures step { (scene : Scene) → BelongTogether scene board.old → IfOk result (λ text.
        FirstStep (setting_on scene board.old.views) b (state_on scene board.old.views board.old) text.items (state_on scene board.old.views board.new)) }
    ensures setting { IsCarried board.old.views board.new.views }
    ensures memory { OnErr result (board.new ≡ board.old) }
{
    let planned = plan_first(alloc, board.blocks(), b)?;
    settle_moves(alloc, board, b, planned)
}

// ---- goto

// The refusal of a rank that is not below the count, which is below 2^128 as every number of its type.
fn rank_out(count: u128) -> PlannedMoves
    ensures plan { result ≡ PlannedMoves.Refused (Code.RankOut count) }
    ensures below { count < 2 ^ 128 }
{
    PlannedMoves::Refused(Code::RankOut(count))
}

// The plan for a block in the plane.
fn rank_of_plane(alloc: Global, plane: &PlaneBlock, r: u128) -> Result<PlannedMoves, AllocError>
    ensures { IfOk result (IsRankPlan r plane.now) }
{
    match moves_to_rank(alloc, plane, r) {
        Ok(moves) => Ok(PlannedMoves::Make(moves)),
        Err(fault) => match fault {
            GotoFault::CountOver => Ok(PlannedMoves::Refused(Code::CountOver)),
            GotoFault::RankOut(count) => Ok(rank_out(count)),
            GotoFault::Memory => Err(AllocError),
        },
    }
}

/// The plan for block `b` to go to the member of this rank.
pub(crate) fn plan_rank(
    alloc: Global,
    blocks: &[EmbeddedBlock],
    b: u32,
    r: u128,
) -> Result<PlannedMoves, AllocError>
    ensures { (s : State) → s.present.entries ≡ map view_entry blocks.now
        → IfOk result (IsMovesPlanAt (read_ladder (product_rank_codes r) (map view_tree blocks.now) b s) (StandsAt r) blocks.now b) }
{
    match plane_of(blocks, b) {
        Ok((_, plane)) => rank_of_plane(alloc, plane, r),
        Err(code) => Ok(PlannedMoves::Refused(code)),
    }
}

/// Carries out `goto`: to the member of this rank in the block's list, or code 1, 5, 10 or 11. If memory runs out, the board stays
/// as it was.
pub(crate) fn carry_goto(
    alloc: Global,
    board: &mut Board,
    b: u32,
    r: u128,
) -> Result<Vec<u8>, AllocError>
    ensures step { (scene : Scene) → BelongTogether scene board.old → IfOk result (λ text.
        GotoByProduct (setting_on scene board.old.views) b r (state_on scene board.old.views board.old) text.items (state_on scene board.old.views board.new)) }
    ensures setting { IsCarried board.old.views board.new.views }
    ensures memory { OnErr result (board.new ≡ board.old) }
{
    let planned = plan_rank(alloc, board.blocks(), b, r)?;
    settle_moves(alloc, board, b, planned)
}

// ---- next

// The plan for a block in the plane.
fn next_of_plane(alloc: Global, plane: &PlaneBlock) -> Result<PlannedMoves, AllocError>
    ensures { IfOk result (IsStepPlan plane.now) }
{
    match moves_to_next(alloc, plane)? {
        Some(moves) => Ok(PlannedMoves::Make(moves)),
        None => Ok(PlannedMoves::End),
    }
}

// The plan for block `b`.
fn plan_next(alloc: Global, blocks: &[EmbeddedBlock], b: u32) -> Result<PlannedMoves, AllocError>
    ensures { (s : State) → s.present.entries ≡ map view_entry blocks.now
        → IfOk result (IsNextPlanAt (block_ladder (map view_tree blocks.now) b s) blocks.now b) }
{
    match plane_of(blocks, b) {
        Ok((_, plane)) => next_of_plane(alloc, plane),
        Err(code) => Ok(PlannedMoves::Refused(code)),
    }
}

/// Carries out `next`: to the member after the present one, or `end` at the last, where nothing changes, or code 1 or 5.
/// If memory runs out, the board stays as it was.
pub(crate) fn carry_next(alloc: Global, board: &mut Board, b: u32) -> Result<Vec<u8>, AllocError>
    ensures step { (scene : Scene) → BelongTogether scene board.old → IfOk result (λ text.
        NextStep (setting_on scene board.old.views) b (state_on scene board.old.views board.old) text.items (state_on scene board.old.views board.new)) }
    ensures setting { IsCarried board.old.views board.new.views }
    ensures memory { OnErr result (board.new ≡ board.old) }
{
    let planned = plan_next(alloc, board.blocks(), b)?;
    settle_moves(alloc, board, b, planned)
}
