// `convert B rank R` and `convert B to ROT`: the moves that lead to a member, printed and made.
ghost use Rattle.std.specs.Prelude.{◌≡◌, map, Some, IfOk, OnErr, All};
ghost use Rattle.spqr_session.specs.Scene.{setting_on};
ghost use Rattle.spqr_session.specs.declared.scene.Scene.{Scene};
ghost use Rattle.spqr_session.specs.Board.{state_on, BelongTogether, IsCarried};
ghost use Rattle.skel_embed.specs.Values.{as_moves};
ghost use Rattle.embed_moves.specs.Made.{Fits};
ghost use Rattle.spqr_session.specs.State.{Embedding, State};
ghost use Rattle.spqr_session.specs.Embedded.{view_tree, view_entry};
ghost use Rattle.spqr_session.specs.Members.{StandsAt};
ghost use Rattle.spqr_session.specs.BlockCodes.{read_ladder};
ghost use Rattle.spqr_session.specs.Planned.{FitsBlock, IsPlanAt, MayStand, TellsMoves, IsConverted};
ghost use Rattle.spqr_session.specs.PlannedMoves.{IsAfterMoves};
ghost use Rattle.spqr_session.specs.Commands.Convert.{ConvertToStep};
ghost use Rattle.spqr_session.specs.Products.{product_rank_codes, ConvertByProduct};

use super::take::plan_take;
use super::walk::plan_rank;
use crate::board::Board;
use crate::embedded::{EmbeddedBlock, moved_copy};
use crate::planned::Planned;
use crate::planned_moves::PlannedMoves;
use embed_convert::moves;
use rotations::Lists;
use skel_embed::{MoveList, Outcome, PlaneBlock};
use spqr_script::moves_lines;
use std::alloc::{AllocError, Global};

// The lines of the moves from a block to one that can take its place.
fn lines_to(alloc: Global, block: &EmbeddedBlock, plane: &PlaneBlock) -> Result<Vec<u8>, AllocError>
    requires { FitsBlock block.now plane.now }
    ensures { IfOk result (λ text. TellsMoves block.now plane.now text.items) }
{
    plane.belongs();
    match block.outcome() {
        Outcome::Plane(present) => {
            let list = moves(alloc, present, plane)?;
            moves_lines(alloc, block.part(), &list)
        }
        Outcome::Not(_) => unreachable!(),
    }
}

// Puts the block on the board as it was planned, and returns the lines of the moves that lead there.
fn move_to(
    alloc: Global,
    board: &mut Board,
    b: u32,
    plane: PlaneBlock,
) -> Result<Vec<u8>, AllocError>
    requires { MayStand board.old.views b (Planned.Change plane) }
    ensures done { IfOk result
        (λ text. IsConverted b (Planned.Change plane) board.old text.items board.new) }
    ensures memory { OnErr result (board.new ≡ board.old) }
{
    let text = lines_to(alloc, &board.blocks()[b as usize], &plane)?;
    board.put(alloc, b, plane)?;
    Ok(text)
}

// Carries out what was planned for block `b`, with its moves reported.
fn convert(
    alloc: Global,
    board: &mut Board,
    b: u32,
    planned: Planned,
) -> Result<Vec<u8>, AllocError>
    requires { MayStand board.old.views b planned }
    ensures done { IfOk result (λ text. IsConverted b planned board.old text.items board.new) }
    ensures memory { OnErr result (board.new ≡ board.old) }
{
    match planned {
        Planned::Refused(code) => code.line(alloc),
        Planned::Change(plane) => move_to(alloc, board, b, plane),
    }
}

// The block in the plane that moves of a block lead to.
fn after_moves(
    alloc: Global,
    block: &EmbeddedBlock,
    moves: &MoveList,
) -> Result<PlaneBlock, AllocError>
    requires planar { (e : Embedding) × (block.now.entry ≡ Some e) }
    requires moves { All (Fits block.now.tree.nodes) (as_moves moves.now) }
    ensures { IfOk result (IsAfterMoves block.now (as_moves moves.now)) }
{
    match block.outcome() {
        Outcome::Plane(plane) => moved_copy(alloc, plane, moves),
        Outcome::Not(_) => unreachable!(),
    }
}

// The plan for block `b` to become the member of this rank.
fn plan_convert(
    alloc: Global,
    blocks: &[EmbeddedBlock],
    b: u32,
    r: u128,
) -> Result<Planned, AllocError>
    ensures { (s : State) → s.present.entries ≡ map view_entry blocks.now
        → IfOk result (IsPlanAt (read_ladder (product_rank_codes r) (map view_tree blocks.now) b s) (StandsAt r) blocks.now b) }
{
    let planned = plan_rank(alloc, blocks, b, r)?;
    match planned {
        PlannedMoves::Refused(code) => Ok(Planned::Refused(code)),
        PlannedMoves::End => unreachable!(),
        PlannedMoves::Make(moves) => {
            let plane = after_moves(alloc, &blocks[b as usize], &moves)?;
            Ok(Planned::Change(plane))
        }
    }
}

/// Carries out `convert B rank R`: to the member of this rank in the block's list, with the moves that lead there, or code 1, 5, 10
/// or 11. If memory runs out, the board stays as it was.
pub(crate) fn carry_convert_rank(
    alloc: Global,
    board: &mut Board,
    b: u32,
    r: u128,
) -> Result<Vec<u8>, AllocError>
    ensures step { (scene : Scene) → BelongTogether scene board.old → IfOk result (λ text. ConvertByProduct (setting_on scene board.old.views) b r
        (state_on scene board.old.views board.old) text.items (state_on scene board.old.views board.new)) }
    ensures setting { IsCarried board.old.views board.new.views }
    ensures memory { OnErr result (board.new ≡ board.old) }
{
    let planned = plan_convert(alloc, board.blocks(), b, r)?;
    convert(alloc, board, b, planned)
}

/// Carries out `convert B to ROT`: to the rotation system that the lists are, with the moves that lead there, or code 1, 5, 6, 7 or
/// 12. If memory runs out, the board stays as it was.
pub(crate) fn carry_convert_to(
    alloc: Global,
    board: &mut Board,
    b: u32,
    lists: &Lists,
) -> Result<Vec<u8>, AllocError>
    ensures step { (scene : Scene) → BelongTogether scene board.old → IfOk result (λ text. ConvertToStep (setting_on scene board.old.views) b lists.now
        (state_on scene board.old.views board.old) text.items (state_on scene board.old.views board.new)) }
    ensures setting { IsCarried board.old.views board.new.views }
    ensures memory { OnErr result (board.new ≡ board.old) }
{
    let planned = plan_take(alloc, board.blocks(), b, lists)?;
    convert(alloc, board, b, planned)
}
