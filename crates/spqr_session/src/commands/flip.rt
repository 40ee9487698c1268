// `flip B K`: a triconnected node of a block is flipped.
ghost use Rattle.std.specs.Prelude.{◌≡◌, map, IfOk, OnErr};
ghost use Rattle.spqr_session.specs.State.{State};
ghost use Rattle.spqr_session.specs.Embedded.{view_tree, view_entry};
ghost use Rattle.spqr_session.specs.Scene.{setting_on};
ghost use Rattle.spqr_session.specs.declared.scene.Scene.{Scene};
ghost use Rattle.spqr_session.specs.Board.{state_on, BelongTogether, IsCarried};
ghost use Rattle.spqr_session.specs.Planned.{IsVerdict};
ghost use Rattle.spqr_session.specs.Commands.Flip.{flip_codes, flip_ladder, FlipStep};

use crate::board::Board;
use crate::code::Code;
use crate::embedded::EmbeddedBlock;
use crate::making::{code_of_move, make_move};
use pair_split::Kind;
use skel_embed::Move;
use std::alloc::{AllocError, Global};

// The code that applies to a flip of node k of a block.
fn code_of_block(block: &EmbeddedBlock, k: u32) -> Option<Code>
    ensures { IsVerdict (flip_codes k block.now.tree block.now.entry) result }
{
    if k >= block.tree().node_count() {
        return Some(Code::NoNode);
    }
    match block.tree().kind(k) {
        Kind::R => code_of_move(block, k),
        Kind::S | Kind::P | Kind::B => Some(Code::WrongKind),
    }
}

// The code that applies to a flip of node k of block b.
fn code_of(blocks: &[EmbeddedBlock], b: u32, k: u32) -> Option<Code>
    ensures { (s : State) → s.present.entries ≡ map view_entry blocks.now
        → IsVerdict (flip_ladder (map view_tree blocks.now) b k s) result }
{
    match blocks.get(b as usize) {
        Some(block) => code_of_block(block, k),
        None => Some(Code::NoBlock),
    }
}

/// Carries out `flip`: the node is flipped, or code 1, 2, 3, 5 or 12. If memory runs out, the board stays as it was.
pub(crate) fn carry_flip(
    alloc: Global,
    board: &mut Board,
    b: u32,
    k: u32,
) -> Result<Vec<u8>, AllocError>
    ensures step { (scene : Scene) → BelongTogether scene board.old → IfOk result (λ text.
        FlipStep (setting_on scene board.old.views) b k (state_on scene board.old.views board.old) text.items (state_on scene board.old.views board.new)) }
    ensures setting { IsCarried board.old.views board.new.views }
    ensures memory { OnErr result (board.new ≡ board.old) }
{
    match code_of(board.blocks(), b, k) {
        Some(code) => code.line(alloc),
        None => make_move(alloc, board, b, Move::Flip(k)),
    }
}
