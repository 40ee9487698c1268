// Moves of nodes: whether one may be made, and how they are.
ghost use Rattle.std.specs.Prelude.{◌≡◌, ◌<◌, [], ◌∷◌, length, IfOk, OnErr};
ghost use Rattle.skel_embed.specs.Block.{lock_at};
ghost use Rattle.skel_embed.specs.Values.{as_move, as_moves};
ghost use Rattle.spqr_script.specs.Answers.Change.{ok_text};
ghost use Rattle.spqr_session.specs.BlockCodes.{entry_codes, lock_codes};
ghost use Rattle.spqr_session.specs.Board.{CanMake, AreMade};
ghost use Rattle.spqr_session.specs.Planned.{IsVerdict, IsLockVerdict};

use crate::board::Board;
use crate::code::Code;
use crate::embedded::EmbeddedBlock;
use skel_embed::{Move, MoveList, Outcome, PlaneBlock};
use spqr_script::ok_line;
use std::alloc::{AllocError, Global};

// Code 12, where node k is locked.
fn lock_code(plane: &PlaneBlock, k: u32) -> Option<Code>
    requires { k < length plane.now.tree }
    ensures { IsLockVerdict k (lock_at plane.now.locks k) result }
{
    if plane.locked(k) {
        Some(Code::Locked(k))
    } else {
        None
    }
}

/// The code that applies to a move of node `k` of a block, which has it and of the right kind: 5 or 12.
pub(crate) fn code_of_move(block: &EmbeddedBlock, k: u32) -> Option<Code>
    requires { k < length block.now.tree.nodes }
    ensures { IsVerdict (entry_codes (λ tree. lock_codes k) block.now.tree block.now.entry) result }
{
    match block.outcome() {
        Outcome::Plane(plane) => lock_code(plane, k),
        Outcome::Not(_) => Some(Code::NonPlanar),
    }
}

/// Makes moves of block `b`, no two of one node, and returns `ok`. If memory runs out, the board stays as it was.
pub(crate) fn make_moves(
    alloc: Global,
    board: &mut Board,
    b: u32,
    moves: MoveList,
) -> Result<Vec<u8>, AllocError>
    requires { CanMake board.old.views b (as_moves moves) }
    ensures text { IfOk result (λ text. text.items ≡ ok_text) }
    ensures made { IfOk result (λ _. AreMade board.old b (as_moves moves) board.new) }
    ensures memory { OnErr result (board.new ≡ board.old) }
{
    let text = ok_line(alloc)?;
    board.make(alloc, b, moves)?;
    Ok(text)
}

/// Makes a move of block `b`, and returns `ok`. If memory runs out, the board stays as it was.
pub(crate) fn make_move(
    alloc: Global,
    board: &mut Board,
    b: u32,
    one: Move,
) -> Result<Vec<u8>, AllocError>
    requires { CanMake board.old.views b (as_move one ∷ []) }
    ensures text { IfOk result (λ text. text.items ≡ ok_text) }
    ensures made { IfOk result (λ _. AreMade board.old b (as_move one ∷ []) board.new) }
    ensures memory { OnErr result (board.new ≡ board.old) }
{
    let moves = vec![in alloc; one]?;
    make_moves(alloc, board, b, MoveList::of(moves))
}
