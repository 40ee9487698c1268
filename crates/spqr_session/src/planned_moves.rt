// What a command has planned that makes moves of a block, and how it is carried out.
ghost use Rattle.std.specs.Prelude.{◌≡◌, IfOk, OnErr};
ghost use Rattle.spqr_session.specs.PlannedMoves.{CanSettle, AreSettled};

use crate::board::Board;
use crate::code::Code;
use crate::making::make_moves;
use skel_embed::MoveList;
use spqr_script::end_line;
use std::alloc::{AllocError, Global};

/// What a command has planned that makes moves of a block: nothing is changed yet.
#[derive(Debug, Drop)]
pub enum PlannedMoves {
    /// It is refused.
    Refused(Code),
    /// No member follows the present one, and nothing changes.
    End,
    /// These moves of the block are to be made.
    Make(MoveList),
}

/// Carries out what was planned for block `b`: returns the line of a code or `end`, or makes the moves and returns `ok`.
/// If memory runs out, the board stays as it was.
pub(crate) fn settle_moves(
    alloc: Global,
    board: &mut Board,
    b: u32,
    planned: PlannedMoves,
) -> Result<Vec<u8>, AllocError>
    requires { CanSettle board.old.views b planned }
    ensures done { IfOk result (λ text. AreSettled b planned board.old text.items board.new) }
    ensures memory { OnErr result (board.new ≡ board.old) }
{
    match planned {
        PlannedMoves::Refused(code) => code.line(alloc),
        PlannedMoves::End => end_line(alloc),
        PlannedMoves::Make(moves) => make_moves(alloc, board, b, moves),
    }
}
