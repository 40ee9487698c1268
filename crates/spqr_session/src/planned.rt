// What a command has planned that puts another block in the place of one, and how it is carried out.
ghost use Rattle.std.specs.Prelude.{◌≡◌, IfOk, OnErr};
ghost use Rattle.spqr_session.specs.Planned.{MayStand, IsSettled};

use crate::board::Board;
use crate::code::Code;
use skel_embed::PlaneBlock;
use spqr_script::ok_line;
use std::alloc::{AllocError, Global};

/// What a command has planned that puts another block in the place of one: nothing is changed yet.
#[derive(Debug, Drop)]
pub enum Planned {
    /// It is refused.
    Refused(Code),
    /// The block is to become this one.
    Change(PlaneBlock),
}

// Puts the block on the board as it was planned, and returns `ok`.
fn make(alloc: Global, board: &mut Board, b: u32, plane: PlaneBlock) -> Result<Vec<u8>, AllocError>
    requires { MayStand board.old.views b (Planned.Change plane) }
    ensures done { IfOk result
        (λ text. IsSettled b (Planned.Change plane) board.old text.items board.new) }
    ensures memory { OnErr result (board.new ≡ board.old) }
{
    let text = ok_line(alloc)?;
    board.put(alloc, b, plane)?;
    Ok(text)
}

/// Carries out what was planned for block `b`: returns the line of a code, or changes the block and returns `ok`.
/// If memory runs out, the board stays as it was.
pub(crate) fn settle(
    alloc: Global,
    board: &mut Board,
    b: u32,
    planned: Planned,
) -> Result<Vec<u8>, AllocError>
    requires { MayStand board.old.views b planned }
    ensures done { IfOk result (λ text. IsSettled b planned board.old text.items board.new) }
    ensures memory { OnErr result (board.new ≡ board.old) }
{
    match planned {
        Planned::Refused(code) => code.line(alloc),
        Planned::Change(plane) => make(alloc, board, b, plane),
    }
}
