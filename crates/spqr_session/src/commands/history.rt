// `undo` and `redo`: the families before and after.
ghost use Rattle.std.specs.Prelude.{◌≡◌, IfOk, OnErr};
ghost use Rattle.spqr_session.specs.declared.scene.Scene.{Scene};
ghost use Rattle.spqr_session.specs.Board.{state_on, IsCarried};
ghost use Rattle.spqr_session.specs.Commands.History.{UndoStep, RedoStep};

use crate::board::Board;
use crate::code::Code;
use spqr_script::ok_line;
use std::alloc::{AllocError, Global};

/// Carries out `undo`: the nearest earlier family is the present one, or code 8. If memory runs out, the board stays as it was.
pub(crate) fn carry_undo(alloc: Global, board: &mut Board) -> Result<Vec<u8>, AllocError>
    ensures step { (scene : Scene) → IfOk result (λ text. UndoStep (state_on scene board.old.views board.old)
        text.items (state_on scene board.old.views board.new)) }
    ensures setting { IsCarried board.old.views board.new.views }
    ensures memory { OnErr result (board.new ≡ board.old) }
{
    if !board.can_undo() {
        return Code::NothingToUndo.line(alloc);
    }
    let text = ok_line(alloc)?;
    board.undo(alloc)?;
    Ok(text)
}

/// Carries out `redo`: the nearest later family is the present one, or code 9. If memory runs out, the board stays as it was.
pub(crate) fn carry_redo(alloc: Global, board: &mut Board) -> Result<Vec<u8>, AllocError>
    ensures step { (scene : Scene) → IfOk result (λ text. RedoStep (state_on scene board.old.views board.old)
        text.items (state_on scene board.old.views board.new)) }
    ensures setting { IsCarried board.old.views board.new.views }
    ensures memory { OnErr result (board.new ≡ board.old) }
{
    if !board.can_redo() {
        return Code::NothingToRedo.line(alloc);
    }
    let text = ok_line(alloc)?;
    board.redo(alloc)?;
    Ok(text)
}
