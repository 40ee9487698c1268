// Carrying out a command.
ghost use Rattle.std.specs.Prelude.{◌≡◌, IfOk, OnErr};
ghost use Rattle.spqr_session.specs.Setting.{IsSetting};
ghost use Rattle.spqr_session.specs.State.{IsState};
ghost use Rattle.spqr_session.specs.Scene.{setting_on};
ghost use Rattle.spqr_session.specs.Board.{state_on, IsCarried};
ghost use Rattle.spqr_session.specs.Step.{Step};

use crate::board::Board;
use crate::commands::{
    carry_convert_rank, carry_convert_to, carry_convert_whole, carry_count, carry_draw,
    carry_euler, carry_faces, carry_first, carry_flip, carry_gml, carry_goto, carry_list,
    carry_list_whole, carry_lock, carry_longest, carry_mirror, carry_next, carry_next_whole,
    carry_permute, carry_rank, carry_redo, carry_regroup, carry_show, carry_take, carry_undo,
    carry_whole,
};
use crate::scene::Scene;
use spqr_script::Command;
use std::alloc::{AllocError, Global};

/// Carries out a command on the setting of a scene with the blocks on the board, and gives its answer. If memory runs out, the board
/// stays as it was.
pub(crate) fn carry_out(
    alloc: Global,
    scene: &Scene,
    board: &mut Board,
    command: &Command,
) -> Result<Vec<u8>, AllocError>
    requires setting { IsSetting (setting_on scene.now board.old.views) }
    requires state { IsState (setting_on scene.now board.old.views) (state_on scene.now board.old.views board.old) }
    ensures step { IfOk result (λ text. Step (setting_on scene.now board.old.views)
        (state_on scene.now board.old.views board.old) command.now text.items (state_on scene.now board.old.views board.new)) }
    ensures setting { IsCarried board.old.views board.new.views }
    ensures memory { OnErr result (board.new ≡ board.old) }
{
    let graph = scene.named.graph();
    match command {
        Command::Euler(lists) => carry_euler(alloc, graph, lists),
        Command::Show(b) => carry_show(alloc, board.blocks(), *b),
        Command::Faces(b) => carry_faces(alloc, board.blocks(), *b),
        Command::Flip(b, k) => carry_flip(alloc, board, *b, *k),
        Command::Permute(b, k, keys) => carry_permute(alloc, board, *b, *k, keys.as_slice()),
        Command::Mirror(b) => carry_mirror(alloc, board, *b),
        Command::First(b) => carry_first(alloc, board, *b),
        Command::Next(b) => carry_next(alloc, board, *b),
        Command::List(b, n) => carry_list(alloc, board.blocks(), *b, *n),
        Command::Goto(b, r) => carry_goto(alloc, board, *b, *r),
        Command::ConvertRank(b, r) => carry_convert_rank(alloc, board, *b, *r),
        Command::ConvertTo(b, lists) => carry_convert_to(alloc, board, *b, lists),
        Command::Take(b, lists) => carry_take(alloc, board, *b, lists),
        Command::Undo => carry_undo(alloc, board),
        Command::Redo => carry_redo(alloc, board),
        Command::Gml => carry_gml(alloc, &scene.doc, graph, board.blocks()),
        Command::Count(b) => carry_count(alloc, board.blocks(), *b),
        Command::Rank(b) => carry_rank(alloc, board.blocks(), *b),
        Command::Longest(b) => carry_longest(alloc, board.blocks(), *b),
        Command::Draw(b) => carry_draw(alloc, board.blocks(), *b),
        Command::Lock(b, k) => carry_lock(alloc, board, *b, *k, true),
        Command::Unlock(b, k) => carry_lock(alloc, board, *b, *k, false),
        Command::Whole(c) => carry_whole(alloc, scene, board, *c),
        Command::Regroup(v, edges) => carry_regroup(alloc, scene, board, *v, edges.as_slice()),
        Command::NextWhole(c) => carry_next_whole(alloc, scene, board, *c),
        Command::ListWhole(c, n) => carry_list_whole(alloc, scene, board, *c, *n),
        Command::ConvertWhole(c, lists) => carry_convert_whole(alloc, scene, board, *c, lists),
    }
}
