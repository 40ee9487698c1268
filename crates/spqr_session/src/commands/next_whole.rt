// `nextwhole C`: to the next plane rotation system of a component.
ghost use Rattle.std.specs.Prelude.{◌≡◌, ◌<◌, true, IfOk, OnErr};
ghost use Rattle.spqr_session.specs.State.{is_planar_component};
ghost use Rattle.spqr_session.specs.Scene.{setting_on};
ghost use Rattle.spqr_session.specs.Board.{state_on, IsCarried, BelongTogether};
ghost use Rattle.spqr_session.specs.Commands.NextWhole.{NextWholeDoes, NextWholeStep};

use crate::board::Board;
use crate::scene::Scene;
use crate::whole_steps::put_whole;
use crate::wholes::{component_code, present_component};
use spqr_script::{end_line, ok_line};
use std::alloc::{AllocError, Global};
use whole_embed::next_whole;

// Goes to the next member of the list of component c, whose blocks are planar. Copies walk there.
fn go_on(alloc: Global, scene: &Scene, board: &mut Board, c: u32) -> Result<Vec<u8>, AllocError>
    requires together { BelongTogether scene.now board.old }
    requires component { c < scene.now.blocks.component_count }
    requires planar { is_planar_component (setting_on scene.now board.old.views) c ≡ true }
    ensures step { IfOk result (λ text. NextWholeDoes (setting_on scene.now board.old.views) c
        (state_on scene.now board.old.views board.old) text.items
        (state_on scene.now board.old.views board.new)) }
    ensures setting { IsCarried board.old.views board.new.views }
    ensures memory { OnErr result (board.new ≡ board.old) }
{
    board.keeps_places();
    let (mut cuts, mut all) = present_component(alloc, scene, board, c)?;
    if !next_whole(&mut cuts, &mut all) {
        return end_line(alloc);
    }
    let text = ok_line(alloc)?;
    put_whole(alloc, board, &cuts, &all)?;
    Ok(text)
}

/// Carries out `nextwhole`: component `c` goes to the next member of its list, or code 5 or 14. If memory runs out, the board stays as
/// it was.
pub(crate) fn carry_next_whole(
    alloc: Global,
    scene: &Scene,
    board: &mut Board,
    c: u32,
) -> Result<Vec<u8>, AllocError>
    requires { BelongTogether scene.now board.old }
    ensures step { IfOk result (λ text. NextWholeStep (setting_on scene.now board.old.views) c
        (state_on scene.now board.old.views board.old) text.items
        (state_on scene.now board.old.views board.new)) }
    ensures setting { IsCarried board.old.views board.new.views }
    ensures memory { OnErr result (board.new ≡ board.old) }
{
    match component_code(scene, board.blocks(), c) {
        Some(code) => code.line(alloc),
        None => go_on(alloc, scene, board, c),
    }
}
