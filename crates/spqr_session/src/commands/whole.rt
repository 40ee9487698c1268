// `whole C`: the present rotation system of a component.
ghost use Rattle.std.specs.Prelude.{◌≡◌, ◌<◌, true, IfOk};
ghost use Rattle.spqr_session.specs.Setting.{IsSetting};
ghost use Rattle.spqr_session.specs.State.{IsFamily, is_planar_component};
ghost use Rattle.spqr_session.specs.Kept.{family_of};
ghost use Rattle.spqr_session.specs.Scene.{setting_on};
ghost use Rattle.spqr_session.specs.Board.{state_on, kept_now, BelongTogether};
ghost use Rattle.spqr_session.specs.Wholes.{IsWholeTold};
ghost use Rattle.spqr_session.specs.Commands.Whole.{WholeStep};

use crate::board::Board;
use crate::scene::Scene;
use crate::wholes::{component_code, present_component};
use spqr_script::push_whole_line;
use std::alloc::{AllocError, Global};
use whole_embed::whole;

// The line of the rotation system of component c, whose blocks are planar.
fn line_of(alloc: Global, scene: &Scene, board: &Board, c: u32) -> Result<Vec<u8>, AllocError>
    requires setting { IsSetting (setting_on scene.now board.now.views) }
    requires family { IsFamily (setting_on scene.now board.now.views)
        (family_of (setting_on scene.now board.now.views) (kept_now board.now)) }
    requires component { c < scene.now.blocks.component_count }
    requires planar { is_planar_component (setting_on scene.now board.now.views) c ≡ true }
    ensures { IfOk result (λ text. IsWholeTold (setting_on scene.now board.now.views) c
        (family_of (setting_on scene.now board.now.views) (kept_now board.now)) text.items) }
{
    let found = present_component(alloc, scene, board, c)?;
    let lists = whole(alloc, &found.0, &found.1)?;
    let mut text = Vec::new(alloc);
    push_whole_line(&mut text, c, &lists)?;
    Ok(text)
}

/// Carries out `whole`: the rotation system of component `c`, or code 5 or 14. Nothing changes.
pub(crate) fn carry_whole(
    alloc: Global,
    scene: &Scene,
    board: &Board,
    c: u32,
) -> Result<Vec<u8>, AllocError>
    requires { BelongTogether scene.now board.now }
    ensures { IfOk result (λ text. WholeStep (setting_on scene.now board.now.views) c
        (state_on scene.now board.now.views board.now) text.items
        (state_on scene.now board.now.views board.now)) }
{
    match component_code(scene, board.blocks(), c) {
        Some(code) => code.line(alloc),
        None => line_of(alloc, scene, board, c),
    }
}
