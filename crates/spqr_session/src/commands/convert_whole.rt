// `convertwhole C ROT`: the moves that lead a component to another plane rotation system, printed and made.
ghost use Rattle.std.specs.Prelude.{◌≡◌, ◌++◌, ◌<◌, true, length, map, All, IfOk, OnErr, OnOk};
ghost use Rattle.std.specs.List.{concat};
ghost use Rattle.spqr_session.specs.State.{is_planar_component};
ghost use Rattle.spqr_session.specs.Scene.{setting_on};
ghost use Rattle.spqr_session.specs.Board.{state_on, IsCarried, BelongTogether};
ghost use Rattle.spqr_session.specs.WholeSteps.{IsStepIn, line_in, lines_in, IsCodeOf};
ghost use Rattle.spqr_session.specs.Commands.ConvertWhole.{ConvertWholeStep};

use crate::board::Board;
use crate::code::Code;
use crate::embedded::EmbeddedBlock;
use crate::scene::Scene;
use crate::whole_steps::put_whole;
use crate::wholes::{component_code, present_component};
use rotations::Lists;
use spqr_script::{push_block_move_line, push_move_count_line, push_regroup_line};
use std::alloc::{AllocError, Global};
use whole_convert::{WholeFault, WholeMove, lead_whole};

// Appends the line of a step.
fn push_step_line(
    out: &mut Vec<u8>,
    blocks: &[EmbeddedBlock],
    step: &WholeMove,
) -> Result<(), AllocError>
    requires { IsStepIn blocks.now step.now }
    ensures { OnOk result (out.new.items ≡ out.old.items ++ line_in blocks.now step.now) }
{
    match step {
        WholeMove::Block(b, one) => push_block_move_line(out, *b, blocks[*b as usize].part(), one),
        WholeMove::Regroup(v, edges) => push_regroup_line(out, *v, edges.as_slice()),
    }
}

// The line of how many steps there are, and theirs.
fn steps_lines(
    alloc: Global,
    blocks: &[EmbeddedBlock],
    steps: &[WholeMove],
) -> Result<Vec<u8>, AllocError>
    requires { All (IsStepIn blocks.now) steps.now }
    ensures { IfOk result (λ text. text.items ≡ lines_in blocks.now steps.now) }
{
    let mut text = Vec::new(alloc);
    push_move_count_line(&mut text, steps.len())?;
    for step in steps {
        push_step_line(&mut text, blocks, step)?;
    }
    Ok(text)
}

// The code of a fault.
fn code_of(fault: WholeFault) -> Result<Code, AllocError>
    ensures { IfOk result (IsCodeOf fault) }
{
    match fault {
        WholeFault::BadRotation(v) => Ok(Code::BadRotation(v)),
        WholeFault::NotGenusZero(v, e, f) => Ok(Code::NotGenusZero(v, e, f)),
        WholeFault::Locked(b, k) => Ok(Code::LockedIn(b, k)),
        WholeFault::Memory => Err(AllocError),
    }
}

// Leads component c, whose blocks are planar, to the rotation system that the lists are.
fn convert(
    alloc: Global,
    scene: &Scene,
    board: &mut Board,
    c: u32,
    lists: &Lists,
) -> Result<Vec<u8>, AllocError>
    requires together { BelongTogether scene.now board.old }
    requires component { c < scene.now.blocks.component_count }
    requires planar { is_planar_component (setting_on scene.now board.old.views) c ≡ true }
    ensures step { IfOk result (λ text. ConvertWholeStep (setting_on scene.now board.old.views) c lists.now
        (state_on scene.now board.old.views board.old) text.items
        (state_on scene.now board.old.views board.new)) }
    ensures setting { IsCarried board.old.views board.new.views }
    ensures memory { OnErr result (board.new ≡ board.old) }
{
    board.keeps_places();
    let (cuts, all) = present_component(alloc, scene, board, c)?;
    match lead_whole(alloc, &cuts, &all, lists) {
        Ok(led) => {
            let text = steps_lines(alloc, board.blocks(), &led.moves)?;
            put_whole(alloc, board, &led.cuts, &led.all)?;
            Ok(text)
        }
        Err(fault) => code_of(fault)?.line(alloc),
    }
}

/// Carries out `convertwhole`: the moves that lead component `c` to the rotation system that the lists are, printed and made, or code
/// 5, 6, 7, 12 or 14. If memory runs out, the board stays as it was.
pub(crate) fn carry_convert_whole(
    alloc: Global,
    scene: &Scene,
    board: &mut Board,
    c: u32,
    lists: &Lists,
) -> Result<Vec<u8>, AllocError>
    requires { BelongTogether scene.now board.old }
    ensures step { IfOk result (λ text. ConvertWholeStep (setting_on scene.now board.old.views) c lists.now
        (state_on scene.now board.old.views board.old) text.items
        (state_on scene.now board.old.views board.new)) }
    ensures setting { IsCarried board.old.views board.new.views }
    ensures memory { OnErr result (board.new ≡ board.old) }
{
    match component_code(scene, board.blocks(), c) {
        Some(code) => code.line(alloc),
        None => convert(alloc, scene, board, c, lists),
    }
}
