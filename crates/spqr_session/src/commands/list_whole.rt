// `listwhole C N`: the members that follow the present one in a component's list.
ghost use Rattle.std.specs.Prelude.{◌≡◌, ℕ, ◌+◌, ◌<◌, if◌then◌else◌, List, ◌++◌, true, length, take, drop, IfOk, OnOk};
ghost use Rattle.spqr_script.specs.Answers.Whole.{list_whole_text};
ghost use Rattle.spqr_session.specs.Setting.{IsSetting};
ghost use Rattle.spqr_session.specs.State.{IsFamily, is_planar_component};
ghost use Rattle.spqr_session.specs.Kept.{family_of};
ghost use Rattle.spqr_session.specs.Scene.{setting_on};
ghost use Rattle.spqr_session.specs.Board.{state_on, kept_now, BelongTogether};
ghost use Rattle.spqr_session.specs.WholeSteps.{IsListNow, AreTogether, system_texts, IsListTold};
ghost use Rattle.spqr_session.specs.Commands.ListWhole.{ListWholeStep, whole_members_text};

use super::listing::last_line;
use crate::board::Board;
use crate::lines::put_first;
use crate::scene::Scene;
use crate::wholes::{component_code, present_component};
use spqr_script::{list_whole_line, push_whole_line};
use std::alloc::{AllocError, Global};
use whole_embed::{Cuts, Member, next_whole, whole};

// Goes to the next members, n of them or all where they are fewer, appends the line of each to a text, and returns how many they
// are.
fn push_members(
    alloc: Global,
    out: &mut Vec<u8>,
    c: u32,
    n: u32,
    cuts: &mut Cuts,
    all: &mut [Member],
) -> Result<u32, AllocError>
    requires { AreTogether cuts.old all.old }
    ensures together { AreTogether cuts.new all.new }
    ensures count { IfOk result (λ t. (l : List (List (List ℕ))) (i : ℕ) → IsListNow cuts.old all.old l i
        → t ≡ length (take n (drop (i + 1) l))) }
    ensures stands { IfOk result (λ t. (l : List (List (List ℕ))) (i : ℕ) → IsListNow cuts.old all.old l i
        → IsListNow cuts.new all.new l (i + t)) }
    ensures lines { IfOk result (λ t. (l : List (List (List ℕ))) (i : ℕ) → IsListNow cuts.old all.old l i
        → out.new.items ≡ out.old.items ++ system_texts c cuts.old.component (take n (drop (i + 1) l))) }
{
    for turn in 0..n {
        if !next_whole(cuts, all) {
            return Ok(turn);
        }
        let lists = whole(alloc, cuts, all)?;
        push_whole_line(out, c, &lists)?;
    }
    Ok(n)
}

// Puts the line `listwhole C T` in the place of the line `listwhole C N` with which a text begins. The text is moved only where T is
// not N.
fn set_count(
    alloc: Global,
    text: &mut Vec<u8>,
    c: u32,
    n: u32,
    count: u32,
) -> Result<(), AllocError>
    ensures { (rest : List ℕ) → text.old.items ≡ list_whole_text c n ++ rest
        → OnOk result (text.new.items ≡ list_whole_text c count ++ rest) }
{
    if count == n {
        return Ok(());
    }
    let front = list_whole_line(alloc, c, n)?.len().min(text.len());
    let line = list_whole_line(alloc, c, count)?;
    text.rotate_left(front);
    text.truncate(text.len() - front);
    put_first(text, &line)
}

// The lines of the next n members of a component, by a walk. The first line says that n follow, until the walk has counted them.
fn list_from(
    alloc: Global,
    c: u32,
    n: u32,
    cuts: &mut Cuts,
    all: &mut [Member],
) -> Result<Vec<u8>, AllocError>
    requires { AreTogether cuts.old all.old }
    ensures { IfOk result (λ text. (l : List (List (List ℕ))) (i : ℕ) → IsListNow cuts.old all.old l i
        → text.items ≡ whole_members_text c n cuts.old.component (drop (i + 1) l)) }
{
    let mut text = list_whole_line(alloc, c, n)?;
    let count = push_members(alloc, &mut text, c, n, cuts, all)?;
    let last = last_line(alloc, next_whole(cuts, all))?;
    text.extend_from_slice(&last)?;
    set_count(alloc, &mut text, c, n, count)?;
    Ok(text)
}

// The lines of the next n members of component c, whose blocks are planar. Copies walk.
fn lines_of(
    alloc: Global,
    scene: &Scene,
    board: &Board,
    c: u32,
    n: u32,
) -> Result<Vec<u8>, AllocError>
    requires setting { IsSetting (setting_on scene.now board.now.views) }
    requires family { IsFamily (setting_on scene.now board.now.views)
        (family_of (setting_on scene.now board.now.views) (kept_now board.now)) }
    requires component { c < scene.now.blocks.component_count }
    requires planar { is_planar_component (setting_on scene.now board.now.views) c ≡ true }
    ensures { IfOk result (λ text. IsListTold (setting_on scene.now board.now.views) c n
        (family_of (setting_on scene.now board.now.views) (kept_now board.now)) text.items) }
{
    let (mut cuts, mut all) = present_component(alloc, scene, board, c)?;
    list_from(alloc, c, n, &mut cuts, &mut all)
}

/// Carries out `listwhole`: the lines of the next n members of component `c`, or code 5 or 14. Nothing changes.
pub(crate) fn carry_list_whole(
    alloc: Global,
    scene: &Scene,
    board: &Board,
    c: u32,
    n: u32,
) -> Result<Vec<u8>, AllocError>
    requires { BelongTogether scene.now board.now }
    ensures { IfOk result (λ text. ListWholeStep (setting_on scene.now board.now.views) c n
        (state_on scene.now board.now.views board.now) text.items
        (state_on scene.now board.now.views board.now)) }
{
    match component_code(scene, board.blocks(), c) {
        Some(code) => code.line(alloc),
        None => lines_of(alloc, scene, board, c, n),
    }
}
