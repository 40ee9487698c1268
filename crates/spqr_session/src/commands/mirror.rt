// `mirror B`: the mirror image of the present rotation system of a block.
ghost use Rattle.std.specs.Prelude.{◌≡◌, map, IfOk, OnErr};
ghost use Rattle.spqr_session.specs.State.{State};
ghost use Rattle.spqr_session.specs.Embedded.{view_tree, view_entry};
ghost use Rattle.spqr_session.specs.Scene.{setting_on};
ghost use Rattle.spqr_session.specs.declared.scene.Scene.{Scene};
ghost use Rattle.spqr_session.specs.BlockCodes.{read_ladder};
ghost use Rattle.spqr_session.specs.Board.{state_on, BelongTogether, IsCarried};
ghost use Rattle.spqr_session.specs.Planned.{IsVerdict, IsMirrorVerdict};
ghost use Rattle.spqr_session.specs.Commands.Mirror.{mirror_codes, MirrorStep};

use crate::board::Board;
use crate::code::Code;
use crate::embedded::EmbeddedBlock;
use crate::planar::plane_of;
use embed_moves::least_held;
use skel_embed::PlaneBlock;
use spqr_script::ok_line;
use std::alloc::{AllocError, Global};

// Code 12, where it applies to the mirror image of a block in the plane.
fn code_of_plane(plane: &PlaneBlock) -> Option<Code>
    ensures { IsMirrorVerdict plane.now result }
{
    match least_held(plane) {
        Some(k) => Some(Code::Locked(k)),
        None => None,
    }
}

// The code that applies to the mirror image of block b.
fn code_of(blocks: &[EmbeddedBlock], b: u32) -> Option<Code>
    ensures { (s : State) → s.present.entries ≡ map view_entry blocks.now
        → IsVerdict (read_ladder mirror_codes (map view_tree blocks.now) b s) result }
{
    match plane_of(blocks, b) {
        Ok((_, plane)) => code_of_plane(plane),
        Err(code) => Some(code),
    }
}

/// Carries out `mirror`: every rotation of the block is reversed, or code 1, 5 or 12. If memory runs out, the board stays as it was.
pub(crate) fn carry_mirror(alloc: Global, board: &mut Board, b: u32) -> Result<Vec<u8>, AllocError>
    ensures step { (scene : Scene) → BelongTogether scene board.old → IfOk result (λ text.
        MirrorStep (setting_on scene board.old.views) b (state_on scene board.old.views board.old) text.items (state_on scene board.old.views board.new)) }
    ensures setting { IsCarried board.old.views board.new.views }
    ensures memory { OnErr result (board.new ≡ board.old) }
{
    match code_of(board.blocks(), b) {
        Some(code) => code.line(alloc),
        None => {
            let text = ok_line(alloc)?;
            board.mirror(alloc, b)?;
            Ok(text)
        }
    }
}
