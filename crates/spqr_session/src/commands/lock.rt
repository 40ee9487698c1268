// `lock B K` and `unlock B K`: a node of a block is locked, or its lock is taken away.
ghost use Rattle.std.specs.Prelude.{◌≡◌, ◌<◌, map, IfOk, OnErr};
ghost use Rattle.spqr_session.specs.State.{State};
ghost use Rattle.spqr_session.specs.Embedded.{view_tree, view_entry};
ghost use Rattle.spqr_session.specs.Scene.{setting_on};
ghost use Rattle.spqr_session.specs.declared.scene.Scene.{Scene};
ghost use Rattle.spqr_session.specs.BlockCodes.{node_codes, node_ladder};
ghost use Rattle.pair_split.specs.Kinds.{has_choices};
ghost use Rattle.spqr_session.specs.Board.{state_on, BelongTogether, IsCarried};
ghost use Rattle.spqr_session.specs.Planned.{IsVerdict};
ghost use Rattle.spqr_session.specs.Commands.Lock.{LockStep};

use crate::board::Board;
use crate::code::Code;
use crate::embedded::EmbeddedBlock;
use skel_embed::Outcome;
use spqr_script::ok_line;
use std::alloc::{AllocError, Global};

// The code that applies to a lock of node k of a block.
fn code_of_block(block: &EmbeddedBlock, k: u32) -> Option<Code>
    ensures { IsVerdict (node_codes has_choices k block.now.tree block.now.entry) result }
{
    if k >= block.tree().node_count() {
        return Some(Code::NoNode);
    }
    if !block.tree().kind(k).has_choices() {
        return Some(Code::WrongKind);
    }
    match block.outcome() {
        Outcome::Plane(_) => None,
        Outcome::Not(_) => Some(Code::NonPlanar),
    }
}

// The code that applies to a lock of node k of block b.
fn code_of(blocks: &[EmbeddedBlock], b: u32, k: u32) -> Option<Code>
    ensures { (s : State) → s.present.entries ≡ map view_entry blocks.now
        → IsVerdict (node_ladder has_choices (map view_tree blocks.now) b k s) result }
{
    match blocks.get(b as usize) {
        Some(block) => code_of_block(block, k),
        None => Some(Code::NoBlock),
    }
}

/// Carries out `lock`, or `unlock` where it is not to be on: the lock of the node is set so, or code 1, 2, 3 or 5. If
/// memory runs out, the board stays as it was.
pub(crate) fn carry_lock(
    alloc: Global,
    board: &mut Board,
    b: u32,
    k: u32,
    on: bool,
) -> Result<Vec<u8>, AllocError>
    ensures step { (scene : Scene) → BelongTogether scene board.old → IfOk result (λ text.
        LockStep on (setting_on scene board.old.views) b k (state_on scene board.old.views board.old) text.items (state_on scene board.old.views board.new)) }
    ensures setting { IsCarried board.old.views board.new.views }
    ensures memory { OnErr result (board.new ≡ board.old) }
{
    match code_of(board.blocks(), b, k) {
        Some(code) => code.line(alloc),
        None => {
            let text = ok_line(alloc)?;
            board.set_lock(alloc, b, k, on)?;
            Ok(text)
        }
    }
}
