// `longest B`: the greatest length of a face that a block can have, and moves that lead to one.
ghost use Rattle.std.specs.Prelude.{◌≡◌, map, IfOk};
ghost use Rattle.spqr_session.specs.State.{State};
ghost use Rattle.spqr_session.specs.Embedded.{view_tree, view_entry};
ghost use Rattle.spqr_session.specs.BlockCodes.{no_more, ReadStep};
ghost use Rattle.spqr_session.specs.Commands.Longest.{IsLongestAnswer};

use crate::embedded::EmbeddedBlock;
use crate::planar::plane_of;
use long_face::longest;
use spqr_script::longest_lines;
use std::alloc::{AllocError, Global};

/// Carries out `longest`: the greatest length of a face of block `b`, with moves that lead to one, or code 1 or 5. Nothing changes,
/// and locks are not looked at.
pub(crate) fn carry_longest(
    alloc: Global,
    blocks: &[EmbeddedBlock],
    b: u32,
) -> Result<Vec<u8>, AllocError>
    ensures { (s : State) → s.present.entries ≡ map view_entry blocks.now
        → IfOk result (λ text. ReadStep no_more IsLongestAnswer (map view_tree blocks.now) b s text.items s) }
{
    match plane_of(blocks, b) {
        Ok((part, plane)) => {
            let found = longest(alloc, plane)?;
            longest_lines(alloc, found.length, part, &found.moves)
        }
        Err(code) => code.line(alloc),
    }
}
