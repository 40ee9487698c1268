// `show B`: the present rotation system of a block.
ghost use Rattle.std.specs.Prelude.{◌≡◌, map, IfOk};
ghost use Rattle.spqr_session.specs.State.{State};
ghost use Rattle.spqr_session.specs.Embedded.{view_tree, view_entry};
ghost use Rattle.spqr_session.specs.BlockCodes.{no_more, ReadStep};
ghost use Rattle.spqr_session.specs.Commands.Show.{IsShown};

use crate::embedded::EmbeddedBlock;
use crate::planar::plane_of;
use spqr_script::rotation_line;
use std::alloc::{AllocError, Global};

/// Carries out `show`: the rotation system of block `b`, or code 1 or 5. Nothing changes.
pub(crate) fn carry_show(
    alloc: Global,
    blocks: &[EmbeddedBlock],
    b: u32,
) -> Result<Vec<u8>, AllocError>
    ensures { (s : State) → s.present.entries ≡ map view_entry blocks.now
        → IfOk result (λ text. ReadStep no_more (IsShown b) (map view_tree blocks.now) b s text.items s) }
{
    match plane_of(blocks, b) {
        Ok((part, plane)) => rotation_line(alloc, b, part, plane.rotation()),
        Err(code) => code.line(alloc),
    }
}
