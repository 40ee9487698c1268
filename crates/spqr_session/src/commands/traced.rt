// `faces B`: the faces of the present rotation system of a block.
ghost use Rattle.std.specs.Prelude.{◌≡◌, map, IfOk};
ghost use Rattle.spqr_session.specs.State.{State};
ghost use Rattle.spqr_session.specs.Embedded.{view_tree, view_entry};
ghost use Rattle.spqr_session.specs.BlockCodes.{no_more, ReadStep};
ghost use Rattle.spqr_session.specs.Commands.Faces.{IsFaced};

use crate::embedded::EmbeddedBlock;
use crate::planar::plane_of;
use faces::trace;
use spqr_script::faces_lines;
use std::alloc::{AllocError, Global};

/// Carries out `faces`: the faces of block `b`, or code 1 or 5. Nothing changes.
pub(crate) fn carry_faces(
    alloc: Global,
    blocks: &[EmbeddedBlock],
    b: u32,
) -> Result<Vec<u8>, AllocError>
    ensures { (s : State) → s.present.entries ≡ map view_entry blocks.now
        → IfOk result (λ text. ReadStep no_more (IsFaced b) (map view_tree blocks.now) b s text.items s) }
{
    match plane_of(blocks, b) {
        Ok((part, plane)) => {
            let faces = trace(alloc, plane.graph(), plane.rotation())?;
            faces_lines(alloc, b, part, &faces)
        }
        Err(code) => code.line(alloc),
    }
}
