// `draw B`: a drawing of a block with straight edges, in the order of its rotation system.
ghost use Rattle.std.specs.Prelude.{◌≡◌, List, map, IfOk};
ghost use Rattle.spqr_session.specs.State.{State};
ghost use Rattle.spqr_session.specs.Embedded.{BlockView, view_tree, view_entry, view_at};
ghost use Rattle.spqr_session.specs.BlockCodes.{ReadStep, TellsBlock};
ghost use Rattle.spqr_session.specs.Planar.{IsPlaneAt};
ghost use Rattle.spqr_session.specs.Commands.Draw.{parallel_codes, IsDrawingAnswer};

use crate::code::Code;
use crate::embedded::EmbeddedBlock;
use crate::planar::plane_of;
use grid_drawing::{DrawFault, draw};
use multigraph::Part;
use skel_embed::PlaneBlock;
use spqr_script::draw_lines;
use std::alloc::{AllocError, Global};

// The lines of a drawing of block b in the plane, which is this part, or that of code 13.
fn draw_plane(alloc: Global, b: u32, part: &Part, plane: &PlaneBlock) -> Result<Vec<u8>, AllocError>
    requires { (views : List BlockView) × IsPlaneAt views b part.now plane.now }
    ensures { (views : List BlockView) → IsPlaneAt views b part.now plane.now → IfOk result (λ text.
        TellsBlock (view_at views b).tree (view_at views b).entry parallel_codes (IsDrawingAnswer b) text.items) }
{
    match draw(alloc, plane.graph(), plane.rotation()) {
        Ok(points) => draw_lines(alloc, b, part, points.as_slice()),
        Err(DrawFault::Parallel(first, second)) => {
            Code::Parallel(part.edge(first), part.edge(second)).line(alloc)
        }
        Err(DrawFault::Memory) => Err(AllocError),
    }
}

/// Carries out `draw`: points that draw block `b`, or code 1, 5 or 13. Nothing changes, and locks are not looked at.
pub(crate) fn carry_draw(
    alloc: Global,
    blocks: &[EmbeddedBlock],
    b: u32,
) -> Result<Vec<u8>, AllocError>
    ensures { (s : State) → s.present.entries ≡ map view_entry blocks.now
        → IfOk result (λ text. ReadStep parallel_codes (IsDrawingAnswer b) (map view_tree blocks.now)
        b s text.items s) }
{
    match plane_of(blocks, b) {
        Ok((part, plane)) => draw_plane(alloc, b, part, plane),
        Err(code) => code.line(alloc),
    }
}
