// The block of a command that wants one in the plane.
ghost use Rattle.std.specs.Result.{MatchResult};
ghost use Rattle.spqr_session.specs.Planar.{IsPlaneAt, IsNotPlaneAt};

use crate::code::Code;
use crate::embedded::EmbeddedBlock;
use multigraph::Part;
use skel_embed::{Outcome, PlaneBlock};

/// Block `b` as a part of the graph, and in the plane; or the code that applies, 1 or 5.
pub(crate) fn plane_of(blocks: &[EmbeddedBlock], b: u32) -> Result<(&Part, &PlaneBlock), Code>
    ensures { MatchResult result (λ found. IsPlaneAt blocks.now b found.0.now found.1.now)
        (IsNotPlaneAt blocks.now b) }
{
    match blocks.get(b as usize) {
        Some(block) => match block.outcome() {
            Outcome::Plane(plane) => Ok((block.part(), plane)),
            Outcome::Not(_) => Err(Code::NonPlanar),
        },
        None => Err(Code::NoBlock),
    }
}
