// The rotation system of a component to which moves lead, from lists of edges.

ghost use Rattle.std.specs.Prelude.{◌≡◌, IfOk, IfErr};
ghost use Rattle.faces.specs.Euler.{IsPlaneSystem, component_count};
ghost use Rattle.skel_embed.specs.Taken.{IsGiven};
ghost use Rattle.whole_convert.specs.Led.{IsSystemRefusal};

use crate::faults::WholeFault;
use faces::euler;
use multigraph::Part;
use rotations::{Lists, RotFault, Rotation};
use std::alloc::Global;

// The plane rotation system of a connected part that the lists are, in the numbers of the whole graph.
pub(crate) fn system_of(alloc: Global, part: &Part, lists: &Lists) -> Result<Rotation, WholeFault>
    requires { component_count part.now.graph ≡ 1 }
    ensures given { IfOk result (IsGiven part.now lists.now) }
    ensures plane { IfOk result (IsPlaneSystem part.now.graph) }
    ensures refused { IfErr result (IsSystemRefusal part.now lists.now) }
{
    let r = match Rotation::from_part(alloc, part, lists) {
        Ok(r) => r,
        Err(fault) => match fault {
            RotFault::BadRotation(v) => return Err(WholeFault::BadRotation(v)),
            RotFault::Memory => return Err(WholeFault::Memory),
        },
    };
    let u = euler(alloc, part.graph(), &r)?;
    if u.plane {
        Ok(r)
    } else {
        Err(WholeFault::NotGenusZero(u.v, u.e, u.f))
    }
}
