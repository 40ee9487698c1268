// Lists of edges that become the rotation system of a block.

ghost use Rattle.std.specs.Prelude.{◌≡◌, IfOk, IfErr};
ghost use Rattle.graph_theory.specs.Block.{IsOneBlock};
ghost use Rattle.faces.specs.Euler.{IsPlaneSystem};
ghost use Rattle.skel_embed.specs.Taken.{IsGiven, IsGivenRefusal};

use faces::euler;
use multigraph::{Graph, Part};
use rotations::{Lists, RotFault, Rotation};
use std::alloc::Global;
use thiserror::Error;

/// Why lists cannot become the rotation system of a block.
#[derive(Debug, Drop, Error)]
pub enum TakeFault {
    /// The list of this vertex is not an ordering of its edges in the block, or this number is named and is not a vertex of it.
    #[error("the list of vertex {0} is not an ordering of its edges")]
    BadRotation(u32),
    /// They are a rotation system with these numbers of vertices, edges and faces, which is not plane.
    #[error("{0} vertices, {1} edges and {2} faces are not in the plane")]
    NotGenusZero(u32, u32, u32),
    /// They have another choice at this node, which is locked.
    #[error("node {0} is locked")]
    Locked(u32),
    /// Memory ran out.
    #[error("out of memory")]
    Memory,
}

// The plane rotation system of the block `g` that the lists are, in the numbers of the whole graph.
pub(crate) fn given(
    alloc: Global,
    g: &Graph,
    part: &Part,
    lists: &Lists,
) -> Result<Rotation, TakeFault>
    requires part { part.now.graph ≡ g.now }
    requires block { IsOneBlock g.now }
    ensures given { IfOk result (IsGiven part.now lists.now) }
    ensures plane { IfOk result (IsPlaneSystem g.now) }
    ensures refused { IfErr result (IsGivenRefusal part.now lists.now) }
{
    let _ = part.graph(); // for its promise alone
    let r = match Rotation::from_part(alloc, part, lists) {
        Ok(r) => r,
        Err(fault) => match fault {
            RotFault::BadRotation(v) => return Err(TakeFault::BadRotation(v)),
            RotFault::Memory => return Err(TakeFault::Memory),
        },
    };
    let Ok(u) = euler(alloc, g, &r) else {
        return Err(TakeFault::Memory);
    };
    if u.plane {
        Ok(r)
    } else {
        Err(TakeFault::NotGenusZero(u.v, u.e, u.f))
    }
}
