// Why no moves lead a component to lists of edges.

ghost use Rattle.std.specs.Prelude.{◌≡◌};
ghost use Rattle.whole_convert.specs.declared.faults.WholeFault.TheVariants.{Memory};

use std::alloc::AllocError;
use thiserror::Error;

/// Why no moves lead a component to a rotation system that is given by lists.
#[derive(Debug, Drop, Error)]
pub enum WholeFault {
    /// The list of this vertex is not an ordering of its edges, or this number is named and is not a vertex of the component.
    #[error("the list of vertex {0} is not an ordering of its edges")]
    BadRotation(u32),
    /// The lists are a rotation system with these numbers of vertices, edges and faces, which is not plane.
    #[error("{0} vertices, {1} edges and {2} faces are not in the plane")]
    NotGenusZero(u32, u32, u32),
    /// In this block they have another choice at this node, which is locked.
    #[error("node {1} of block {0} is locked")]
    Locked(u32, u32),
    /// Memory ran out.
    #[error("out of memory")]
    Memory,
}

impl From<AllocError> for WholeFault {
    ghost from_gives = { λ _ fault. fault ≡ Memory };

    fn from(_error: AllocError) -> WholeFault {
        WholeFault::Memory
    }
}
