// Why a list of edges does not become the arrangement at a cut vertex.

ghost use Rattle.std.specs.Prelude.{◌≡◌};
ghost use Rattle.whole_embed.specs.declared.faults.RegroupFault.TheVariants.{Memory};

use std::alloc::AllocError;
use thiserror::Error;

/// Why `regroup` does not arrange the edges at a cut vertex in the order that is given.
#[derive(Debug, Drop, Error)]
pub enum RegroupFault {
    /// The list of this vertex is not an ordering of its edges.
    #[error("the list of vertex {0} is not an ordering of its edges")]
    BadRotation(u32),
    /// The list changes the cyclic order of this block around the vertex, and of no smaller one.
    #[error("the cyclic order of block {0} is changed")]
    BlockOrder(u32),
    /// The list keeps the cyclic order of each block, and these two cross: the least pair that does.
    #[error("blocks {0} and {1} cross")]
    Cross(u32, u32),
    /// Memory ran out.
    #[error("out of memory")]
    Memory,
}

impl From<AllocError> for RegroupFault {
    ghost from_gives = { λ _ fault. fault ≡ Memory };

    fn from(_error: AllocError) -> RegroupFault {
        RegroupFault::Memory
    }
}
