// Why lists of edges are not a rotation system.

ghost use Rattle.std.specs.Prelude.{◌≡◌};
ghost use Rattle.rotations.specs.declared.faults.RotFault.TheVariants.{Memory};

use std::alloc::AllocError;
use thiserror::Error;

/// Why `Rotation::from_lists` makes no rotation system.
#[derive(Debug, Drop, Error)]
pub enum RotFault {
    /// The list of this vertex is not a permutation of the edges at it, or this number is named and not a vertex.
    #[error("the list of vertex {0} is not a permutation of its edges")]
    BadRotation(u32),
    /// Memory ran out.
    #[error("out of memory")]
    Memory,
}

impl From<AllocError> for RotFault {
    ghost from_gives = { λ _ fault. fault ≡ Memory };

    fn from(_error: AllocError) -> RotFault {
        RotFault::Memory
    }
}
