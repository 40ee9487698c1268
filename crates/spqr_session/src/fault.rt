// Why a session does not start.
ghost use Rattle.std.specs.Prelude.{◌≡◌};
ghost use Rattle.spqr_session.specs.declared.fault.StartFault.TheVariants.{Memory};

use std::alloc::AllocError;

/// Why a session does not start.
#[derive(Clone, Copy, Debug)]
pub enum StartFault {
    /// The file gives a rotation system of this planar block, with these numbers of vertices, edges and faces, that is not plane:
    /// V - E + F is not 2. The block is the least such one.
    StartGenus(u32, u32, u32, u32),
    /// Memory ran out.
    Memory,
}

impl From<AllocError> for StartFault {
    ghost from_gives = { λ _ fault. fault ≡ Memory };

    fn from(_: AllocError) -> StartFault {
        StartFault::Memory
    }
}
