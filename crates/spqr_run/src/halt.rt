// Why a call gives no value.
ghost use Rattle.std.specs.Prelude.{◌≡◌};
ghost use Rattle.spqr_run.specs.declared.halt.Halt.TheVariants.{Refused, Memory};

use spqr_edge::Failed;
use std::alloc::AllocError;

/// A call gave no value: for this reason, or because memory ran out.
#[derive(Drop)]
pub enum Halt<R> {
    /// It was refused.
    Refused(R),
    /// Memory ran out.
    Memory,
}

impl<R> From<AllocError> for Halt<R> {
    ghost from_gives = { λ _ halt. halt ≡ Memory };

    fn from(_: AllocError) -> Self {
        Halt::Memory
    }
}

impl From<Failed> for Halt<Failed> {
    ghost from_gives = { λ failed halt. halt ≡ Refused failed };

    fn from(failed: Failed) -> Self {
        Halt::Refused(failed)
    }
}
