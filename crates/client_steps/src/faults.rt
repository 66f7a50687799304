// Why a step was not prepared.
use std::alloc::AllocError;

/// Why a step was not prepared.
#[derive(Clone, Copy, Debug, PartialEq, Eq)]
pub enum StepFault {
    /// The shelf has failed.
    ShelfFault,
    OutOfMemory,
}

impl From<AllocError> for StepFault {
    ghost use Rattle.std.specs.Prelude.{◌≡◌};
    ghost use Rattle.client_steps.specs.declared.faults.StepFault.TheVariants.{OutOfMemory};

    ghost from_gives = { λ _ fault. fault ≡ OutOfMemory };

    fn from(_: AllocError) -> Self {
        StepFault::OutOfMemory
    }
}
