// Why a line was not done and answered.
use client_core::StepFault;
use host_model::{DiskFailed, SayFailed};
use std::alloc::AllocError;

/// Why a line was not done and answered.
#[derive(Clone, Copy, Debug, PartialEq, Eq)]
pub(crate) enum RunFault {
    /// The shelf has failed.
    ShelfFault,
    /// The disk has failed.
    DiskFault,
    /// The output has failed.
    SayFault,
    OutOfMemory,
}

impl From<StepFault> for RunFault {
    ghost use Rattle.std.specs.Prelude.{◌≡◌};
    ghost use Rattle.session_run.specs.Statuses.{of_step};

    ghost from_gives = { λ fault run. run ≡ of_step fault };

    fn from(fault: StepFault) -> Self {
        match fault {
            StepFault::ShelfFault => RunFault::ShelfFault,
            StepFault::OutOfMemory => RunFault::OutOfMemory,
        }
    }
}

impl From<DiskFailed> for RunFault {
    ghost use Rattle.std.specs.Prelude.{◌≡◌};
    ghost use Rattle.session_run.specs.declared.faults.RunFault.TheVariants.{DiskFault};

    ghost from_gives = { λ _ run. run ≡ DiskFault };

    fn from(_: DiskFailed) -> Self {
        RunFault::DiskFault
    }
}

impl From<SayFailed> for RunFault {
    ghost use Rattle.std.specs.Prelude.{◌≡◌};
    ghost use Rattle.session_run.specs.declared.faults.RunFault.TheVariants.{SayFault};

    ghost from_gives = { λ _ run. run ≡ SayFault };

    fn from(_: SayFailed) -> Self {
        RunFault::SayFault
    }
}

impl From<AllocError> for RunFault {
    ghost use Rattle.std.specs.Prelude.{◌≡◌};
    ghost use Rattle.session_run.specs.declared.faults.RunFault.TheVariants.{OutOfMemory};

    ghost from_gives = { λ _ run. run ≡ OutOfMemory };

    fn from(_: AllocError) -> Self {
        RunFault::OutOfMemory
    }
}
