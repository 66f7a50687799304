// Why an event was not counted, and why rows were not read.
use std::alloc::{AllocError, AllocFailed};

/// Why an event was not counted.
#[derive(Clone, Copy, Debug, PartialEq, Eq)]
pub enum CountFault {
    /// The name is new, and 64 names are there.
    EventLimit,
    OutOfMemory,
}

impl From<AllocError> for CountFault {
    ghost use Rattle.std.specs.Prelude.{◌≡◌};
    ghost use Rattle.event_counts.specs.declared.fault.CountFault.TheVariants.{OutOfMemory};

    ghost from_gives = { λ _ e. e ≡ OutOfMemory };

    fn from(_: AllocError) -> Self {
        CountFault::OutOfMemory
    }
}

/// Why rows were not read as counts.
#[derive(Clone, Copy, Debug, PartialEq, Eq)]
pub enum CountsFault {
    /// No counts have these rows.
    NotCounts,
    OutOfMemory,
}

impl From<AllocError> for CountsFault {
    ghost use Rattle.std.specs.Prelude.{◌≡◌};
    ghost use Rattle.event_counts.specs.declared.fault.CountsFault.TheVariants.{OutOfMemory};

    ghost from_gives = { λ _ e. e ≡ OutOfMemory };

    fn from(_: AllocError) -> Self {
        CountsFault::OutOfMemory
    }
}

impl<T: Drop> From<AllocFailed<T>> for CountsFault {
    ghost use Rattle.std.specs.Prelude.{◌≡◌};
    ghost use Rattle.event_counts.specs.declared.fault.CountsFault.TheVariants.{OutOfMemory};

    ghost from_gives = { λ _ e. e ≡ OutOfMemory };

    fn from(_: AllocFailed<T>) -> Self {
        CountsFault::OutOfMemory
    }
}
