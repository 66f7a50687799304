// Why an outbox refuses changes, a confirmation or rows.
use std::alloc::{AllocError, AllocFailed};

/// Why changes were not appended.
#[derive(Clone, Copy, Debug, PartialEq, Eq)]
pub enum AppendChangesFault {
    /// The next number would pass 9,223,372,036,854,775,807.
    ChangesSpent,
    OutOfMemory,
}

/// Why changes were not confirmed.
#[derive(Clone, Copy, Debug, PartialEq, Eq)]
pub enum ConfirmFault {
    /// No change has the number yet: this is the next one.
    NoSuchChange(u64),
    OutOfMemory,
}

/// Why rows gave no outbox.
#[derive(Clone, Copy, Debug, PartialEq, Eq)]
pub enum OutboxFault {
    /// No sound outbox has these rows.
    NotAnOutbox,
    OutOfMemory,
}

impl From<AllocError> for AppendChangesFault {
    ghost use Rattle.std.specs.Prelude.{◌≡◌};
    ghost use Rattle.change_outbox.specs.declared.fault.AppendChangesFault.TheVariants.{OutOfMemory};

    ghost from_gives = { λ _ fault. fault ≡ OutOfMemory };

    fn from(_: AllocError) -> AppendChangesFault {
        AppendChangesFault::OutOfMemory
    }
}

impl From<AllocError> for ConfirmFault {
    ghost use Rattle.std.specs.Prelude.{◌≡◌};
    ghost use Rattle.change_outbox.specs.declared.fault.ConfirmFault.TheVariants.{OutOfMemory};

    ghost from_gives = { λ _ fault. fault ≡ OutOfMemory };

    fn from(_: AllocError) -> ConfirmFault {
        ConfirmFault::OutOfMemory
    }
}

impl From<AllocError> for OutboxFault {
    ghost use Rattle.std.specs.Prelude.{◌≡◌};
    ghost use Rattle.change_outbox.specs.declared.fault.OutboxFault.TheVariants.{OutOfMemory};

    ghost from_gives = { λ _ fault. fault ≡ OutOfMemory };

    fn from(_: AllocError) -> OutboxFault {
        OutboxFault::OutOfMemory
    }
}

impl<T: Drop> From<AllocFailed<T>> for OutboxFault {
    ghost use Rattle.std.specs.Prelude.{◌≡◌};
    ghost use Rattle.change_outbox.specs.declared.fault.OutboxFault.TheVariants.{OutOfMemory};

    ghost from_gives = { λ _ fault. fault ≡ OutOfMemory };

    fn from(_: AllocFailed<T>) -> OutboxFault {
        OutboxFault::OutOfMemory
    }
}
