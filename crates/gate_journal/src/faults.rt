// Why a call of a journal did not do what it was asked.
use host_model::DiskFailed;
use std::alloc::AllocError;

/// Why nothing was appended.
#[derive(Clone, Copy, Debug, PartialEq, Eq)]
pub enum AppendFault {
    /// The record would end, with its next gate, past byte 67,108,864. Nothing was written.
    SideFull,
    /// The disk has failed. The journal is dropped, and the side opened again.
    DiskFault,
}

impl From<DiskFailed> for AppendFault {
    ghost use Rattle.std.specs.Prelude.{◌≡◌};
    ghost use Rattle.gate_journal.specs.declared.faults.AppendFault.TheVariants.{DiskFault};

    ghost from_gives = { λ _ e. e ≡ DiskFault };

    fn from(_: DiskFailed) -> Self {
        AppendFault::DiskFault
    }
}

/// Why a side was not opened.
#[derive(Clone, Copy, Debug, PartialEq, Eq)]
pub enum OpenFault {
    /// The side has no byte, or its first byte isn't 1.
    Closed,
    /// The side's first byte is 1, and what follows isn't a header of a known generation and whole records.
    NotAJournal,
    /// The disk has failed.
    DiskFault,
    OutOfMemory,
}

impl From<DiskFailed> for OpenFault {
    ghost use Rattle.std.specs.Prelude.{◌≡◌};
    ghost use Rattle.gate_journal.specs.declared.faults.OpenFault.TheVariants.{DiskFault};

    ghost from_gives = { λ _ e. e ≡ DiskFault };

    fn from(_: DiskFailed) -> Self {
        OpenFault::DiskFault
    }
}

impl From<AllocError> for OpenFault {
    ghost use Rattle.std.specs.Prelude.{◌≡◌};
    ghost use Rattle.gate_journal.specs.declared.faults.OpenFault.TheVariants.{OutOfMemory};

    ghost from_gives = { λ _ e. e ≡ OutOfMemory };

    fn from(_: AllocError) -> Self {
        OpenFault::OutOfMemory
    }
}
