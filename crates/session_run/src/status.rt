// How a call ended.
ghost use Rattle.std.specs.Prelude.{◌≡◌};

use crate::faults::RunFault;
use crate::script::ScriptFault;
use client_core::PairFault;
use client_store::MakeFault;
use std::alloc::AllocError;
use std::fmt;

/// How a call ended.
#[derive(Clone, Copy, Debug, PartialEq, Eq)]
pub enum RunStatus {
    /// All was done and said.
    Done,
    /// The words have no form.
    Usage,
    /// The source gave more than 1,048,576 bytes. The store was not touched.
    ScriptTooLong,
    /// There is no store: neither side's first byte is 1.
    NoStore,
    /// There is a store already.
    AlreadyStore,
    /// A side's first byte is 1, and the pair stands for no state.
    BadStore,
    /// The source failed.
    SourceFault,
    /// The shelf failed.
    ShelfFault,
    /// The disk failed.
    DiskFault,
    /// The output failed.
    SayFault,
    /// Want of memory.
    OutOfMemory,
}

impl RunStatus {
    ghost use Rattle.session_run.specs.Statuses.{code_of};

    /// The exit number. No status has 1 or 7.
    pub fn code(&self) -> u8
        ensures { result ≡ code_of self.now }
    {
        match self {
            RunStatus::Done => 0,
            RunStatus::Usage => 2,
            RunStatus::ScriptTooLong => 3,
            RunStatus::NoStore => 4,
            RunStatus::AlreadyStore => 5,
            RunStatus::BadStore => 6,
            RunStatus::SourceFault => 8,
            RunStatus::ShelfFault => 9,
            RunStatus::DiskFault => 10,
            RunStatus::SayFault => 11,
            RunStatus::OutOfMemory => 12,
        }
    }
}

/// The name of the status.
impl fmt::Display for RunStatus {
    fn fmt<W: fmt::Write>(&self, f: &mut fmt::Formatter<W>) -> fmt::Result {
        f.write_str(match self {
            RunStatus::Done => "Done",
            RunStatus::Usage => "Usage",
            RunStatus::ScriptTooLong => "ScriptTooLong",
            RunStatus::NoStore => "NoStore",
            RunStatus::AlreadyStore => "AlreadyStore",
            RunStatus::BadStore => "BadStore",
            RunStatus::SourceFault => "SourceFault",
            RunStatus::ShelfFault => "ShelfFault",
            RunStatus::DiskFault => "DiskFault",
            RunStatus::SayFault => "SayFault",
            RunStatus::OutOfMemory => "OutOfMemory",
        })
    }
}

impl From<ScriptFault> for RunStatus {
    ghost use Rattle.std.specs.Prelude.{◌≡◌};
    ghost use Rattle.session_run.specs.Statuses.{of_script};

    ghost from_gives = { λ fault status. status ≡ of_script fault };

    fn from(fault: ScriptFault) -> Self {
        match fault {
            ScriptFault::TooLong => RunStatus::ScriptTooLong,
            ScriptFault::SourceFault => RunStatus::SourceFault,
            ScriptFault::OutOfMemory => RunStatus::OutOfMemory,
        }
    }
}

impl From<PairFault> for RunStatus {
    ghost use Rattle.std.specs.Prelude.{◌≡◌};
    ghost use Rattle.session_run.specs.Statuses.{of_store};

    ghost from_gives = { λ fault status. status ≡ of_store fault };

    fn from(fault: PairFault) -> Self {
        match fault {
            PairFault::NoStore => RunStatus::NoStore,
            PairFault::BadStore => RunStatus::BadStore,
            PairFault::DiskFault => RunStatus::DiskFault,
            PairFault::OutOfMemory => RunStatus::OutOfMemory,
        }
    }
}

impl From<MakeFault> for RunStatus {
    ghost use Rattle.std.specs.Prelude.{◌≡◌};
    ghost use Rattle.session_run.specs.Statuses.{of_making};

    ghost from_gives = { λ fault status. status ≡ of_making fault };

    fn from(fault: MakeFault) -> Self {
        match fault {
            MakeFault::AlreadyStore => RunStatus::AlreadyStore,
            MakeFault::BadStore => RunStatus::BadStore,
            MakeFault::DiskFault => RunStatus::DiskFault,
            MakeFault::OutOfMemory => RunStatus::OutOfMemory,
        }
    }
}

impl From<RunFault> for RunStatus {
    ghost use Rattle.std.specs.Prelude.{◌≡◌};
    ghost use Rattle.session_run.specs.Statuses.{of_run};

    ghost from_gives = { λ fault status. status ≡ of_run fault };

    fn from(fault: RunFault) -> Self {
        match fault {
            RunFault::ShelfFault => RunStatus::ShelfFault,
            RunFault::DiskFault => RunStatus::DiskFault,
            RunFault::SayFault => RunStatus::SayFault,
            RunFault::OutOfMemory => RunStatus::OutOfMemory,
        }
    }
}

impl From<AllocError> for RunStatus {
    ghost use Rattle.std.specs.Prelude.{◌≡◌};
    ghost use Rattle.session_run.specs.declared.status.RunStatus.TheVariants.{OutOfMemory};

    ghost from_gives = { λ _ status. status ≡ OutOfMemory };

    fn from(_: AllocError) -> Self {
        RunStatus::OutOfMemory
    }
}
