// Why no store was made.
use row_store::RowMakeFault;
use std::alloc::AllocError;

/// Why no store was made.
#[derive(Clone, Copy, Debug, PartialEq, Eq)]
pub enum MakeFault {
    /// The pair stands for a state.
    AlreadyStore,
    /// A side's first byte is 1, and the pair stands for no state.
    BadStore,
    /// The disk has failed.
    DiskFault,
    OutOfMemory,
}

impl From<RowMakeFault> for MakeFault {
    ghost use Rattle.std.specs.Prelude.{◌≡◌};
    ghost use Rattle.client_store.specs.Faults.{making_fault};

    ghost from_gives = { λ fault made. made ≡ making_fault fault };

    fn from(fault: RowMakeFault) -> Self {
        match fault {
            RowMakeFault::DiskFault => MakeFault::DiskFault,
            RowMakeFault::OutOfMemory => MakeFault::OutOfMemory,
        }
    }
}

impl From<AllocError> for MakeFault {
    ghost use Rattle.std.specs.Prelude.{◌≡◌};
    ghost use Rattle.client_store.specs.declared.faults.MakeFault.TheVariants.{OutOfMemory};

    ghost from_gives = { λ _ fault. fault ≡ OutOfMemory };

    fn from(_: AllocError) -> Self {
        MakeFault::OutOfMemory
    }
}
