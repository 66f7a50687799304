// Why no store was made.
use host_model::DiskFailed;
use std::alloc::AllocError;

/// Why no store was made.
#[derive(Clone, Copy, Debug, PartialEq, Eq)]
pub enum RowMakeFault {
    /// The disk has failed.
    DiskFault,
    /// Nothing was written.
    OutOfMemory,
}

impl From<DiskFailed> for RowMakeFault {
    ghost use Rattle.std.specs.Prelude.{◌≡◌};
    ghost use Rattle.row_store.specs.declared.faults.RowMakeFault.TheVariants.{DiskFault};

    ghost from_gives = { λ _ e. e ≡ DiskFault };

    fn from(_: DiskFailed) -> Self {
        RowMakeFault::DiskFault
    }
}

impl From<AllocError> for RowMakeFault {
    ghost use Rattle.std.specs.Prelude.{◌≡◌};
    ghost use Rattle.row_store.specs.declared.faults.RowMakeFault.TheVariants.{OutOfMemory};

    ghost from_gives = { λ _ e. e ≡ OutOfMemory };

    fn from(_: AllocError) -> Self {
        RowMakeFault::OutOfMemory
    }
}
