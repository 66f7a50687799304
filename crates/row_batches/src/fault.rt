// Why bytes were not read as a batch.
use std::alloc::{AllocError, AllocFailed};

/// Why bytes were not read as a batch.
#[derive(Clone, Copy, Debug, PartialEq, Eq)]
pub enum BatchFault {
    /// No batch has these bytes.
    NotABatch,
    OutOfMemory,
}

impl From<AllocError> for BatchFault {
    ghost use Rattle.std.specs.Prelude.{◌≡◌};
    ghost use Rattle.row_batches.specs.declared.fault.BatchFault.TheVariants.{OutOfMemory};

    ghost from_gives = { λ _ e. e ≡ OutOfMemory };

    fn from(_: AllocError) -> Self {
        BatchFault::OutOfMemory
    }
}
