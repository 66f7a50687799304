// Why bytes give no state and no value of one.
ghost use Rattle.std.specs.Prelude.{◌≡◌};
ghost use Rattle.state_values.specs.declared.fault.CodecFault.TheVariants.{OutOfMemory};

use std::alloc::{AllocError, AllocFailed};

/// Why bytes give no state, and no value of one.
#[derive(Clone, Copy, Debug, PartialEq, Eq)]
pub enum CodecFault {
    /// No sound state has these bytes.
    NotAState,
    OutOfMemory,
}

impl From<AllocError> for CodecFault {
    ghost from_gives = { λ _ fault. fault ≡ OutOfMemory };

    fn from(_: AllocError) -> CodecFault {
        CodecFault::OutOfMemory
    }
}

impl<T: Drop> From<AllocFailed<T>> for CodecFault {
    ghost from_gives = { λ _ fault. fault ≡ OutOfMemory };

    fn from(_: AllocFailed<T>) -> CodecFault {
        CodecFault::OutOfMemory
    }
}
