// Why nothing is found of a row.
use std::alloc::{AllocError, AllocFailed};

/// Why nothing is found of a row. It owns nothing.
#[derive(Clone, Copy)]
pub enum Fault {
    /// The text is no row of this kind.
    NoRow,
    OutOfMemory,
}

impl From<AllocError> for Fault {
    fn from(_fault: AllocError) -> Fault {
        Fault::OutOfMemory
    }
}

impl<T: Drop> From<AllocFailed<T>> for Fault {
    fn from(_fault: AllocFailed<T>) -> Fault {
        Fault::OutOfMemory
    }
}
