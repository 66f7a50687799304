// Why tokens have no tree.
ghost use Rattle.std.specs.Prelude.{◌≡◌};
ghost use Rattle.jexl_parser.specs.declared.fault.ParseFault.TheVariants.{OutOfMemory};

use std::alloc::{AllocError, AllocFailed};
use thiserror::Error;

/// Why tokens have no tree, in the order in which it is asked.
#[derive(Debug, Drop, Error)]
pub enum ParseFault {
    /// More than `MAX_DEPTH` brackets are open after some token, more than `MAX_DEPTH` `!` stand
    /// one after another, or there are more than `MAX_DEPTH` `?`.
    #[error("TooDeep")]
    TooDeep,
    /// The grammar has no tree for the tokens.
    #[error("Unexpected")]
    Unexpected,
    /// The tree has more than `MAX_HEIGHT` nodes on a path.
    #[error("TooTall")]
    TooTall,
    /// Memory is wanting.
    #[error("OutOfMemory")]
    OutOfMemory,
}

impl From<AllocError> for ParseFault {
    ghost from_gives = { λ _ e. e ≡ OutOfMemory };

    fn from(_e: AllocError) -> ParseFault {
        ParseFault::OutOfMemory
    }
}

impl<T: Drop> From<AllocFailed<T>> for ParseFault {
    ghost from_gives = { λ _ e. e ≡ OutOfMemory };

    fn from(_e: AllocFailed<T>) -> ParseFault {
        ParseFault::OutOfMemory
    }
}
