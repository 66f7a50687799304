// Why a text has no tokens.
ghost use Rattle.std.specs.Prelude.{◌≡◌};
ghost use Rattle.jexl_lexer.specs.declared.fault.LexFault.TheVariants.{OutOfMemory};

use std::alloc::{AllocError, AllocFailed};
use thiserror::Error;

/// Why a text has no tokens. A place is the byte, counted from 0, at which the token to blame
/// would begin.
#[derive(Debug, Drop, Error)]
pub enum LexFault {
    /// No token begins with the character at this place.
    #[error("BadChar")]
    BadChar(usize),
    /// The quote at this place is never closed.
    #[error("OpenText")]
    OpenText(usize),
    /// The number at this place is above 9223372036854775807.
    #[error("BigNumber")]
    BigNumber(usize),
    /// A dot and a digit follow the number at this place.
    #[error("Decimal")]
    Decimal(usize),
    /// There are `MAX_TOKENS` tokens before this place, and more after it.
    #[error("TooManyTokens")]
    TooManyTokens(usize),
    /// Memory is wanting.
    #[error("OutOfMemory")]
    OutOfMemory,
}

impl From<AllocError> for LexFault {
    ghost from_gives = { λ _ e. e ≡ OutOfMemory };

    fn from(_e: AllocError) -> LexFault {
        LexFault::OutOfMemory
    }
}

impl<T: Drop> From<AllocFailed<T>> for LexFault {
    ghost from_gives = { λ _ e. e ≡ OutOfMemory };

    fn from(_e: AllocFailed<T>) -> LexFault {
        LexFault::OutOfMemory
    }
}
