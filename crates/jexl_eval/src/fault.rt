// Why an expression has no value.
ghost use Rattle.std.specs.Prelude.{◌≡◌};
ghost use Rattle.jexl_eval.specs.declared.fault.EvalFault.TheVariants.{OutOfMemory};

use std::alloc::{AllocError, AllocFailed};

/// Why an expression has no value.
#[derive(Debug, Drop, Clone, Copy, PartialEq, Eq)]
pub enum EvalFault {
    /// The result of an operation is no whole number of 64 bits.
    Overflow,
    /// The right side of `//` or `%` is 0.
    ZeroDivisor,
    /// An operation isn't for values of these kinds, a filter isn't for this one, or an exponent is
    /// below 0.
    Kind,
    /// The table has no transform of the name.
    UnknownTransform,
    /// A transform refuses its subject or its arguments.
    BadArguments,
    /// Memory is wanting.
    OutOfMemory,
}

impl From<AllocError> for EvalFault {
    ghost from_gives = { λ _ e. e ≡ OutOfMemory };

    fn from(_e: AllocError) -> EvalFault {
        EvalFault::OutOfMemory
    }
}

impl<T: Drop> From<AllocFailed<T>> for EvalFault {
    ghost from_gives = { λ _ e. e ≡ OutOfMemory };

    fn from(_e: AllocFailed<T>) -> EvalFault {
        EvalFault::OutOfMemory
    }
}
