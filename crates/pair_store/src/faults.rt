// Why a pair was not opened.
use host_model::DiskFailed;

/// Why a pair was not opened.
#[derive(Clone, Copy, Debug, PartialEq, Eq)]
pub enum PairFault {
    /// Neither side's first byte is 1.
    NoStore,
    /// A side's first byte is 1, and what is opened isn't there: a list of payloads, or what a crate above keeps in one.
    BadStore,
    /// The disk has failed.
    DiskFault,
    OutOfMemory,
}

impl From<DiskFailed> for PairFault {
    ghost use Rattle.std.specs.Prelude.{◌≡◌};
    ghost use Rattle.pair_store.specs.declared.faults.PairFault.TheVariants.{DiskFault};

    ghost from_gives = { λ _ e. e ≡ DiskFault };

    fn from(_: DiskFailed) -> Self {
        PairFault::DiskFault
    }
}
