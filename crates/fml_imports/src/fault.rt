// Why files aren't joined.
ghost use Rattle.std.specs.Prelude.{◌≡◌};
ghost use Rattle.fml_imports.specs.declared.fault.JoinFault.TheVariants.{OutOfMemory};

use sequences::Text;
use std::alloc::{AllocError, AllocFailed};

/// Why files are joined into no manifest for a channel.
#[derive(Drop)]
pub enum JoinRefusal {
    /// The first name that is met twice among enums and objects, or twice among features.
    DuplicateName(Text),
    /// The first name in a type that is neither an enum's nor an object's, or that is a map's key
    /// and no enum's.
    UnknownType(Text),
    /// The least name of an object whose height is above 32.
    EndlessObject(Text),
    /// The least name of an object whose weight is above 16,384.
    ObjectTooLarge(Text),
    /// The root doesn't have the channel.
    UnknownChannel,
    /// The path of the first import whose channel the imported file doesn't have.
    UnknownImport(Text),
    /// The first name under which entries are laid over a feature, and that no feature has.
    UnknownOverride(Text),
}

/// Why `join` gives no manifest.
#[derive(Drop)]
pub enum JoinFault {
    /// The files are none for the channel.
    Refused(JoinRefusal),
    OutOfMemory,
}

impl From<AllocError> for JoinFault {
    ghost from_gives = { λ _ e. e ≡ OutOfMemory };

    fn from(_e: AllocError) -> JoinFault {
        JoinFault::OutOfMemory
    }
}

impl<T: Drop> From<AllocFailed<T>> for JoinFault {
    ghost from_gives = { λ _ e. e ≡ OutOfMemory };

    fn from(_e: AllocFailed<T>) -> JoinFault {
        JoinFault::OutOfMemory
    }
}
