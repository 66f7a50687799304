// Why no manifest is linked.
ghost use Rattle.std.specs.Prelude.{◌≡◌};
ghost use Rattle.fml_link.specs.declared.fault.LinkFault.TheVariants.{OutOfMemory};

use fml_imports::JoinRefusal;
use sequences::Text;
use std::alloc::{AllocError, AllocFailed};

/// Why files are no manifest for a channel. A file is named as the root, an include or an import
/// names it.
#[derive(Drop)]
pub enum LinkRefusal {
    /// There is no file of that name.
    AbsentFile(Text),
    /// The file of that name has so many bytes, more than 4,194,304.
    FileTooLarge(Text, u64),
    /// The file of that name is no JSON, or nests beyond 64.
    NotJson(Text),
    /// In the file of that name, the first place that doesn't have its shape: the keys and the
    /// indexes from the root of its tree, each after a `/`.
    BadShape(Text, Text),
    /// The files have more than 64 names.
    TooManyFiles,
    /// The first name that a file includes or imports for another channel than the one that the
    /// file of that name is read for.
    ImportClash(Text),
    /// The files are read, and are joined into no manifest for the channel.
    NotJoined(JoinRefusal),
}

/// Why `link` gives no manifest.
#[derive(Drop)]
pub enum LinkFault {
    /// The files are none for the channel.
    Refused(LinkRefusal),
    /// The shelf has failed.
    ShelfFault,
    OutOfMemory,
}

impl From<AllocError> for LinkFault {
    ghost from_gives = { λ _ e. e ≡ OutOfMemory };

    fn from(_e: AllocError) -> LinkFault {
        LinkFault::OutOfMemory
    }
}

impl<T: Drop> From<AllocFailed<T>> for LinkFault {
    ghost from_gives = { λ _ e. e ≡ OutOfMemory };

    fn from(_e: AllocFailed<T>) -> LinkFault {
        LinkFault::OutOfMemory
    }
}
