// Why rows give no preferences, and a tree no bindings.
use sequences::Text;
use std::alloc::AllocError;

/// Why rows gave no preferences.
#[derive(Clone, Copy, Debug, PartialEq, Eq)]
pub enum PrefsFault {
    /// No sound preferences have these rows.
    NotPrefs,
    OutOfMemory,
}

impl From<AllocError> for PrefsFault {
    ghost use Rattle.std.specs.Prelude.{◌≡◌};
    ghost use Rattle.pref_bindings.specs.declared.fault.PrefsFault.TheVariants.{OutOfMemory};

    ghost from_gives = { λ _ fault. fault ≡ OutOfMemory };

    fn from(_: AllocError) -> PrefsFault {
        PrefsFault::OutOfMemory
    }
}

/// Why a tree gave no bindings.
#[derive(Drop)]
pub enum BindingFault {
    /// The first feature at fault, in key order. The empty text where the tree is no object.
    BadBinding(Text),
    OutOfMemory,
}

impl From<AllocError> for BindingFault {
    ghost use Rattle.std.specs.Prelude.{◌≡◌};
    ghost use Rattle.pref_bindings.specs.declared.fault.BindingFault.TheVariants.{OutOfMemory};

    ghost from_gives = { λ _ fault. fault ≡ OutOfMemory };

    fn from(_: AllocError) -> BindingFault {
        BindingFault::OutOfMemory
    }
}
