// Why a tree is no module, and where.
ghost use Rattle.std.specs.Prelude.{◌≡◌, ◌∷◌, ◌++◌, [], IfOk};
ghost use Rattle.fml_reader.specs.Outcome.{IsUnder};
ghost use Rattle.fml_reader.specs.declared.fault.ModuleFault.{ModuleFault as Fault};
ghost use Rattle.fml_reader.specs.declared.fault.ModuleFault.TheVariants.{OutOfMemory};
ghost use Rattle.fml_reader.specs.declared.fault.ModuleRefusal.{ModuleRefusal as Refusal};

use sequences::Text;
use std::alloc::{AllocError, AllocFailed, Global};

/// Why a tree is no module that is read.
#[derive(Drop)]
pub enum ModuleRefusal {
    /// The first place of the walk that doesn't have its shape: the keys and the indexes from the
    /// root to it, each after a `/`. The root has the empty path, a bad key that of its member, and
    /// a missing part the path that it would have.
    BadShape(Text),
}

/// Why `read_module` gives no module.
#[derive(Drop)]
pub enum ModuleFault {
    /// The tree is none that is read.
    Refused(ModuleRefusal),
    OutOfMemory,
}

impl From<AllocError> for ModuleFault {
    ghost from_gives = { λ _ e. e ≡ OutOfMemory };

    fn from(_e: AllocError) -> ModuleFault {
        ModuleFault::OutOfMemory
    }
}

impl<T: Drop> From<AllocFailed<T>> for ModuleFault {
    ghost from_gives = { λ _ e. e ≡ OutOfMemory };

    fn from(_e: AllocFailed<T>) -> ModuleFault {
        ModuleFault::OutOfMemory
    }
}

/// This place doesn't have its shape. It takes no memory.
pub(crate) fn bad(alloc: Global) -> ModuleFault
    ensures { result ≡ Fault.Refused (Refusal.BadShape []) }
{
    let path = Text::from_string(String::new(alloc));
    ModuleFault::Refused(ModuleRefusal::BadShape(path))
}

/// What was read of the value of this key: a fault's path goes through the key.
pub(crate) fn under<T: Drop>(
    alloc: Global,
    key: &str,
    read: Result<T, ModuleFault>,
) -> Result<T, ModuleFault>
    ensures { IsUnder key.now read result }
{
    match read {
        Ok(value) => Ok(value),
        Err(ModuleFault::Refused(ModuleRefusal::BadShape(path))) => {
            let path = longer(alloc, key, path.as_str())?;
            Err(ModuleFault::Refused(ModuleRefusal::BadShape(path)))
        }
        Err(ModuleFault::OutOfMemory) => Err(ModuleFault::OutOfMemory),
    }
}

/// The path with a key before it.
fn longer(alloc: Global, key: &str, path: &str) -> Result<Text, AllocError>
    ensures { IfOk result (λ text. text ≡ 47 ∷ key.now ++ path.now) }
{
    let mut text = String::new(alloc);
    text.push_str("/")?;
    text.push_str(key)?;
    text.push_str(path)?;
    Ok(Text::from_string(text))
}
