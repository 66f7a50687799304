// The preferences that somebody holds.
ghost use Rattle.std.specs.Prelude.{◌≡◌, IfOk};
ghost use Rattle.pref_bindings.specs.Held.{held_preferences};

use crate::preference::Preference;
use sequences::Sequence;
use std::alloc::{AllocError, Global};

/// Those of the preferences that somebody holds.
pub(crate) fn held_preferences(
    alloc: Global,
    preferences: &[Preference],
) -> Result<Sequence<Preference>, AllocError>
    ensures { IfOk result (λ held. held ≡ held_preferences preferences.now) }
{
    let mut held = Sequence::new(alloc);
    for preference in preferences {
        if preference.hold.is_some() {
            held.push(preference.clone()?)?;
        }
    }
    Ok(held)
}
