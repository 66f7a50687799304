// Preferences that follow others.
ghost use Rattle.std.specs.Prelude.{◌≡◌};
ghost use Rattle.pref_bindings.specs.Preferences.{IsSound};
ghost use Rattle.sequences.specs.ListParts.{IsPart};

use crate::prefs::Prefs;
use sequences::ListPart;

/// The next preferences, and the part of the list in which they may differ from those of before.
#[derive(Drop)]
pub struct NextPreferences {
    pub preferences: Prefs,
    pub part: ListPart,
}

impl NextPreferences {
    /// Next preferences that may differ in the whole list. It takes no memory.
    pub fn whole(before: &Prefs, preferences: Prefs) -> NextPreferences
        ensures preferences { result.preferences ≡ preferences }
        ensures sound { IsSound result.preferences }
        ensures part { IsPart result.part before.now result.preferences }
    {
        let part = ListPart::whole(before.as_slice().len(), preferences.as_slice().len());
        NextPreferences { preferences, part }
    }
}
