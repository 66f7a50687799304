// What the user sets, and takes away.
ghost use Rattle.std.specs.Prelude.{◌≡◌, IfOk, None};
ghost use Rattle.enrol_states.specs.Order.{Rise};
ghost use Rattle.pref_bindings.specs.Changes.{with_preference, without_name};
ghost use Rattle.pref_bindings.specs.Preferences.{names_of};
ghost use Rattle.sequences.specs.ListParts.{IsPart};

use crate::preference::Preference;
use json_tree::Tree;
use sequences::{NextList, SharedList, Text};
use std::alloc::AllocError;

/// A preference that its user set.
pub(crate) fn users_preference(name: &Text, value: &Tree) -> Result<Preference, AllocError>
    ensures { IfOk result (λ p. p ≡ record { name = name.now; value = value.now; hold = None }) }
{
    Ok(Preference {
        name: name.clone()?,
        value: value.clone()?,
        hold: None,
    })
}

/// The preferences with this one, in the place of the one of its name, and the part in which they may differ from these.
pub(crate) fn with_preference(
    preferences: &mut SharedList<Preference>,
    preference: Preference,
) -> Result<NextList<Preference>, AllocError>
    requires { Rise (names_of preferences.old) }
    ensures same { preferences.new ≡ preferences.old }
    ensures preferences { IfOk result (λ next. next.list ≡ with_preference preference preferences.old) }
    ensures part { IfOk result (λ next. IsPart next.part preferences.old next.list) }
{
    match preferences
        .as_slice()
        .binary_search_by(|other| other.name.cmp(&preference.name))
    {
        Ok(place) => preferences.replaced(place, preference),
        Err(place) => preferences.inserted(place, preference),
    }
}

/// The preferences without the one of a name, and the part in which they may differ from these.
pub(crate) fn without_name(
    preferences: &mut SharedList<Preference>,
    name: &Text,
) -> Result<NextList<Preference>, AllocError>
    requires { Rise (names_of preferences.old) }
    ensures same { preferences.new ≡ preferences.old }
    ensures preferences { IfOk result (λ next. next.list ≡ without_name name.now preferences.old) }
    ensures part { IfOk result (λ next. IsPart next.part preferences.old next.list) }
{
    match preferences
        .as_slice()
        .binary_search_by(|other| other.name.cmp(name))
    {
        Ok(place) => preferences.removed(place),
        Err(_) => NextList::same(preferences),
    }
}
