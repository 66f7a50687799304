// What is left when a slug leaves.
ghost use Rattle.std.specs.Prelude.{◌≡◌, ◌++◌, IfOk, OnOk};
ghost use Rattle.std.specs.List.{list_any};
ghost use Rattle.pref_bindings.specs.Changes.{holds, left, restored, set_value};
ghost use Rattle.pref_bindings.specs.Preferences.{IsSound};

use crate::preference::{Hold, Preference};
use crate::setting::users_preference;
use plain_text::Slug;
use sequences::{Sequence, Text};
use std::alloc::{AllocError, Global};

/// The preferences where each that the slug holds has its value of before again, or none.
pub(crate) fn left(
    alloc: Global,
    slug: &Slug,
    preferences: &[Preference],
) -> Result<Sequence<Preference>, AllocError>
    requires { IsSound preferences.now }
    ensures left { IfOk result (λ ps. ps ≡ left slug.now preferences.now) }
    ensures sound { IfOk result IsSound }
{
    let mut left = Sequence::new(alloc);
    for preference in preferences {
        add_restored(&mut left, slug, preference)?;
    }
    Ok(left)
}

/// Whether the slug holds one of the preferences. It takes no memory.
pub(crate) fn holds_any(slug: &Slug, preferences: &[Preference]) -> bool
    ensures { result ≡ list_any (λ p. holds slug.now p.hold) preferences.now }
{
    preferences
        .iter()
        .any(|preference| is_held_by(preference, slug))
}

// Whether the slug holds the preference.
fn is_held_by(preference: &Preference, slug: &Slug) -> bool
    ensures { result ≡ holds slug.now preference.now.hold }
{
    match &preference.hold {
        Some(hold) => hold.holder == *slug,
        None => false,
    }
}

// Adds what the leave makes of the preference.
fn add_restored(
    left: &mut Sequence<Preference>,
    slug: &Slug,
    preference: &Preference,
) -> Result<(), AllocError>
    ensures { OnOk result (left.new ≡ left.old ++ restored slug.now preference.now) }
{
    match &preference.hold {
        Some(hold) if hold.holder == *slug => add_before(left, &preference.name, hold),
        _ => left.push(preference.clone()?),
    }
}

// Adds the preference with its value of before, where there was one.
fn add_before(left: &mut Sequence<Preference>, name: &Text, hold: &Hold) -> Result<(), AllocError>
    ensures { OnOk result (left.new ≡ left.old ++ set_value name.now hold.now.before) }
{
    match &hold.before {
        Some(value) => left.push(users_preference(name, value)?),
        None => Ok(()),
    }
}
