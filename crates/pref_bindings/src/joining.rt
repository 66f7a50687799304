// What a slug sets, joined with the preferences.
ghost use Rattle.std.specs.Prelude.{◌≡◌, ◌++◌, ◌∷◌, [], map, IfOk, IfSome, IsNone, OnOk, Some, option_map};
ghost use Rattle.std.specs.declared.cmp.Ordering.TheVariants.{Equal};
ghost use Rattle.enrol_states.specs.Order.{AreAbove};
ghost use Rattle.enrol_states.specs.Statuses.{IsSlug};
ghost use Rattle.recipe_reader.specs.Payloads.{slug_cmp};
ghost use Rattle.pref_bindings.specs.Changes.{AreSettings, held_by, joined, joined_at};
ghost use Rattle.pref_bindings.specs.Joining.{AreInOrder, IsStep, joined_of};
ghost use Rattle.pref_bindings.specs.Preferences.{IsSound, names_of};

use crate::preference::{Hold, Preference};
use json_tree::Tree;
use plain_text::Slug;
use sequences::{Sequence, Text};
use std::alloc::{AllocError, Global};
use std::cmp::Ordering;

/// The preference and the setting of one name, where they are there, and those that are left.
#[derive(Clone, Copy, Drop)]
pub(crate) struct Step<'a> {
    pub preference: Option<&'a Preference>,
    pub setting: Option<&'a (Text, Tree)>,
    pub preferences: &'a [Preference],
    pub settings: &'a [(Text, Tree)],
}

/// The preferences where a slug sets each of these.
pub(crate) fn joined(
    alloc: Global,
    slug: &Slug,
    preferences: &[Preference],
    settings: &[(Text, Tree)],
) -> Result<Sequence<Preference>, AllocError>
    requires sound { IsSound preferences.now }
    requires settings { AreSettings settings.now }
    ensures joined { IfOk result (λ ps. ps ≡ joined slug.now settings.now preferences.now) }
    ensures sound { IfOk result IsSound }
{
    slug.text();
    let mut joined = Sequence::new(alloc);
    let mut olds = preferences;
    let mut sets = settings;
    while let Some(step) = next_step(slug, olds, sets) {
        add_joined(&mut joined, slug, step.preference, step.setting)?;
        olds = step.preferences;
        sets = step.settings;
    }
    Ok(joined)
}

// The step of the least name, where one is left.
fn next_step<'a>(
    slug: &Slug,
    preferences: &'a [Preference],
    settings: &'a [(Text, Tree)],
) -> Option<Step<'a>>
    requires { AreInOrder preferences.now settings.now }
    ensures step { IfSome result (IsStep slug.now preferences.now settings.now) }
    ensures end { IsNone result → joined slug.now settings.now preferences.now ≡ [] }
{
    match (preferences, settings) {
        ([], []) => None,
        ([old, olds @ ..], []) => Some(step_of_preference(slug, old, olds, settings)),
        ([], [set, sets @ ..]) => Some(step_of_setting(slug, set, preferences, sets)),
        ([old, olds @ ..], [set, sets @ ..]) => match old.name.cmp(&set.0) {
            Ordering::Less => Some(step_of_preference(slug, old, olds, settings)),
            Ordering::Equal => Some(step_of_both(slug, old, set, olds, sets)),
            Ordering::Greater => Some(step_of_setting(slug, set, preferences, sets)),
        },
    }
}

// The step of a preference whose name is below those of all settings.
fn step_of_preference<'a>(
    slug: &Slug,
    old: &'a Preference,
    olds: &'a [Preference],
    settings: &'a [(Text, Tree)],
) -> Step<'a>
    requires order { AreInOrder (old.now ∷ olds.now) settings.now }
    requires least { AreAbove old.now.name (map (λ v. v.0) settings.now) }
    ensures { IsStep slug.now (old.now ∷ olds.now) settings.now result }
{
    Step {
        preference: Some(old),
        setting: None,
        preferences: olds,
        settings,
    }
}

// The step of a setting whose name is below those of all preferences.
fn step_of_setting<'a>(
    slug: &Slug,
    set: &'a (Text, Tree),
    preferences: &'a [Preference],
    sets: &'a [(Text, Tree)],
) -> Step<'a>
    requires order { AreInOrder preferences.now (set.now ∷ sets.now) }
    requires least { AreAbove set.now.0 (names_of preferences.now) }
    ensures { IsStep slug.now preferences.now (set.now ∷ sets.now) result }
{
    Step {
        preference: None,
        setting: Some(set),
        preferences,
        settings: sets,
    }
}

// The step of a preference and a setting of one name.
fn step_of_both<'a>(
    slug: &Slug,
    old: &'a Preference,
    set: &'a (Text, Tree),
    olds: &'a [Preference],
    sets: &'a [(Text, Tree)],
) -> Step<'a>
    requires order { AreInOrder (old.now ∷ olds.now) (set.now ∷ sets.now) }
    requires same { slug_cmp old.now.name set.now.0 ≡ Equal }
    ensures { IsStep slug.now (old.now ∷ olds.now) (set.now ∷ sets.now) result }
{
    Step {
        preference: Some(old),
        setting: Some(set),
        preferences: olds,
        settings: sets,
    }
}

// Adds what the slug makes of the preference and the setting of one name.
fn add_joined(
    joined: &mut Sequence<Preference>,
    slug: &Slug,
    preference: Option<&Preference>,
    setting: Option<&(Text, Tree)>,
) -> Result<(), AllocError>
    ensures { OnOk result (joined.new ≡ joined.old ++ joined_of slug.now (option_map (λ p. p.now) preference.entry) (option_map (λ v. v.now) setting.entry)) }
{
    match (preference, setting) {
        (None, None) => Ok(()),
        (Some(preference), None) => joined.push(preference.clone()?),
        (None, Some(setting)) => joined.push(held_by(slug, setting, None)?),
        (Some(preference), Some(setting)) => joined.push(joined_at(slug, setting, preference)?),
    }
}

// What the slug makes of a preference: one that is held stays.
fn joined_at(
    slug: &Slug,
    setting: &(Text, Tree),
    preference: &Preference,
) -> Result<Preference, AllocError>
    ensures { IfOk result (λ p. p ≡ joined_at slug.now setting.now preference.now) }
{
    match preference.hold {
        Some(_) => preference.clone(),
        None => held_by(slug, setting, Some(preference.value.clone()?)),
    }
}

// The preference that the slug sets and holds.
fn held_by(
    slug: &Slug,
    setting: &(Text, Tree),
    before: Option<Tree>,
) -> Result<Preference, AllocError>
    ensures { IfOk result (λ p. p ≡ held_by slug.now setting.now before) }
{
    Ok(Preference {
        name: setting.0.clone()?,
        value: setting.1.clone()?,
        hold: Some(Hold {
            holder: slug.clone()?,
            before,
        }),
    })
}
