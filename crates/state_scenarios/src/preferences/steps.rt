//! Rows on what steps make of preferences. Steps are `set NAME VALUE`, `clear NAME`, `join SLUG` and what it sets, and
//! `leave SLUG`; a comma stands between two.
ghost use Rattle.std.specs.Prelude.{⊤, MatchOption};
ghost use Rattle.pref_bindings.specs.Preferences.{IsValue};

use super::settings::{name, settings, value};
use crate::inputs::{add_tree, slug};
use json_tree::Tree;
use plain_text::Slug;
use pref_bindings::{Hold, Preference, Prefs};
use row_tables::{Fault, Found, cut, parts};
use sequences::Text;
use std::alloc::Global;

/// The preferences after steps, each with its value, and where it is held with the holder and the value of before; `none` where
/// there are none. Row: the steps.
pub(crate) fn find_preferences(
    alloc: Global,
    prefs: &mut Prefs,
    steps: &str,
    found: &mut Found,
) -> Result<(), Fault> {
    do_all(alloc, prefs, steps)?;
    Ok(add_preferences(alloc, prefs.as_slice(), found))
}

fn add_preferences(alloc: Global, preferences: &[Preference], found: &mut Found) {
    for preference in preferences {
        found.between(", ");
        add_preference(alloc, preference, found);
    }
    found.none();
}

fn add_preference(alloc: Global, preference: &Preference, found: &mut Found) {
    found.texts(&[preference.name.as_str(), " "]);
    add_tree(alloc, &preference.value, found);
    if let Some(hold) = &preference.hold {
        add_hold(alloc, hold, found);
    }
}

fn add_hold(alloc: Global, hold: &Hold, found: &mut Found) {
    found.texts(&[" ", hold.holder.text(), " over "]);
    match &hold.before {
        Some(before) => add_tree(alloc, before, found),
        None => found.text("none"),
    }
}

/// What is known of a name after steps: its value and who holds it. Row: the steps, then ` | ` and the name.
pub(crate) fn find_known(
    alloc: Global,
    prefs: &mut Prefs,
    input: &str,
    found: &mut Found,
) -> Result<(), Fault> {
    let (steps, name) = parts(input)?;
    do_all(alloc, prefs, steps)?;
    Ok(add_known(alloc, prefs, name, found))
}

fn add_known(alloc: Global, prefs: &Prefs, name: &str, found: &mut Found) {
    match prefs.get(name) {
        Some(value) => add_tree(alloc, value, found),
        None => found.text("no value"),
    }
    let holder = match prefs.holder(name) {
        Some(slug) => slug.text(),
        None => "nobody",
    };
    found.texts(&[", ", holder]);
}

/// Does steps one after the other.
pub(crate) fn do_all(alloc: Global, prefs: &mut Prefs, steps: &str) -> Result<(), Fault> {
    for step in steps.split(", ") {
        if !step.is_empty() {
            do_step(alloc, prefs, step)?;
        }
    }
    Ok(())
}

fn do_step(alloc: Global, prefs: &mut Prefs, step: &str) -> Result<(), Fault> {
    *prefs = after_step(alloc, prefs, step)?;
    Ok(())
}

fn after_step(alloc: Global, prefs: &mut Prefs, step: &str) -> Result<Prefs, Fault> {
    let (kind, rest) = cut(step);
    let (first, second) = cut(rest);
    match kind {
        "set" => after_set(alloc, prefs, first, second),
        "clear" => after_clear(alloc, prefs, first),
        "join" => after_join(alloc, prefs, first, second),
        "leave" => after_leave(alloc, prefs, first),
        _ => Err(Fault::NoRow),
    }
}

fn after_set(alloc: Global, prefs: &mut Prefs, text: &str, spelled: &str) -> Result<Prefs, Fault> {
    let value = value(alloc, spelled)?;
    with_value(alloc, prefs, text, Some(&value))
}

fn after_clear(alloc: Global, prefs: &mut Prefs, text: &str) -> Result<Prefs, Fault> {
    with_value(alloc, prefs, text, None)
}

// The preferences where the user has given a preference this value, or none.
fn with_value(
    alloc: Global,
    prefs: &mut Prefs,
    text: &str,
    value: Option<&Tree>,
) -> Result<Prefs, Fault>
    requires { MatchOption value ⊤ (λ v. IsValue v.now) }
{
    let name = name(alloc, text)?;
    if prefs.holder(name.as_str()).is_some() {
        return Err(Fault::NoRow);
    }
    Ok(prefs.user_set(&name, value)?.preferences)
}

fn after_join(alloc: Global, prefs: &Prefs, text: &str, spelled: &str) -> Result<Prefs, Fault> {
    let slug = slug(alloc, text)?;
    with_settings(alloc, prefs, &slug, spelled)
}

fn with_settings(alloc: Global, prefs: &Prefs, slug: &Slug, spelled: &str) -> Result<Prefs, Fault> {
    let settings: Vec<(Text, Tree)> = settings(alloc, spelled)?;
    next_or(prefs, prefs.join(alloc, slug, &settings)?)
}

fn after_leave(alloc: Global, prefs: &Prefs, text: &str) -> Result<Prefs, Fault> {
    let slug = slug(alloc, text)?;
    next_or(prefs, prefs.leave(alloc, &slug)?)
}

// The next preferences, or those of before.
fn next_or(before: &Prefs, next: Option<Prefs>) -> Result<Prefs, Fault> {
    match next {
        Some(next) => Ok(next),
        None => Ok(before.clone()?),
    }
}
