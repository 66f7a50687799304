//! What a slug sets of preferences: names and values.
ghost use Rattle.std.specs.Prelude.{◌↔◌, IfOk, IsTrue, map};
ghost use Rattle.plain_text.specs.Names.{is_name};
ghost use Rattle.enrol_states.specs.Order.{Rise};
ghost use Rattle.std.specs.List.{AllByRecursion};
ghost use Rattle.pref_bindings.specs.Changes.{AreSettings, IsSetting};
ghost use Rattle.pref_bindings.specs.Preferences.{IsValue};

use json_tree::{Tree, read};
use plain_text::is_name;
use pref_bindings::is_value;
use row_tables::{Fault, cut};
use sequences::Text;
use std::alloc::Global;

pub(crate) fn name(alloc: Global, text: &str) -> Result<Text, Fault>
    ensures { IfOk result (λ name. IsTrue (is_name name)) }
{
    if !is_name(text.as_bytes()) {
        return Err(Fault::NoRow);
    }
    Ok(Text::new(alloc, text)?)
}

pub(crate) fn value(alloc: Global, text: &str) -> Result<Tree, Fault>
    ensures { IfOk result IsValue }
{
    match read(alloc, text.as_bytes()) {
        Ok(value) if is_value(&value) => Ok(value),
        _ => Err(Fault::NoRow),
    }
}

/// What a slug sets: a name and its value, and ` and ` between two. The names rise.
pub(crate) fn settings(alloc: Global, text: &str) -> Result<Vec<(Text, Tree)>, Fault>
    ensures { IfOk result (λ settings. AreSettings settings.items) }
{
    let settings = settings_of(alloc, text)?;
    if rises(&settings) {
        Ok(settings)
    } else {
        Err(Fault::NoRow)
    }
}

fn settings_of(alloc: Global, text: &str) -> Result<Vec<(Text, Tree)>, Fault>
    ensures { IfOk result (λ settings. AllByRecursion IsSetting settings.items) }
{
    let mut settings = Vec::new(alloc);
    if !text.is_empty() {
        for setting in text.split(" and ") {
            settings.push(setting_of(alloc, setting)?)?;
        }
    }
    Ok(settings)
}

fn setting_of(alloc: Global, text: &str) -> Result<(Text, Tree), Fault>
    ensures { IfOk result IsSetting }
{
    let (first, second) = cut(text);
    let name = name(alloc, first)?;
    Ok((name, value(alloc, second)?))
}

// Whether the names rise.
fn rises(settings: &[(Text, Tree)]) -> bool
    ensures { IsTrue result ↔ Rise (map (λ v. v.0) settings.now) }
{
    settings.is_sorted_by(|first, second| first.0 < second.0)
}
