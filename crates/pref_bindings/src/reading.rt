// The preferences of rows.
ghost use Rattle.std.specs.Prelude.{◌≡◌, ◌++◌, ◌∷◌, ◌↔◌, ◌≤◌, ℕ, List, Option, length, IfOk, IfSome, IsErrOf, IsNone, IsTrue, Some};
ghost use Rattle.std.specs.List.{AllByRecursion};
ghost use Rattle.json_tree.specs.declared.tree.Tree.{Tree};
ghost use Rattle.json_tree.specs.Bytes.{tree_of};
ghost use Rattle.json_tree.specs.Tree.{json_of};
ghost use Rattle.plain_text.specs.Names.{is_name};
ghost use Rattle.enrol_states.specs.Order.{Rise};
ghost use Rattle.enrol_states.specs.Statuses.{IsSlug};
ghost use Rattle.pref_bindings.specs.declared.preference.Hold.{Hold};
ghost use Rattle.pref_bindings.specs.declared.preference.Preference.{Preference};
ghost use Rattle.pref_bindings.specs.Preferences.{IsHold, IsPreference, IsSound, IsValue, IsValueOrNone, names_of};
ghost use Rattle.pref_bindings.specs.Reading.{AreNone, AreOnly, IsAlone, IsHoldsEnd, is_hold};
ghost use Rattle.pref_bindings.specs.Rows.{before_text, hold_key, hold_row, hold_rows, hold_text, rows_of, value_key, value_row, value_rows, value_text};

use crate::fault::PrefsFault;
use crate::preference::{Hold, Preference, is_value};
use crate::prefs::Prefs;
use crate::row_forms::{HOLD, VALUE};
use json_tree::{Tree, TreeFault, read, write};
use plain_text::{Slug, SlugFault, is_name, slug_of};
use row_batches::StoreRow;
use sequences::{Sequence, Text};
use std::alloc::Global;
use std::str;

/// The sound preferences that have exactly these rows, in this order. `NotPrefs` comes exactly where there are none.
#[tactic(auto, using(crate::proofs::Merged::whole_given, crate::proofs::Merged::none_given))]
pub fn prefs_of(alloc: Global, rows: &[StoreRow]) -> Result<Prefs, PrefsFault>
    ensures prefs { IfOk result (λ prefs. IsSound prefs × (rows.now ≡ rows_of prefs)) }
    ensures not_prefs { IsErrOf result PrefsFault.NotPrefs → (ps : List Preference) → IsSound ps → rows.now ≡ rows_of ps → ⊥ }
{
    let (holds, values) = rows.split_at(holds_end(rows));
    prefs_of_parts(alloc, holds, values)
}

/// The sound preferences that have exactly these rows of holds and these of values, each in this order. `NotPrefs` comes exactly
/// where there are none.
#[tactic(auto, using(crate::proofs::Merged::sound_given, crate::proofs::Merged::none_in_order))]
pub fn prefs_of_parts(
    alloc: Global,
    holds: &[StoreRow],
    values: &[StoreRow],
) -> Result<Prefs, PrefsFault>
    ensures sound { IfOk result IsSound }
    ensures holds { IfOk result (λ prefs. holds.now ≡ hold_rows prefs) }
    ensures values { IfOk result (λ prefs. values.now ≡ value_rows prefs) }
    ensures not_prefs { IsErrOf result PrefsFault.NotPrefs → (ps : List Preference) → IsSound ps → holds.now ≡ hold_rows ps → values.now ≡ value_rows ps → ⊥ }
{
    let preferences = merged(alloc, holds, values)?;
    if !is_in_order(preferences.as_slice()) {
        return Err(PrefsFault::NotPrefs);
    }
    Ok(Prefs::of_preferences(alloc, preferences)?)
}

// Where the rows of holds end.
#[tactic(auto, using(crate::proofs::Merged::holds_more, crate::proofs::Merged::end_here, crate::proofs::Merged::end_all))]
fn holds_end(rows: &[StoreRow]) -> usize
    ensures { IsHoldsEnd rows.now result }
{
    for (place, row) in rows.iter().enumerate() {
        if !is_hold(row) {
            return place;
        }
    }
    rows.len()
}

// Whether the row is a hold's, by the letter of its key.
fn is_hold(row: &StoreRow) -> bool
    ensures { result ≡ is_hold row.now }
{
    matches!(row.key.as_slice(), [HOLD, ..])
}

// The preferences of the rows of holds and of values, whose names may not rise.
#[tactic(auto, using(crate::proofs::Merged::merged_start, crate::proofs::Merged::merged_values, crate::proofs::Merged::merged_holds, crate::proofs::Merged::merged_only, crate::proofs::Merged::merged_left))]
fn merged(
    alloc: Global,
    holds: &[StoreRow],
    values: &[StoreRow],
) -> Result<Sequence<Preference>, PrefsFault>
    ensures each { IfOk result (λ ps. AllByRecursion IsPreference ps) }
    ensures holds { IfOk result (λ ps. holds.now ≡ hold_rows ps) }
    ensures values { IfOk result (λ ps. values.now ≡ value_rows ps) }
    ensures only { IfOk result (AreOnly holds.now values.now) }
    ensures none { IsErrOf result PrefsFault.NotPrefs → AreNone holds.now values.now }
{
    let mut preferences = Sequence::new(alloc);
    let mut rest = holds;
    for row in values {
        let read = preference_in(alloc, row, rest)?;
        preferences.push(read.preference)?;
        rest = read.holds;
    }
    if !rest.is_empty() {
        return Err(PrefsFault::NotPrefs);
    }
    Ok(preferences)
}

// Whether the names rise.
fn is_in_order(preferences: &[Preference]) -> bool
    ensures { IsTrue result ↔ Rise (names_of preferences.now) }
{
    preferences.is_sorted_by(|first, second| first.name < second.name)
}

/// A preference that was read, and the rows of holds that are left.
#[derive(Drop)]
pub(crate) struct Read<'a> {
    pub preference: Preference,
    pub holds: &'a [StoreRow],
}

// The preference of a row of a value, and of the first row of a hold, where that is of its name.
fn preference_in<'a>(
    alloc: Global,
    row: &StoreRow,
    holds: &'a [StoreRow],
) -> Result<Read<'a>, PrefsFault>
    ensures value { IfOk result (λ read. row.now ≡ value_row read.preference) }
    ensures hold { IfOk result (λ read. holds.now ≡ hold_row read.preference.name read.preference.hold ++ read.holds.now) }
    ensures sound { IfOk result (λ read. IsPreference read.preference) }
    ensures alone { IfOk result (λ read. IsAlone read.preference.name read.preference.hold read.holds.now) }
    ensures none { IsErrOf result PrefsFault.NotPrefs → (p : Preference) (rest : List StoreRow) → IsPreference p → IsAlone p.name p.hold rest
        → row.now ≡ value_row p → holds.now ≡ hold_row p.name p.hold ++ rest → ⊥ }
{
    let name = name_in(alloc, row.key.as_slice())?;
    let value = value_in(alloc, row.value.as_slice())?;
    let held = held_in(alloc, &name, holds)?;
    Ok(Read {
        preference: Preference {
            name,
            value,
            hold: held.hold,
        },
        holds: held.holds,
    })
}

/// A hold that was read, where there is one, and the rows of holds that are left.
#[derive(Drop)]
pub(crate) struct Held<'a> {
    pub hold: Option<Hold>,
    pub holds: &'a [StoreRow],
}

// The hold of the first row, where that is of the name.
fn held_in<'a>(alloc: Global, name: &Text, holds: &'a [StoreRow]) -> Result<Held<'a>, PrefsFault>
    ensures hold { IfOk result (λ held. holds.now ≡ hold_row name.now held.hold ++ held.holds.now) }
    ensures sound { IfOk result (λ held. IsHold held.hold) }
    ensures alone { IfOk result (λ held. IsAlone name.now held.hold held.holds.now) }
    ensures none { IsErrOf result PrefsFault.NotPrefs → (hold : Option Hold) (rest : List StoreRow) → IsHold hold → IsAlone name.now hold rest
        → holds.now ≡ hold_row name.now hold ++ rest → ⊥ }
{
    match holds {
        [first, rest @ ..] if is_key(first.key.as_slice(), name.as_str().as_bytes()) => Ok(Held {
            hold: Some(hold_in(alloc, first.value.as_slice())?),
            holds: rest,
        }),
        _ => Ok(Held { hold: None, holds }),
    }
}

// Whether the key is that of the name's hold.
fn is_key(key: &[u8], name: &[u8]) -> bool
    ensures { IsTrue result ↔ (key.now ≡ hold_key name.now) }
{
    match key {
        [HOLD, behind @ ..] => behind == name,
        _ => false,
    }
}

// The name in the key of a value.
fn name_in(alloc: Global, key: &[u8]) -> Result<Text, PrefsFault>
    ensures key { IfOk result (λ name. key.now ≡ value_key name) }
    ensures name { IfOk result (λ name. IsTrue (is_name name)) }
    ensures none { IsErrOf result PrefsFault.NotPrefs → (name : List ℕ) → IsTrue (is_name name) → key.now ≡ value_key name → ⊥ }
{
    match key {
        [VALUE, name @ ..] if is_name(name) => match str::from_utf8(name) {
            Ok(text) => Ok(Text::new(alloc, text)?),
            Err(_) => Err(PrefsFault::NotPrefs),
        },
        _ => Err(PrefsFault::NotPrefs),
    }
}

/// The parts of a hold's text.
#[derive(Clone, Copy, Drop)]
pub(crate) struct Parts<'a> {
    pub holder: &'a [u8],
    pub before: &'a [u8],
}

// The hold that the bytes encode.
fn hold_in(alloc: Global, bytes: &[u8]) -> Result<Hold, PrefsFault>
    ensures text { IfOk result (λ hold. bytes.now ≡ hold_text hold.holder hold.before) }
    ensures sound { IfOk result (λ hold. IsHold (Some hold)) }
    ensures none { IsErrOf result PrefsFault.NotPrefs → (hold : Hold) → IsHold (Some hold) → bytes.now ≡ hold_text hold.holder hold.before → ⊥ }
{
    let Some(parts) = parts_of(bytes) else {
        return Err(PrefsFault::NotPrefs);
    };
    Ok(Hold {
        holder: slug_in(alloc, parts.holder)?,
        before: before_in(alloc, parts.before)?,
    })
}

// The holder and the text of the value of before.
fn parts_of(bytes: &[u8]) -> Option<Parts<'_>>
    ensures some { IfSome result (λ parts. bytes.now ≡ length parts.holder.now ∷ (parts.holder.now ++ parts.before.now)) }
    ensures none { IsNone result → (holder before : List ℕ) → bytes.now ≡ length holder ∷ (holder ++ before) → ⊥ }
{
    let [len, texts @ ..] = bytes else {
        return None;
    };
    let (holder, before) = texts.split_at_checked(*len as usize)?;
    Some(Parts { holder, before })
}

// The slug that the bytes are.
fn slug_in(alloc: Global, bytes: &[u8]) -> Result<Slug, PrefsFault>
    ensures text { IfOk result (λ slug. slug ≡ bytes.now) }
    ensures slug { IfOk result IsSlug }
    ensures none { IsErrOf result PrefsFault.NotPrefs → IsSlug bytes.now → ⊥ }
{
    match slug_of(alloc, bytes) {
        Ok(slug) => Ok(slug),
        Err(SlugFault::BadSlug(_)) => Err(PrefsFault::NotPrefs),
        Err(SlugFault::OutOfMemory) => Err(PrefsFault::OutOfMemory),
    }
}

// The value of before that the bytes encode; no bytes encode none.
fn before_in(alloc: Global, bytes: &[u8]) -> Result<Option<Tree>, PrefsFault>
    ensures text { IfOk result (λ before. bytes.now ≡ before_text before) }
    ensures value { IfOk result IsValueOrNone }
    ensures none { IsErrOf result PrefsFault.NotPrefs → (before : Option Tree) → IsValueOrNone before → bytes.now ≡ before_text before → ⊥ }
{
    if bytes.is_empty() {
        return Ok(None);
    }
    Ok(Some(value_in(alloc, bytes)?))
}

// The value whose canonical text the bytes are.
#[tactic(auto, using(crate::proofs::Read::none_of_tree, crate::proofs::Read::none_of_text))]
fn value_in(alloc: Global, bytes: &[u8]) -> Result<Tree, PrefsFault>
    ensures text { IfOk result (λ value. bytes.now ≡ value_text value) }
    ensures value { IfOk result IsValue }
    ensures none { IsErrOf result PrefsFault.NotPrefs → (value : Tree) → IsValue value → bytes.now ≡ value_text value → ⊥ }
{
    let value = tree_in(alloc, bytes)?;
    if !is_value(&value) || !is_text(alloc, &value, bytes)? {
        return Err(PrefsFault::NotPrefs);
    }
    Ok(value)
}

// The tree that the bytes encode, in any form.
#[tactic(auto, using(crate::proofs::Values::read_none, crate::proofs::Values::not_deep))]
fn tree_in(alloc: Global, bytes: &[u8]) -> Result<Tree, PrefsFault>
    ensures tree { IfOk result (λ tree. tree_of bytes.now ≡ Some (json_of tree)) }
    ensures none { IsErrOf result PrefsFault.NotPrefs → (value : Tree) → IsValue value → bytes.now ≡ value_text value → ⊥ }
{
    match read(alloc, bytes) {
        Ok(tree) => Ok(tree),
        Err(TreeFault::OutOfMemory) => Err(PrefsFault::OutOfMemory),
        Err(_) => Err(PrefsFault::NotPrefs),
    }
}

// Whether the bytes are the value's canonical text. The one error is want of memory.
#[tactic(auto, unfolding(crate::specs::Rows::value_text))]
fn is_text(alloc: Global, value: &Tree, bytes: &[u8]) -> Result<bool, PrefsFault>
    ensures text { IfOk result (λ is. IsTrue is ↔ (bytes.now ≡ value_text value.now)) }
    ensures memory { IsErrOf result PrefsFault.NotPrefs → ⊥ }
{
    let text = write(alloc, value)?;
    Ok(bytes == text.as_str().as_bytes())
}
