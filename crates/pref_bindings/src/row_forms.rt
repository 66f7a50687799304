// How preferences stand as rows.
ghost use Rattle.std.specs.Prelude.{◌≡◌, ◌↔◌, ◌++◌, ◌∷◌, refl, true, IfOk, IsTrue, OnOk, Some};
ghost use Rattle.std.specs.Option.{is_some};
ghost use Rattle.pref_bindings.specs.HoldRows.{one_hold};
ghost use Rattle.pref_bindings.specs.Preferences.{IsHold, IsPreference, IsValue, IsValueOrNone};
ghost use Rattle.pref_bindings.specs.Rows.{before_text, hold_key, hold_rows, hold_text, hold_value, value_key, value_rows, value_text};

use crate::preference::{Hold, Preference};
use json_tree::{Tree, write};
use row_batches::RowForm;
use sequences::{Sequence, Text};
use std::alloc::{AllocError, Global};
use std::cmp::Ordering;

/// The letter that begins the key of a hold.
pub(crate) const HOLD: u8 = b'h';

/// The letter that begins the key of a value.
pub(crate) const VALUE: u8 = b'y';

/// How the holds of preferences stand as rows: one that is held has a row.
pub(crate) struct HoldRows;

impl RowForm<Preference> for HoldRows {
    ghost has_row = { λ form p. is_some p.hold };

    ghost key = { λ form p. hold_key p.name };

    ghost value = { λ form p. hold_value p.hold };

    ghost rows = { λ form ps. hold_rows ps };

    ghost fits = { λ p. IsPreference p };

    ghost none = { λ form. refl };

    ghost each = { λ form p ps. one_hold p.name p.hold (hold_rows ps) };

    fn has_row(&self, item: &Preference) -> bool {
        item.hold.is_some()
    }

    fn key_order(&self, old: &Preference, new: &Preference) -> Ordering {
        old.name.cmp(&new.name)
    }

    fn has_same_value(&self, old: &Preference, new: &Preference) -> bool {
        is_same_or_none(&old.hold, &new.hold)
    }

    fn key(&self, alloc: Global, item: &Preference) -> Result<Sequence<u8>, AllocError> {
        key_of(alloc, HOLD, &item.name)
    }

    fn value(&self, alloc: Global, item: &Preference) -> Result<Sequence<u8>, AllocError> {
        match &item.hold {
            Some(hold) => hold_text(alloc, hold),
            None => Ok(Sequence::new(alloc)),
        }
    }
}

/// How the values of preferences stand as rows.
pub(crate) struct ValueRows;

impl RowForm<Preference> for ValueRows {
    ghost has_row = { λ form _. true };

    ghost key = { λ form p. value_key p.name };

    ghost value = { λ form p. value_text p.value };

    ghost rows = { λ form ps. value_rows ps };

    ghost fits = { λ p. IsPreference p };

    ghost none = { λ form. refl };

    ghost each = { λ form p ps. refl };

    fn has_row(&self, _item: &Preference) -> bool {
        true
    }

    fn key_order(&self, old: &Preference, new: &Preference) -> Ordering {
        old.name.cmp(&new.name)
    }

    fn has_same_value(&self, old: &Preference, new: &Preference) -> bool {
        is_same(&old.value, &new.value)
    }

    fn key(&self, alloc: Global, item: &Preference) -> Result<Sequence<u8>, AllocError> {
        key_of(alloc, VALUE, &item.name)
    }

    fn value(&self, alloc: Global, item: &Preference) -> Result<Sequence<u8>, AllocError> {
        let mut value = Vec::new(alloc);
        add_value(alloc, &mut value, &item.value)?;
        Ok(Sequence::from_vec(value))
    }
}

// Whether the holds are the same, or none is there.
fn is_same_or_none(old: &Option<Hold>, new: &Option<Hold>) -> bool
    requires old_hold { IsHold old.now }
    requires new_hold { IsHold new.now }
    ensures { IsTrue result ↔ (hold_value old.now ≡ hold_value new.now) }
{
    match (old, new) {
        (None, None) => true,
        (None, Some(_)) => false,
        (Some(_), None) => false,
        (Some(old), Some(new)) => is_same_hold(old, new),
    }
}

// Whether the holds are the same.
fn is_same_hold(old: &Hold, new: &Hold) -> bool
    requires old_hold { IsHold (Some old.now) }
    requires new_hold { IsHold (Some new.now) }
    ensures { IsTrue result ↔ (hold_text old.now.holder old.now.before ≡ hold_text new.now.holder new.now.before) }
{
    old.holder == new.holder && is_same_before(&old.before, &new.before)
}

// Whether the values of before are the same, or none was there.
#[tactic(auto, using(crate::proofs::Told::before_told))]
fn is_same_before(old: &Option<Tree>, new: &Option<Tree>) -> bool
    requires old_value { IsValueOrNone old.now }
    requires new_value { IsValueOrNone new.now }
    ensures { IsTrue result ↔ (before_text old.now ≡ before_text new.now) }
{
    old == new
}

// Whether the values are the same.
#[tactic(auto, using(crate::proofs::Told::values_told))]
fn is_same(old: &Tree, new: &Tree) -> bool
    requires old_value { IsValue old.now }
    requires new_value { IsValue new.now }
    ensures { IsTrue result ↔ (value_text old.now ≡ value_text new.now) }
{
    old == new
}

// The letter and the name.
fn key_of(alloc: Global, letter: u8, name: &Text) -> Result<Sequence<u8>, AllocError>
    ensures { IfOk result (λ key. key ≡ letter ∷ name.now) }
{
    let mut key = Vec::new(alloc);
    key.push(letter)?;
    key.extend_from_slice(name.as_str().as_bytes())?;
    Ok(Sequence::from_vec(key))
}

// The length of the holder, the holder, and the value of before.
fn hold_text(alloc: Global, hold: &Hold) -> Result<Sequence<u8>, AllocError>
    ensures { IfOk result (λ text. text ≡ hold_text hold.now.holder hold.now.before) }
{
    let holder = hold.holder.text().as_bytes();
    let mut text = Vec::new(alloc);
    text.push(holder.len() as u8)?;
    text.extend_from_slice(holder)?;
    add_before(alloc, &mut text, &hold.before)?;
    Ok(Sequence::from_vec(text))
}

// Adds the text of the value of before, where there was one.
fn add_before(alloc: Global, text: &mut Vec<u8>, before: &Option<Tree>) -> Result<(), AllocError>
    ensures { OnOk result (text.new.items ≡ text.old.items ++ before_text before.now) }
{
    match before {
        Some(value) => add_value(alloc, text, value),
        None => Ok(()),
    }
}

// Adds the value's canonical text.
#[tactic(auto, unfolding(crate::specs::Rows::value_text))]
fn add_value(alloc: Global, text: &mut Vec<u8>, value: &Tree) -> Result<(), AllocError>
    ensures { OnOk result (text.new.items ≡ text.old.items ++ value_text value.now) }
{
    let written = write(alloc, value)?;
    text.extend_from_slice(written.as_str().as_bytes())?;
    Ok(())
}
