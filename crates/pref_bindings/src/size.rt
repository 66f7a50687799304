// How many bytes the rows of preferences take.
ghost use Rattle.std.specs.Prelude.{◌≡◌, ◌≤◌, ◌<◌, ◌+◌, length, IfSome, IfNone};
ghost use Rattle.row_batches.specs.Batch.{puts_text};
ghost use Rattle.pref_bindings.specs.Rows.{rows_of, value_text};
ghost use Rattle.pref_bindings.specs.Sizes.{hold_size, preference_size};

use crate::preference::{Hold, Preference};
use json_length::length_within;
use json_tree::Tree;

// The bytes that a put has beside the name in its key and its value.
const PUT: u128 = 8;

/// How many bytes the puts of the preferences' rows have, of holds and of values, where they are at most `most`. They are counted
/// without a text, and it takes no memory. It ends at the first preference that goes past `most`.
pub(crate) fn preferences_size(preferences: &[Preference], most: u128) -> Option<u128>
    ensures some { IfSome result (λ size. size ≡ length (puts_text (rows_of preferences.now))) }
    ensures within { IfSome result (λ size. size ≤ most) }
    ensures beyond { IfNone result (most < length (puts_text (rows_of preferences.now))) }
{
    let mut left = most;
    for preference in preferences {
        left = left_after(preference, left)?;
    }
    Some(most - left)
}

/// How many bytes of rows are left when those of the preference are taken away. It takes no memory.
pub(crate) fn size_without(size: u128, preference: &Preference) -> u128
    requires { preference_size preference.now ≤ size }
    ensures { result + preference_size preference.now ≡ size }
{
    left_after(preference, size).unwrap_or(0)
}

/// How many bytes of rows there are with those of the preference, where they are at most `most`. It takes no memory.
pub(crate) fn size_with(size: u128, preference: &Preference, most: u128) -> Option<u128>
    requires { size ≤ most }
    ensures some { IfSome result (λ all. all ≡ size + preference_size preference.now) }
    ensures within { IfSome result (λ all. all ≤ most) }
{
    let left = left_after(preference, most - size)?;
    Some(most - left)
}

// How many of the bytes are left after the rows of the preference, where they are enough.
fn left_after(preference: &Preference, bytes: u128) -> Option<u128>
    ensures some { IfSome result (λ left. left + preference_size preference.now ≡ bytes) }
    ensures none { IfNone result (bytes < preference_size preference.now) }
{
    let name = preference.name.as_str().len() as u128;
    let left = bytes.checked_sub(PUT + name)?;
    let left = left_after_value(&preference.value, left)?;
    match &preference.hold {
        Some(hold) => left_after_hold(hold, left.checked_sub(PUT + name)?),
        None => Some(left),
    }
}

// How many of the bytes are left after the value of a hold's row.
fn left_after_hold(hold: &Hold, bytes: u128) -> Option<u128>
    ensures some { IfSome result (λ left. left + hold_size hold.now ≡ bytes) }
    ensures none { IfNone result (bytes < hold_size hold.now) }
{
    let left = bytes.checked_sub(1 + hold.holder.text().len() as u128)?;
    match &hold.before {
        Some(value) => left_after_value(value, left),
        None => Some(left),
    }
}

// How many of the bytes are left after the value's canonical text.
#[tactic(auto, unfolding(crate::specs::Rows::value_text))]
fn left_after_value(value: &Tree, bytes: u128) -> Option<u128>
    ensures some { IfSome result (λ left. left + length (value_text value.now) ≡ bytes) }
    ensures none { IfNone result (bytes < length (value_text value.now)) }
{
    let length = length_within(value, bytes)?;
    Some(bytes - length)
}
