// The state of rows.
ghost use Rattle.std.specs.Prelude.{◌≡◌, ◌↔◌, IfOk, IsErrOf, IsTrue};
ghost use Rattle.recipe_reader.specs.Payloads.{AreValid};
ghost use Rattle.enrol_states.specs.declared.state.State.{State};
ghost use Rattle.state_codec.specs.Forms.{IsForm, IsLaterForm, IsOldLater, AreParts};
ghost use Rattle.enrol_states.specs.SoundParts.{AreValidIf};
ghost use Rattle.state_codec.specs.Reading.{before_id, from_id, is_of_id};
ghost use Rattle.state_codec.specs.Sound.{IsSound};

use crate::old_form::has_old;
use crate::row_kind::RowKind;
use crate::row_making::bit;
use crate::rows::{first_rows_of, later_rows, later_rows_of};
use crate::size::state_size;
use crate::state_reading::state_in;
use enrol_states::{State, is_consistent};
use row_batches::StoreRow;
use state_values::CodecFault;
use std::alloc::{AllocError, Global};

/// The most bytes that a state is encoded in.
pub const MAX_STATE_BYTES: usize = 16_777_216;

/// The sound state that has exactly these rows, in this order, or of which they are the old form. `NotAState` comes exactly
/// where there is none.
pub fn state_of(alloc: Global, rows: &[StoreRow]) -> Result<State, CodecFault>
    ensures state { IfOk result (λ s. IsSound s × IsForm s rows.now) }
    ensures not_a_state { IsErrOf result CodecFault.NotAState → (s : State) → IsSound s → IsForm s rows.now → ⊥ }
{
    let (first, later) = parts_of(rows);
    state_of_parts(alloc, first, later)
}

/// The sound state that has exactly these first rows, and exactly these later ones or their old form. Rows of others may stand
/// between them. `NotAState` comes exactly where there is none.
pub fn state_of_parts(
    alloc: Global,
    first: &[StoreRow],
    later: &[StoreRow],
) -> Result<State, CodecFault>
    ensures state { IfOk result (λ s. IsSound s × AreParts s first.now later.now) }
    ensures not_a_state { IsErrOf result CodecFault.NotAState → (s : State) → IsSound s → AreParts s first.now later.now → ⊥ }
{
    let state = state_in(alloc, first, later)?;
    if has_rows(alloc, &state, first, later)? {
        Ok(state)
    } else {
        Err(CodecFault::NotAState)
    }
}

// The rows before that of the id, and those from it on.
fn parts_of(rows: &[StoreRow]) -> (&[StoreRow], &[StoreRow])
    ensures first { result.0.now ≡ before_id rows.now }
    ensures later { result.1.now ≡ from_id rows.now }
{
    for place in 0..rows.len() {
        if is_of_id(&rows[place]) {
            return rows.split_at(place);
        }
    }
    (rows, &[])
}

fn is_of_id(row: &StoreRow) -> bool
    ensures { result ≡ is_of_id row.now }
{
    row.key.as_slice() == [RowKind::Id.letter()].as_slice()
}

// Whether the state is sound and these are its rows or their old form.
fn has_rows(
    alloc: Global,
    state: &State,
    first: &[StoreRow],
    later: &[StoreRow],
) -> Result<bool, AllocError>
    requires live { AreValid state.now.live }
    requires pending { AreValidIf state.now.pending }
    ensures { IfOk result (λ has. IsTrue has ↔ (IsSound state.now × AreParts state.now first.now later.now)) }
{
    if !is_consistent(alloc, state)? {
        return Ok(false);
    }
    if state_size(state) > MAX_STATE_BYTES as u128 {
        return Ok(false);
    }
    are_parts(alloc, state, first, later)
}

// Whether these are the first rows of the state, and its later ones or their old form.
fn are_parts(
    alloc: Global,
    state: &State,
    first: &[StoreRow],
    later: &[StoreRow],
) -> Result<bool, AllocError>
    ensures { IfOk result (λ are. IsTrue are ↔ AreParts state.now first.now later.now) }
{
    let own = first_rows_of(alloc, state)?;
    if !are_same(first, own.as_slice()) {
        return Ok(false);
    }
    is_later_form(alloc, state, later)
}

// Whether these are the later rows of the state or their old form.
fn is_later_form(alloc: Global, state: &State, later: &[StoreRow]) -> Result<bool, AllocError>
    ensures { IfOk result (λ is. IsTrue is ↔ IsLaterForm state.now later.now) }
{
    if has_old(later) {
        return is_old_later(alloc, state, later);
    }
    let own = later_rows_of(alloc, state)?;
    Ok(are_same(later, own.as_slice()))
}

// Whether these are the later rows of the state's old form, which a state whose flags differ has not.
fn is_old_later(alloc: Global, state: &State, later: &[StoreRow]) -> Result<bool, AllocError>
    ensures { IfOk result (λ is. IsTrue is ↔ IsOldLater state.now later.now) }
{
    if state.experiments != state.rollouts {
        return Ok(false);
    }
    let old = later_rows(alloc, bit(state.experiments), state)?;
    Ok(are_same(later, old.as_slice()))
}

fn are_same(left: &[StoreRow], right: &[StoreRow]) -> bool
    ensures { IsTrue result ↔ (left.now ≡ right.now) }
{
    if left.len() != right.len() {
        return false;
    }
    for place in 0..left.len() {
        if !is_same(&left[place], &right[place]) {
            return false;
        }
    }
    true
}

#[tactic(auto, using(crate::proofs::SameRows::row_same, crate::proofs::SameRows::same_key, crate::proofs::SameRows::same_value))]
fn is_same(left: &StoreRow, right: &StoreRow) -> bool
    ensures { IsTrue result ↔ (left.now ≡ right.now) }
{
    left.key.as_slice() == right.key.as_slice() && left.value.as_slice() == right.value.as_slice()
}
