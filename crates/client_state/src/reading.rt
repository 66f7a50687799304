// The state of rows.
ghost use Rattle.std.specs.Prelude.{◌≡◌, ◌↔◌, List, IfOk, IsErrOf, IsTrue};
ghost use Rattle.event_counts.specs.Rows as count_rows;
ghost use Rattle.event_counts.specs.Sound as counts;
ghost use Rattle.event_counts.specs.declared.name_counts.NameCounts.{NameCounts};
ghost use Rattle.change_outbox.specs.Contents as contents;
ghost use Rattle.change_outbox.specs.Contents.{Contents};
ghost use Rattle.change_outbox.specs.Rows as change_rows;
ghost use Rattle.pref_bindings.specs.Preferences as preference_lists;
ghost use Rattle.pref_bindings.specs.Rows.{hold_rows, value_rows};
ghost use Rattle.pref_bindings.specs.declared.preference.Preference.{Preference};
ghost use Rattle.client_state.specs.declared.client_state.ClientState.{ClientState};
ghost use Rattle.client_state.specs.Forms.{IsForm};
ghost use Rattle.client_state.specs.Sections.{AreSoundParts, HasSections};
ghost use Rattle.client_state.specs.Sound.{IsSound};

use crate::client_state::ClientState;
use crate::holders::have_enrolled_holders;
use crate::sections::{Sections, sections_of};
use crate::sizes::sizes_of;
use change_outbox::{Outbox, OutboxFault, outbox_of};
use event_counts::{Counts, CountsFault, counts_of};
use pref_bindings::{Prefs, PrefsFault, prefs_of_parts};
use row_batches::StoreRow;
use state_codec::{CodecFault, MAX_STATE_BYTES, state_of_parts};
use std::alloc::Global;

/// The sound state that has exactly these rows, in this order, or of which they are the old form. `NotAState` comes exactly where
/// there is none. No row is copied.
pub fn client_state_of(alloc: Global, rows: &[StoreRow]) -> Result<ClientState, CodecFault>
    ensures state { IfOk result (λ s. IsSound s × IsForm s rows.now) }
    ensures not_a_state { IsErrOf result CodecFault.NotAState → (s : ClientState) → IsSound s → IsForm s rows.now → ⊥ }
{
    let state = state_in(alloc, &sections_of(rows))?;
    if is_whole(&state) {
        Ok(state)
    } else {
        Err(CodecFault::NotAState)
    }
}

// The state whose parts have the sections' rows: each is sound by itself.
fn state_in(alloc: Global, sections: &Sections) -> Result<ClientState, CodecFault>
    ensures sound { IfOk result AreSoundParts }
    ensures sections { IfOk result (λ s. HasSections s sections.now) }
    ensures not_a_state { IsErrOf result CodecFault.NotAState → (s : ClientState) → AreSoundParts s → HasSections s sections.now → ⊥ }
{
    Ok(ClientState {
        enrolment: state_of_parts(alloc, sections.first, sections.later)?,
        events: counts_in(alloc, sections.events)?,
        outbox: outbox_in(alloc, sections.outbox)?,
        preferences: preferences_in(alloc, sections.holds, sections.values)?,
    })
}

// Whether the parts of the state fit each other, and its encoding isn't too long.
fn is_whole(state: &ClientState) -> bool
    requires { AreSoundParts state.now }
    ensures { IsTrue result ↔ IsSound state.now }
{
    have_enrolled_holders(&state.enrolment, state.preferences.as_slice())
        && sizes_of(state).total <= MAX_STATE_BYTES as u128
}

// The counts that have these rows.
fn counts_in(alloc: Global, rows: &[StoreRow]) -> Result<Counts, CodecFault>
    ensures sound { IfOk result counts.IsSound }
    ensures rows { IfOk result (λ ns. rows.now ≡ count_rows.rows_of ns) }
    ensures not_a_state { IsErrOf result CodecFault.NotAState → (ns : List NameCounts) → counts.IsSound ns → rows.now ≡ count_rows.rows_of ns → ⊥ }
{
    match counts_of(alloc, rows) {
        Ok(counts) => Ok(counts),
        Err(CountsFault::NotCounts) => Err(CodecFault::NotAState),
        Err(CountsFault::OutOfMemory) => Err(CodecFault::OutOfMemory),
    }
}

// The outbox that has these rows.
fn outbox_in(alloc: Global, rows: &[StoreRow]) -> Result<Outbox, CodecFault>
    ensures sound { IfOk result contents.IsSound }
    ensures rows { IfOk result (λ o. rows.now ≡ change_rows.rows_of o) }
    ensures not_a_state { IsErrOf result CodecFault.NotAState → (o : Contents) → contents.IsSound o → rows.now ≡ change_rows.rows_of o → ⊥ }
{
    match outbox_of(alloc, rows) {
        Ok(outbox) => Ok(outbox),
        Err(OutboxFault::NotAnOutbox) => Err(CodecFault::NotAState),
        Err(OutboxFault::OutOfMemory) => Err(CodecFault::OutOfMemory),
    }
}

// The preferences that have these rows.
fn preferences_in(
    alloc: Global,
    holds: &[StoreRow],
    values: &[StoreRow],
) -> Result<Prefs, CodecFault>
    ensures sound { IfOk result preference_lists.IsSound }
    ensures holds { IfOk result (λ ps. holds.now ≡ hold_rows ps) }
    ensures values { IfOk result (λ ps. values.now ≡ value_rows ps) }
    ensures not_a_state { IsErrOf result CodecFault.NotAState → (ps : List Preference) → preference_lists.IsSound ps → holds.now ≡ hold_rows ps → values.now ≡ value_rows ps → ⊥ }
{
    match prefs_of_parts(alloc, holds, values) {
        Ok(preferences) => Ok(preferences),
        Err(PrefsFault::NotPrefs) => Err(CodecFault::NotAState),
        Err(PrefsFault::OutOfMemory) => Err(CodecFault::OutOfMemory),
    }
}
