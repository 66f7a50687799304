// The batches of a client state's rows: the one that makes them, whose bytes are the state's encoding, and the one that changes them
// to the next state's.
ghost use Rattle.std.specs.Prelude.{◌≡◌, ◌≤◌, ◌<◌, ◌+◌, ◌^◌, ◌++◌, [], length, IfOk, OnOk};
ghost use Rattle.std.specs.Option.{unwrap_or};
ghost use Rattle.enrol_states.specs.Consistent as states;
ghost use Rattle.row_batches.specs.Batch.{applied, batch_text, whole_of};
ghost use Rattle.row_batches.specs.Between.{changes_between, between};
ghost use Rattle.state_values.specs.Values.{participation_byte};
ghost use Rattle.state_codec.specs.Encoding.{first_rows, later_rows};
ghost use Rattle.event_counts.specs.Rows as count_rows;
ghost use Rattle.event_counts.specs.Sound as counts;
ghost use Rattle.change_outbox.specs.Rows as change_rows;
ghost use Rattle.pref_bindings.specs.Preferences as preferences;
ghost use Rattle.pref_bindings.specs.Rows.{hold_rows, value_rows};
ghost use Rattle.client_state.specs.Changes.{IsNextEventsIf, IsNextIf, IsNextOutboxIf, IsNextPreferencesIf, IsWholeChangeOf, enrolment_after, events_after, preferences_or, state_after};
ghost use Rattle.client_state.specs.Sound.{IsConsistent};
ghost use Rattle.client_state.specs.Encoding.{rows_of, encoding};

use crate::client_state::ClientState;
use crate::rows::rows_of;
use crate::state_change::{NextEnrolment, NextEvents, StateChange};
use change_outbox::Outbox;
use enrol_states::State;
use event_counts::Counts;
use pref_bindings::{NextPreferences, Prefs};
use row_batches::{Batch, RowChange};
use sequences::Sequence;
use state_codec::{add_first_changes, add_later_changes};
use std::alloc::{AllocError, Global};

/// The batch that makes the state's rows: a clear of all rows, and a put of each. Its bytes are the state's encoding.
#[tactic(auto, using(crate::proofs::Room::rows_room), unfolding(crate::specs::Encoding::encoding))]
pub fn whole_batch(alloc: Global, state: &ClientState) -> Result<Batch, AllocError>
    requires state { IsConsistent state.now }
    requires size { length (encoding state.now) < 2 ^ 32 }
    ensures batch { IfOk result (λ batch. batch ≡ whole_of (rows_of state.now)) }
    ensures text { IfOk result (λ batch. batch_text batch ≡ encoding state.now) }
    ensures gives { IfOk result (λ batch. applied batch [] ≡ rows_of state.now) }
{
    let rows = rows_of(alloc, state)?;
    Batch::whole_of(alloc, rows)
}

/// The batch from the rows of a state to those that it has after a change: a put for each row that is new or differs, a delete for
/// each that is gone, and nothing else. A row is made only where it changes. Parts that the change doesn't have aren't looked at,
/// and of the enrolment, the events and the preferences no list, or part of one, that is said to be as before.
#[tactic(auto, using(crate::proofs::Changed::change_consistent, crate::proofs::Changed::gives_rows, crate::proofs::Changed::gives_whole, crate::proofs::Changed::is_short))]
pub fn changes_to(
    alloc: Global,
    old: &ClientState,
    change: &StateChange,
) -> Result<Batch, AllocError>
    requires old_state { IsConsistent old.now }
    requires change { IsWholeChangeOf old.now change.now }
    requires old_size { length (encoding old.now) < 2 ^ 32 }
    requires new_size { length (encoding (state_after change.now old.now)) < 2 ^ 32 }
    ensures between { IfOk result (λ batch. batch ≡ between (rows_of old.now) (rows_of (state_after change.now old.now))) }
    ensures gives { IfOk result (λ batch. applied batch (rows_of old.now) ≡ rows_of (state_after change.now old.now)) }

    // The bytes of a clear and of a put of each row that stands after the batch are the encoding of the next state.
    ensures whole { IfOk result (λ batch. batch_text (whole_of (applied batch (rows_of old.now))) ≡ encoding (state_after change.now old.now)) }
    ensures size { IfOk result (λ batch. length (batch_text batch) ≤ length (encoding old.now) + length (encoding (state_after change.now old.now))) }
{
    let changes = row_changes(alloc, old, change)?;
    Ok(Batch::of_changes(changes))
}

// The changes from the rows of a state to those that it has after a change.
fn row_changes(
    alloc: Global,
    old: &ClientState,
    change: &StateChange,
) -> Result<Sequence<RowChange>, AllocError>
    requires old_state { IsConsistent old.now }
    requires change { IsWholeChangeOf old.now change.now }
    ensures { IfOk result (λ changes. changes ≡ changes_between (rows_of old.now) (rows_of (state_after change.now old.now))) }
{
    let mut changes = Sequence::new(alloc);
    add_first(alloc, &mut changes, &old.enrolment, &change.enrolment)?;
    add_events(alloc, &mut changes, &old.events, &change.events)?;
    add_holds(alloc, &mut changes, &old.preferences, &change.preferences)?;
    add_later(alloc, &mut changes, &old.enrolment, &change.enrolment)?;
    add_outbox(alloc, &mut changes, &old.outbox, &change.outbox)?;
    add_values(alloc, &mut changes, &old.preferences, &change.preferences)?;
    Ok(changes)
}

// Adds the changes of the enrolment's first rows.
#[tactic(auto, using(state_codec::proofs::Joined::itself_added))]
fn add_first(
    alloc: Global,
    changes: &mut Sequence<RowChange>,
    old: &State,
    next: &Option<NextEnrolment>,
) -> Result<(), AllocError>
    ensures { OnOk result (changes.new ≡ changes.old ++ changes_between (first_rows old.now) (first_rows (enrolment_after next.now old.now))) }
{
    match next {
        Some(next) => add_first_changes(alloc, changes, old, &next.state),
        None => Ok(()),
    }
}

// Adds the changes of the enrolment's later rows.
#[tactic(auto, using(state_codec::proofs::Joined::itself_added))]
fn add_later(
    alloc: Global,
    changes: &mut Sequence<RowChange>,
    old: &State,
    next: &Option<NextEnrolment>,
) -> Result<(), AllocError>
    requires old_state { states.IsConsistent old.now }
    requires next { IsNextIf old.now next.now }
    ensures { OnOk result (changes.new ≡ changes.old ++ changes_between (later_rows (participation_byte old.now) old.now) (later_rows (participation_byte (enrolment_after next.now old.now)) (enrolment_after next.now old.now))) }
{
    match next {
        Some(next) => add_later_changes(alloc, changes, old, &next.state, next.recipes),
        None => Ok(()),
    }
}

// Adds the changes of the counts' rows. Of the names the part alone is looked at that may differ.
#[tactic(auto, using(state_codec::proofs::Joined::itself_added))]
fn add_events(
    alloc: Global,
    changes: &mut Sequence<RowChange>,
    old: &Counts,
    next: &Option<NextEvents>,
) -> Result<(), AllocError>
    requires old_counts { counts.IsSound old.now }
    requires next { IsNextEventsIf old.now next.now }
    ensures { OnOk result (changes.new ≡ changes.old ++ changes_between (count_rows.rows_of old.now) (count_rows.rows_of (events_after next.now old.now))) }
{
    match next {
        Some(next) => old.add_changes_in(alloc, changes, &next.counts, next.part),
        None => Ok(()),
    }
}

// Adds the changes of the outbox's rows.
#[tactic(auto, using(state_codec::proofs::Joined::itself_added))]
fn add_outbox(
    alloc: Global,
    changes: &mut Sequence<RowChange>,
    old: &Outbox,
    next: &Option<Outbox>,
) -> Result<(), AllocError>
    requires { IsNextOutboxIf old.now next.now }
    ensures { OnOk result (changes.new ≡ changes.old ++ changes_between (change_rows.rows_of old.now) (change_rows.rows_of (unwrap_or next.now old.now))) }
{
    match next {
        Some(next) => old.add_changes_to(alloc, changes, next),
        None => Ok(()),
    }
}

// Adds the changes of the rows of holds. Of the preferences the part alone is looked at that may differ.
#[tactic(auto, using(state_codec::proofs::Joined::itself_added))]
fn add_holds(
    alloc: Global,
    changes: &mut Sequence<RowChange>,
    old: &Prefs,
    next: &Option<NextPreferences>,
) -> Result<(), AllocError>
    requires old_preferences { preferences.IsSound old.now }
    requires next { IsNextPreferencesIf old.now next.now }
    ensures { OnOk result (changes.new ≡ changes.old ++ changes_between (hold_rows old.now) (hold_rows (preferences_or next.now old.now))) }
{
    match next {
        Some(next) => old.add_hold_changes_in(alloc, changes, &next.preferences, next.part),
        None => Ok(()),
    }
}

// Adds the changes of the rows of values. Of the preferences the part alone is looked at that may differ.
#[tactic(auto, using(state_codec::proofs::Joined::itself_added))]
fn add_values(
    alloc: Global,
    changes: &mut Sequence<RowChange>,
    old: &Prefs,
    next: &Option<NextPreferences>,
) -> Result<(), AllocError>
    requires old_preferences { preferences.IsSound old.now }
    requires next { IsNextPreferencesIf old.now next.now }
    ensures { OnOk result (changes.new ≡ changes.old ++ changes_between (value_rows old.now) (value_rows (preferences_or next.now old.now))) }
{
    match next {
        Some(next) => old.add_value_changes_in(alloc, changes, &next.preferences, next.part),
        None => Ok(()),
    }
}
