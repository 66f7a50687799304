// How many bytes a client's state is encoded in.
ghost use Rattle.std.specs.Prelude.{◌≡◌, ◌≤◌, ◌+◌, ◌^◌, List, length};
ghost use Rattle.std.specs.Option.{unwrap_or};
ghost use Rattle.row_batches.specs.Batch.{puts_text};
ghost use Rattle.state_codec.specs.Sound as codec;
ghost use Rattle.state_codec.specs.Sizes as codec_sizes;
ghost use Rattle.event_counts.specs.Rows as count_rows;
ghost use Rattle.change_outbox.specs.Contents.{Contents};
ghost use Rattle.change_outbox.specs.Rows as change_rows;
ghost use Rattle.pref_bindings.specs.Rows as preference_rows;
ghost use Rattle.pref_bindings.specs.declared.preference.Preference.{Preference};
ghost use Rattle.client_state.specs.Changes.{IsNextEvents, IsNextEventsIf, IsNextIf, IsWholeChangeOf, enrolment_after, events_after, preferences_or, state_after};
ghost use Rattle.client_state.specs.Sizes.{IsSizeOf};
ghost use Rattle.client_state.specs.Sound.{IsConsistent, IsSound, HaveRecords};

use crate::client_state::ClientState;
use crate::state_change::{NextEnrolment, NextEvents, StateChange};
use change_outbox::Outbox;
use enrol_states::State;
use event_counts::Counts;
use pref_bindings::NextPreferences;
use state_codec::StateSizes;

/// How many bytes a client's state is encoded in, and how many of them its parts take.
#[derive(Clone, Copy)]
pub struct ClientSizes {
    /// Of the whole encoding.
    pub total: u128,
    /// Of the encoding of the enrolment.
    pub enrolment: StateSizes,
    /// Of the rows of counts.
    pub events: u128,
    /// Of the rows of the outbox.
    pub outbox: u128,
    /// Of the rows of preferences.
    pub preferences: u128,
}

/// The sizes of the state. They are counted without a text, and take no memory.
pub fn sizes_of(state: &ClientState) -> ClientSizes
    requires { IsConsistent state.now }
    ensures sizes { IsSizeOf state.now result }
    ensures records { HaveRecords state.now.enrolment }
{
    let enrolment = state_codec::sizes_of(&state.enrolment);
    let events = state.events.size();
    let outbox = state.outbox.size();
    let preferences = state.preferences.size();
    sizes_with(enrolment, events, outbox, preferences)
}

/// The sizes of the state after a change, by those of the state before. Parts that the change doesn't have aren't looked at, and of
/// the enrolment's recipes only those are counted that are gone, new or differ. Of its opted-out slugs, of its rows and of the names
/// of events only those are counted that may differ. It takes no memory.
pub fn sizes_after(before: ClientSizes, old: &ClientState, change: &StateChange) -> ClientSizes
    requires before { IsSizeOf old.now before }
    requires old_state { IsSound old.now }
    requires change { IsWholeChangeOf old.now change.now }
    ensures sizes { IsSizeOf (state_after change.now old.now) result }
    ensures records { HaveRecords (state_after change.now old.now).enrolment }
{
    let enrolment = enrolment_after(before.enrolment, &old.enrolment, &change.enrolment);
    let events = events_after(before.events, &old.events, &change.events);
    let outbox = outbox_after(before.outbox, &change.outbox);
    let preferences = preferences_after(before.preferences, &change.preferences);
    sizes_with(enrolment, events, outbox, preferences)
}

// The sizes of a state by those of its parts.
fn sizes_with(enrolment: StateSizes, events: u128, outbox: u128, preferences: u128) -> ClientSizes
    requires enrolment { enrolment.total ≤ 2 ^ 100 }
    requires events { events ≤ 2 ^ 100 }
    requires outbox { outbox ≤ 2 ^ 100 }
    requires preferences { preferences ≤ 2 ^ 100 }
    ensures { result ≡ record { total = enrolment.total + events + outbox + preferences; enrolment = enrolment; events = events; outbox = outbox; preferences = preferences } }
{
    ClientSizes {
        total: enrolment.total + events + outbox + preferences,
        enrolment,
        events,
        outbox,
        preferences,
    }
}

// The sizes of the next enrolment, by those of the old one.
fn enrolment_after(before: StateSizes, old: &State, next: &Option<NextEnrolment>) -> StateSizes
    requires before { codec_sizes.IsSizeOf old.now before }
    requires old_state { codec.IsSound old.now }
    requires next { IsNextIf old.now next.now }
    ensures sizes { codec_sizes.IsSizeOf (enrolment_after next.now old.now) result }
    ensures bound { result.total ≤ 2 ^ 100 }
    ensures records { HaveRecords (enrolment_after next.now old.now) }
{
    match next {
        Some(next) => state_codec::sizes_after(before, old, &next.state, next.recipes),
        None => before,
    }
}

// The size of the next counts' rows, or that of before.
fn events_after(before: u128, old: &Counts, next: &Option<NextEvents>) -> u128
    requires before { before ≡ length (puts_text (count_rows.rows_of old.now)) }
    requires fits { before ≤ 2 ^ 99 }
    requires next { IsNextEventsIf old.now next.now }
    ensures size { result ≡ length (puts_text (count_rows.rows_of (events_after next.now old.now))) }
    ensures bound { result ≤ 2 ^ 100 }
{
    match next {
        Some(next) => next_events_size(before, old, next),
        None => before,
    }
}

// The size of the next counts' rows, by that of the old ones'. Of the names the part alone is counted that may differ.
fn next_events_size(before: u128, old: &Counts, next: &NextEvents) -> u128
    requires before { before ≡ length (puts_text (count_rows.rows_of old.now)) }
    requires fits { before ≤ 2 ^ 99 }
    requires next { IsNextEvents old.now next.now }
    ensures size { result ≡ length (puts_text (count_rows.rows_of next.now.counts)) }
    ensures bound { result ≤ 2 ^ 100 }
{
    let removed = old.size_of_old(next.part);
    let added = next.counts.size_of_new(next.part);
    before - removed + added
}

// The size of the next outbox's rows, or that of before.
fn outbox_after(before: u128, next: &Option<Outbox>) -> u128
    requires { before ≤ 2 ^ 100 }
    ensures size { (old : Contents) → before ≡ length (puts_text (change_rows.rows_of old)) → result ≡ length (puts_text (change_rows.rows_of (unwrap_or next.now old))) }
    ensures bound { result ≤ 2 ^ 100 }
{
    match next {
        Some(next) => next.size(),
        None => before,
    }
}

// The size of the next preferences' rows, or that of before.
fn preferences_after(before: u128, next: &Option<NextPreferences>) -> u128
    requires { before ≤ 2 ^ 100 }
    ensures size { (old : List Preference) → before ≡ length (puts_text (preference_rows.rows_of old)) → result ≡ length (puts_text (preference_rows.rows_of (preferences_or next.now old))) }
    ensures bound { result ≤ 2 ^ 100 }
{
    match next {
        Some(next) => next.preferences.size(),
        None => before,
    }
}
