// The state of a client.
ghost use Rattle.std.specs.Prelude.{◌≡◌};
ghost use Rattle.std.specs.Option.{unwrap_or};
ghost use Rattle.client_state.specs.Changes.{enrolment_after, events_after, preferences_or, state_after};
ghost use Rattle.client_state.specs.Parts.{with_empty_parts};

use crate::boxed_change::BoxedChange;
use crate::state_change::{NextEnrolment, NextEvents};
use change_outbox::Outbox;
use enrol_states::State;
use event_counts::Counts;
use pref_bindings::{NextPreferences, Prefs};
use std::alloc::Global;
use std::mem;

/// What a client knows of itself, of the recipes and of what it is to each, what its user did, what it has to tell, and the values
/// of preferences.
#[derive(Drop)]
pub struct ClientState {
    pub enrolment: State,
    /// What the user did.
    pub events: Counts,
    /// The changes of enrolments that the host application hasn't confirmed yet.
    pub outbox: Outbox,
    /// The preferences that have a value, with who holds them.
    pub preferences: Prefs,
}

impl ClientState {
    /// The state with this enrolment and empty parts: no event was counted, no enrolment changed, and no
    /// preference has a value. It takes no memory.
    pub fn new(alloc: Global, enrolment: State) -> ClientState
        ensures { result ≡ with_empty_parts enrolment }
    {
        ClientState {
            enrolment,
            events: Counts::new(alloc),
            outbox: Outbox::new(alloc),
            preferences: Prefs::new(alloc),
        }
    }

    /// Takes the parts over that the change has. It takes no memory.
    pub fn take_over(&mut self, mut change: BoxedChange)
        ensures { self.new ≡ state_after change self.old }
    {
        let change = change.get_mut();
        take_enrolment(&mut self.enrolment, &mut change.enrolment);
        take_events(&mut self.events, &mut change.events);
        take_outbox(&mut self.outbox, &mut change.outbox);
        take_preferences(&mut self.preferences, &mut change.preferences);
    }
}

// Puts the next enrolment in the place of this one, where there is a next one.
fn take_enrolment(enrolment: &mut State, next: &mut Option<NextEnrolment>)
    ensures { enrolment.new ≡ enrolment_after next.old enrolment.old }
{
    if let Some(next) = next {
        mem::swap(enrolment, &mut next.state);
    }
}

// Puts the next counts in the place of these, where there are next ones.
fn take_events(events: &mut Counts, next: &mut Option<NextEvents>)
    ensures { events.new ≡ events_after next.old events.old }
{
    if let Some(next) = next {
        mem::swap(events, &mut next.counts);
    }
}

// Puts the next outbox in the place of this one, where there is a next one.
fn take_outbox(outbox: &mut Outbox, next: &mut Option<Outbox>)
    ensures { outbox.new ≡ unwrap_or next.old outbox.old }
{
    if let Some(next) = next {
        mem::swap(outbox, next);
    }
}

// Puts the next preferences in the place of these, where there are next ones.
fn take_preferences(preferences: &mut Prefs, next: &mut Option<NextPreferences>)
    ensures { preferences.new ≡ preferences_or next.old preferences.old }
{
    if let Some(next) = next {
        mem::swap(preferences, &mut next.preferences);
    }
}
