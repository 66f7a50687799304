// What a command makes of a client's state.
ghost use Rattle.std.specs.Prelude.{◌≡◌};
ghost use Rattle.client_state.specs.Changes.{no_change, of_both, of_enrolment, of_events, of_next_state, of_outbox, preferences_or};

use change_outbox::Outbox;
use enrol_states::{NextState, State};
use event_counts::Counts;
use pref_bindings::{NextPreferences, Prefs};
use sequences::ListPart;
use state_codec::RecipeLists;

/// What a command makes of a client's state: each part that it changes. A part that isn't there is as before.
#[derive(Drop)]
pub struct StateChange {
    pub enrolment: Option<NextEnrolment>,
    pub events: Option<NextEvents>,
    pub outbox: Option<Outbox>,
    pub preferences: Option<NextPreferences>,
}

/// The next enrolment, and which of its lists are those of before.
#[derive(Drop)]
pub struct NextEnrolment {
    pub state: State,
    pub recipes: RecipeLists,
}

/// The next counts of events, and the part of the names in which they may differ from those of before.
#[derive(Drop)]
pub struct NextEvents {
    pub counts: Counts,
    pub part: ListPart,
}

impl StateChange {
    /// A change of nothing. It takes no memory.
    pub fn none() -> StateChange
        ensures { result ≡ no_change }
    {
        StateChange {
            enrolment: None,
            events: None,
            outbox: None,
            preferences: None,
        }
    }

    /// A change to this enrolment, of which the lists are as before as far as it is said. It takes no memory.
    pub fn of_enrolment(state: State, recipes: RecipeLists) -> StateChange
        ensures { result ≡ of_enrolment state recipes }
    {
        StateChange {
            enrolment: Some(NextEnrolment { state, recipes }),
            ..StateChange::none()
        }
    }

    /// A change to this enrolment, of which the lists are as before but for its parts. It takes no memory.
    pub fn of_next_state(next: NextState) -> StateChange
        ensures { result ≡ of_next_state next }
    {
        let NextState {
            state,
            opted_out,
            rows,
        } = next;
        StateChange::of_enrolment(state, RecipeLists::AllBut { opted_out, rows })
    }

    /// A change to these counts, of which the names are as before but for the part. It takes no memory.
    pub fn of_events(counts: Counts, part: ListPart) -> StateChange
        ensures { result ≡ of_events counts part }
    {
        StateChange {
            events: Some(NextEvents { counts, part }),
            ..StateChange::none()
        }
    }

    /// A change to this enrolment and to these counts. It takes no memory.
    pub fn of_both(
        state: State,
        recipes: RecipeLists,
        counts: Counts,
        part: ListPart,
    ) -> StateChange
        ensures { result ≡ of_both state recipes counts part }
    {
        StateChange {
            events: Some(NextEvents { counts, part }),
            ..StateChange::of_enrolment(state, recipes)
        }
    }

    /// A change to this outbox. It takes no memory.
    pub fn of_outbox(outbox: Outbox) -> StateChange
        ensures { result ≡ of_outbox outbox }
    {
        StateChange {
            outbox: Some(outbox),
            ..StateChange::none()
        }
    }

    /// The next preferences, or those of before.
    pub(crate) fn preferences_or<'a>(&'a self, before: &'a Prefs) -> &'a Prefs
        ensures { result.now ≡ preferences_or self.now.preferences before.now }
    {
        match &self.preferences {
            Some(next) => &next.preferences,
            None => before,
        }
    }
}
