// What a command asks for.
ghost use Rattle.std.specs.Prelude.{◌≡◌, IfOk};
ghost use Rattle.client_state.specs.Changes.{of_enrolment, of_next_state};

use crate::session::SessionChange;
use client_state::{BoxedChange, StateChange};
use client_words::{Answer, Refusal};
use enrol_states::{NextState, State};
use state_codec::RecipeLists;
use std::alloc::{AllocError, Global};

/// What a command asks for. What it leaves is known once the new state's size is.
#[derive(Drop)]
pub enum Asked {
    /// A new state, in the same session. What follows it isn't in the change yet.
    NewState {
        change: BoxedChange,
        answer: Answer,
    },
    /// A new state with all that follows it, in the same session.
    Followed {
        change: BoxedChange,
        answer: Answer,
    },
    /// The same state.
    SameState {
        change: SessionChange,
        answer: Answer,
    },
    /// Nothing: it is refused.
    Refused(Refusal),
}

impl Asked {
    /// A new state, in the same session.
    pub(crate) fn new_state(
        alloc: Global,
        change: StateChange,
        answer: Answer,
    ) -> Result<Asked, AllocError>
        ensures { IfOk result (λ asked. asked ≡ Asked.NewState change answer) }
    {
        let change = BoxedChange::new(alloc, change)?;
        Ok(Asked::NewState { change, answer })
    }

    /// A new enrolment, in the same session.
    pub(crate) fn enrolled(
        alloc: Global,
        enrolment: State,
        recipes: RecipeLists,
        answer: Answer,
    ) -> Result<Asked, AllocError>
        ensures { IfOk result (λ asked. asked ≡ Asked.NewState (of_enrolment enrolment recipes) answer) }
    {
        let change = StateChange::of_enrolment(enrolment, recipes);
        Asked::new_state(alloc, change, answer)
    }

    /// What a user chose: a new enrolment of which the lists are as before but for its parts, in the same session.
    pub(crate) fn chosen(alloc: Global, next: NextState) -> Result<Asked, AllocError>
        ensures { IfOk result (λ asked. asked ≡ Asked.NewState (of_next_state next) Answer.Okay) }
    {
        let change = StateChange::of_next_state(next);
        Asked::new_state(alloc, change, Answer::Okay)
    }

    /// The same state, in another session.
    pub(crate) fn in_session(change: SessionChange) -> Asked
        ensures { result ≡ Asked.SameState change Answer.Okay }
    {
        Asked::SameState {
            change,
            answer: Answer::Okay,
        }
    }

    /// All stays as it is.
    pub(crate) fn same(answer: Answer) -> Asked
        ensures { result ≡ Asked.SameState SessionChange.Stays answer }
    {
        Asked::SameState {
            change: SessionChange::Stays,
            answer,
        }
    }
}
