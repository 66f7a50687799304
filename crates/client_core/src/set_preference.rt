// `set-pref` and `clear-pref`: the user sets the value of a preference, or takes it away.
ghost use Rattle.std.specs.Prelude.{◌≡◌, ⊤, IfOk, IsErrOf, IsTrue, MatchOption, None, option_map};
ghost use Rattle.plain_text.specs.Names.{is_name};
ghost use Rattle.enrol_states.specs.Commands.{enrolment_ended};
ghost use Rattle.enrol_states.specs.Consistent as states;
ghost use Rattle.enrol_states.specs.NextStates.{HasParts};
ghost use Rattle.pref_bindings.specs.Preferences.{IsValue, holder_of};
ghost use Rattle.client_state.specs.Changes.{IsWholeChangeOf, state_after};
ghost use Rattle.client_words.specs.declared.answer.Answer.TheVariants.{Okay};
ghost use Rattle.client_words.specs.declared.refusal.Refusal.TheVariants.{ChangesSpent};
ghost use Rattle.client_steps.specs.Asked.{asked_outcome, FollowsFrom};
ghost use Rattle.client_steps.specs.Steps.{Accepted, Refused, preferring, releasing};

use crate::client::Client;
use change_outbox::AppendChangesFault;
use client_state::{BoxedChange, StateChange};
use client_steps::Asked;
use client_words::{Answer, Refusal};
use enrol_states::{NextState, end_enrolment};
use json_tree::Tree;
use plain_text::Slug;
use sequences::Text;
use std::alloc::{AllocError, Global};

impl Client {
    ghost use Rattle.client_core.specs.Clients.{state_of, session_of};

    /// What `set-pref`, with a value, or `clear-pref` asks for. Where a slug holds the preference, its enrolment ends first.
    pub(crate) fn preferring(
        &mut self,
        alloc: Global,
        name: &Text,
        value: Option<&Tree>,
    ) -> Result<Asked, AllocError>
        requires name { IsTrue (is_name name.now) }
        requires value { MatchOption value ⊤ (λ v. IsValue v.now) }
        ensures same { self.new ≡ self.old }
        ensures asks { IfOk result (λ asked. asked_outcome (state_of self.old) (session_of self.old) asked
            ≡ preferring (state_of self.old) (session_of self.old) name.now (option_map (λ v. v.now) value.entry)) }
        ensures follows { IfOk result (λ asked. FollowsFrom (state_of self.old) asked) }
    {
        match self.released(alloc, name) {
            Ok(mut change) => {
                self.store.set_preference(&mut change, name, value)?;
                Ok(Asked::Followed {
                    change: BoxedChange::new(alloc, change)?,
                    answer: Answer::Okay,
                })
            }
            Err(AppendChangesFault::ChangesSpent) => Ok(Asked::Refused(Refusal::ChangesSpent)),
            Err(AppendChangesFault::OutOfMemory) => Err(AllocError),
        }
    }

    // The change after which nobody holds the preference, with all that follows it.
    fn released(&mut self, alloc: Global, name: &Text) -> Result<StateChange, AppendChangesFault>
        ensures same { self.new ≡ self.old }
        ensures released { IfOk result (λ change. Accepted (state_after change (state_of self.old)) (session_of self.old) Okay
            ≡ releasing (state_of self.old) (session_of self.old) (holder_of name.now (state_of self.old).preferences)) }
        ensures change { IfOk result (IsWholeChangeOf (state_of self.old)) }
        ensures free { IfOk result (λ change. holder_of name.now (state_after change (state_of self.old)).preferences ≡ None) }
        ensures spent { IsErrOf result AppendChangesFault.ChangesSpent
            → releasing (state_of self.old) (session_of self.old) (holder_of name.now (state_of self.old).preferences) ≡ Refused ChangesSpent }
    {
        let Some(holder) = self.prefs().holder(name.as_str()) else {
            return Ok(StateChange::none());
        };
        let slug = holder.clone()?;
        let ended = self.ended(&slug)?;
        let mut change = StateChange::of_next_state(ended);
        self.followed(alloc, &mut change)?;
        Ok(change)
    }

    // The enrolment in which that of the slug has ended. The state is lent to that, and stays the same.
    fn ended(&mut self, slug: &Slug) -> Result<NextState, AllocError>
        ensures same { self.new ≡ self.old }
        ensures state { IfOk result (λ next. next.state ≡ enrolment_ended slug.now (state_of self.old).enrolment) }
        ensures parts { IfOk result (HasParts (state_of self.old).enrolment) }
        ensures consistent { IfOk result (λ next. states.IsConsistent next.state) }
    {
        // Its contract says that the state is sound.
        self.state();
        self.store
            .lend(|state| end_enrolment(&mut state.enrolment, slug))
    }
}
