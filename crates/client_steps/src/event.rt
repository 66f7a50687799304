// `event`: what the user did is counted.
ghost use Rattle.std.specs.Prelude.{◌≡◌, ◌≤◌, IfOk, IsTrue};
ghost use Rattle.plain_text.specs.Names.{is_name};
ghost use Rattle.enrol_states.specs.State.{last_moment};
ghost use Rattle.client_steps.specs.declared.session.Session.{Session};
ghost use Rattle.client_steps.specs.Asked.{asked_outcome, FollowsFrom};
ghost use Rattle.client_steps.specs.Steps.{counting};

use crate::asked::Asked;
use client_state::{ClientState, StateChange};
use client_words::{Answer, Refusal};
use event_counts::CountFault;
use sequences::Text;
use std::alloc::{AllocError, Global};

/// What `event` asks for at a moment, in whole seconds since 1970.
pub fn counting(
    alloc: Global,
    state: &ClientState,
    name: &Text,
    count: u32,
    now: u64,
) -> Result<Asked, AllocError>
    requires name { IsTrue (is_name name.now) }
    requires moment { now ≤ last_moment }
    ensures asks { IfOk result (λ asked. (session : Session) → asked_outcome state.now session asked
        ≡ counting now state.now session name.now count) }
    ensures follows { IfOk result (λ asked. FollowsFrom state.now asked) }
{
    match state.events.count_in(alloc, name.as_str(), count, now) {
        Ok(counted) => {
            let change = StateChange::of_events(counted.counts, counted.part);
            Ok(Asked::new_state(alloc, change, Answer::Okay)?)
        }
        Err(CountFault::EventLimit) => Ok(Asked::Refused(Refusal::EventLimit)),
        Err(CountFault::OutOfMemory) => Err(AllocError),
    }
}
