// `reset`: the client begins anew under another id, and its events are forgotten.
ghost use Rattle.std.specs.Prelude.{◌≡◌, [], IfOk};
ghost use Rattle.client_state.specs.Sound.{IsConsistent};
ghost use Rattle.client_steps.specs.declared.session.Session.{Session};
ghost use Rattle.client_steps.specs.Asked.{asked_outcome, FollowsFrom};
ghost use Rattle.client_steps.specs.Steps.{resetting, whole};

use crate::asked::Asked;
use client_state::{ClientState, StateChange};
use client_words::Answer;
use enrol_states::reset;
use event_counts::Counts;
use sequences::ListPart;
use state_codec::RecipeLists;
use std::alloc::{AllocError, Global};
use uuid::Uuid;

/// What `reset` asks for.
pub fn resetting(alloc: Global, state: &ClientState, id: [u8; 16]) -> Result<Asked, AllocError>
    requires { IsConsistent state.now }
    ensures asks { IfOk result (λ asked. (session : Session) → asked_outcome state.now session asked
        ≡ whole state.now session [] (resetting state.now.enrolment session id)) }
    ensures follows { IfOk result (λ asked. FollowsFrom state.now asked) }
{
    let next = reset(alloc, &state.enrolment, Uuid::from_bytes(id))?;
    let events = Counts::new(alloc);
    events.keeps();
    let part = ListPart::whole(state.events.len(), events.len());
    let change = StateChange::of_both(next, RecipeLists::AsBefore, events, part);
    Ok(Asked::new_state(alloc, change, Answer::Okay)?)
}
