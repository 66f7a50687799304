// `opt-out`: nothing of a slug is enrolled any more.
ghost use Rattle.std.specs.Prelude.{◌≡◌, IfOk};
ghost use Rattle.client_state.specs.Sound.{IsConsistent};
ghost use Rattle.client_steps.specs.declared.session.Session.{Session};
ghost use Rattle.client_steps.specs.Asked.{asked_outcome, FollowsFrom};
ghost use Rattle.client_steps.specs.Steps.{opting_out, enrolling};

use crate::asked::Asked;
use client_state::ClientState;
use client_words::Refusal;
use enrol_states::{OptOutFault, opt_out};
use plain_text::Slug;
use std::alloc::{AllocError, Global};

/// What `opt-out` asks for. The state is lent to that, and stays the same.
pub fn opting_out(alloc: Global, state: &mut ClientState, slug: &Slug) -> Result<Asked, AllocError>
    requires { IsConsistent state.old }
    ensures same { state.new ≡ state.old }
    ensures asks { IfOk result (λ asked. (session : Session) → asked_outcome state.old session asked
        ≡ enrolling state.old session (opting_out state.old.enrolment session slug.now)) }
    ensures follows { IfOk result (λ asked. FollowsFrom state.old asked) }
{
    match opt_out(alloc, &mut state.enrolment, slug) {
        Ok(next) => Asked::chosen(alloc, next),
        Err(OptOutFault::OptedOutLimit) => Ok(Asked::Refused(Refusal::OptedOutLimit)),
        Err(OptOutFault::OutOfMemory) => Err(AllocError),
    }
}
