// `opt-in`: the client is enrolled in a branch that its user chose.
ghost use Rattle.std.specs.Prelude.{◌≡◌, IfOk};
ghost use Rattle.client_state.specs.Sound.{IsConsistent};
ghost use Rattle.client_steps.specs.declared.session.Session.{Session};
ghost use Rattle.client_steps.specs.Asked.{asked_outcome, FollowsFrom};
ghost use Rattle.client_steps.specs.Steps.{opting_in, enrolling};

use crate::asked::Asked;
use client_state::ClientState;
use client_words::Refusal;
use enrol_states::{OptInFault, opt_in};
use plain_text::Slug;
use std::alloc::{AllocError, Global};

/// What `opt-in` asks for. The state is lent to that, and stays the same.
pub fn opting_in(
    alloc: Global,
    state: &mut ClientState,
    slug: &Slug,
    branch: &Slug,
) -> Result<Asked, AllocError>
    requires { IsConsistent state.old }
    ensures same { state.new ≡ state.old }
    ensures asks { IfOk result (λ asked. (session : Session) → asked_outcome state.old session asked
        ≡ enrolling state.old session (opting_in state.old.enrolment session slug.now branch.now)) }
    ensures follows { IfOk result (λ asked. FollowsFrom state.old asked) }
{
    match opt_in(alloc, &mut state.enrolment, slug, branch) {
        Ok(next) => Asked::chosen(alloc, next),
        Err(OptInFault::NoSuchExperiment) => Ok(Asked::Refused(Refusal::NoSuchExperiment)),
        Err(OptInFault::NotParticipating) => Ok(Asked::Refused(Refusal::NotParticipating)),
        Err(OptInFault::NoSuchBranch) => Ok(Asked::Refused(Refusal::NoSuchBranch)),
        Err(OptInFault::FeatureTaken(holder, feature)) => {
            Ok(Asked::Refused(Refusal::FeatureTaken(holder, feature)))
        }
        Err(OptInFault::OutOfMemory) => Err(AllocError),
    }
}
