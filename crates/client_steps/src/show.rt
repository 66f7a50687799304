// `show`: the state is shown.
ghost use Rattle.std.specs.Prelude.{◌≡◌, IfOk};
ghost use Rattle.client_steps.specs.declared.session.Session.{Session};
ghost use Rattle.client_steps.specs.Asked.{asked_outcome, FollowsFrom};
ghost use Rattle.client_steps.specs.Steps.{shown_answer, showing};

use crate::asked::Asked;
use client_state::ClientState;
use client_words::Answer;
use enrol_states::State;
use std::alloc::AllocError;

/// What `show` asks for.
pub fn showing(state: &ClientState) -> Result<Asked, AllocError>
    ensures asks { IfOk result (λ asked. (session : Session) → asked_outcome state.now session asked ≡ showing state.now session) }
    ensures follows { IfOk result (λ asked. FollowsFrom state.now asked) }
{
    let answer = answer_of(&state.enrolment)?;
    Ok(Asked::same(answer))
}

/// The answer that shows a state.
fn answer_of(state: &State) -> Result<Answer, AllocError>
    ensures { IfOk result (λ answer. answer ≡ shown_answer state.now) }
{
    Ok(Answer::Shown {
        id: state.id,
        experiments: state.experiments,
        rollouts: state.rollouts,
        pending: state.pending.is_some(),
        opted_out: state.opted_out.clone()?,
        rows: state.rows.clone()?,
    })
}
