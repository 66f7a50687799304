// `changes`: the changes of enrolments that the host application hasn't confirmed, as an answer.
ghost use Rattle.std.specs.Prelude.{◌≡◌, IfOk};
ghost use Rattle.client_steps.specs.declared.session.Session.{Session};
ghost use Rattle.client_steps.specs.Asked.{asked_outcome, FollowsFrom};
ghost use Rattle.client_steps.specs.Steps.{listing_changes};

use crate::asked::Asked;
use client_state::ClientState;
use client_words::Answer;
use std::alloc::AllocError;

/// What `changes` asks for. The entries are shared.
pub fn listing_changes(state: &ClientState) -> Result<Asked, AllocError>
    ensures asks { IfOk result (λ asked. (session : Session) → asked_outcome state.now session asked ≡ listing_changes state.now session) }
    ensures follows { IfOk result (λ asked. FollowsFrom state.now asked) }
{
    let changes = state.outbox.shared_entries()?;
    Ok(Asked::same(Answer::Changes(changes)))
}
