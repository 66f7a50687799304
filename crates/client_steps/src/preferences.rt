// `prefs`: the preferences that have a value, as an answer.
ghost use Rattle.std.specs.Prelude.{◌≡◌, IfOk};
ghost use Rattle.client_steps.specs.declared.session.Session.{Session};
ghost use Rattle.client_steps.specs.Asked.{asked_outcome, FollowsFrom};
ghost use Rattle.client_steps.specs.Steps.{listing_preferences};

use crate::asked::Asked;
use client_state::ClientState;
use client_words::Answer;
use std::alloc::AllocError;

/// What `prefs` asks for.
pub fn listing_preferences(state: &ClientState) -> Result<Asked, AllocError>
    ensures asks { IfOk result (λ asked. (session : Session) → asked_outcome state.now session asked ≡ listing_preferences state.now session) }
    ensures follows { IfOk result (λ asked. FollowsFrom state.now asked) }
{
    let preferences = state.preferences.clone()?;
    Ok(Asked::same(Answer::Preferences(preferences)))
}
