// `participate`: the client takes part in experiments, in rollouts or in both, or leaves them.
ghost use Rattle.std.specs.Prelude.{◌≡◌, ◌↔◌, true, IfOk, IsTrue};
ghost use Rattle.enrol_states.specs.Commands.{after_participate};
ghost use Rattle.sequences.specs.ListParts.{IsPart};
ghost use Rattle.client_state.specs.Sound.{IsConsistent};
ghost use Rattle.client_steps.specs.declared.session.Session.{Session};
ghost use Rattle.client_steps.specs.Asked.{asked_outcome, FollowsFrom};
ghost use Rattle.client_steps.specs.Steps.{participation, enrolling};

use crate::asked::Asked;
use client_state::ClientState;
use client_words::Answer;
use enrol_states::{Kinds, NextState, State, participate};
use sequences::ListPart;
use std::alloc::{AllocError, Global};

/// What `participate` asks for. Where the client already takes part, and is to, all stays as it is.
pub fn participating(
    alloc: Global,
    state: &ClientState,
    kinds: Kinds,
    on: bool,
) -> Result<Asked, AllocError>
    requires { IsConsistent state.now }
    ensures asks { IfOk result (λ asked. (session : Session) → asked_outcome state.now session asked
        ≡ enrolling state.now session (participation state.now.enrolment session kinds on)) }
    ensures follows { IfOk result (λ asked. FollowsFrom state.now asked) }
{
    if on && takes_part(&state.enrolment, kinds) {
        return Ok(Asked::same(Answer::Okay));
    }
    let next = participate(alloc, &state.enrolment, kinds, on)?;
    let rows = row_part(&state.enrolment, &next, on);
    let next = NextState {
        state: next,
        opted_out: ListPart::none(),
        rows,
    };
    Ok(Asked::chosen(alloc, next)?)
}

// Whether the client already takes part in all recipes of these kinds.
#[tactic(auto, using(crate::proofs::TakingPart::both_told, crate::proofs::TakingPart::experiments_told, crate::proofs::TakingPart::rollouts_told))]
fn takes_part(enrolment: &State, kinds: Kinds) -> bool
    ensures { IsTrue result ↔ (after_participate enrolment.now kinds true ≡ enrolment.now) }
{
    match kinds {
        Kinds::Both => enrolment.experiments && enrolment.rollouts,
        Kinds::Experiments => enrolment.experiments,
        Kinds::Rollouts => enrolment.rollouts,
    }
}

// The part of the rows that may differ: none where the client is to take part.
fn row_part(old: &State, new: &State, on: bool) -> ListPart
    requires { IsTrue on → new.now.rows ≡ old.now.rows }
    ensures { IsPart result old.now.rows new.now.rows }
{
    if on {
        ListPart::none()
    } else {
        ListPart::whole(old.rows.len(), new.rows.len())
    }
}
