// `apply`: enrolments follow the recipes. Targeting sees the counts of events at the moment.
ghost use Rattle.std.specs.Prelude.{◌≡◌, ◌≤◌, ℕ, List, count_by, IfOk};
ghost use Rattle.app_context.specs.declared.context.Context.{Context};
ghost use Rattle.enrol_evolver.specs.Evolution.{evolution};
ghost use Rattle.enrol_states.specs.State.{last_moment};
ghost use Rattle.enrol_states.specs.Statuses.{is_enrolled};
ghost use Rattle.jexl_transforms.specs.Table.{HasStandardNames};
ghost use Rattle.state_codec.specs.RecipeLists.{HasLists};
ghost use Rattle.client_state.specs.Sound.{IsConsistent};
ghost use Rattle.client_steps.specs.Asked.{asked_outcome, FollowsFrom};
ghost use Rattle.client_steps.specs.Steps.{applying, applied_answer, enrolling, seeing};

use crate::asked::Asked;
use crate::session::Session;
use app_context::with_events;
use client_state::ClientState;
use client_words::{Answer, Refusal};
use enrol_evolver::evolve;
use enrol_states::{Row, State};
use jexl_transforms::TransformTable;
use state_codec::RecipeLists;
use std::alloc::{AllocError, Global};

/// What `apply` asks for at a moment, in whole seconds since 1970. The table has the transforms that targeting may name.
pub fn applying(
    alloc: Global,
    state: &ClientState,
    session: &Session,
    table: &TransformTable,
    now: u64,
) -> Result<Asked, AllocError>
    requires consistent { IsConsistent state.now }
    requires moment { now ≤ last_moment }
    requires table { HasStandardNames table.now }
    ensures asks { IfOk result (λ asked. asked_outcome state.now session.now asked
        ≡ enrolling state.now session.now (applying now state.now.enrolment session.now session.now.manifest (seeing now state.now.events session.now.context))) }
    ensures follows { IfOk result (λ asked. FollowsFrom state.now asked) }
{
    let Some(linked) = &session.manifest else {
        return Ok(Asked::Refused(Refusal::NoManifest));
    };
    let Some(context) = &session.context else {
        return Ok(Asked::Refused(Refusal::NoContext));
    };
    let context = with_events(context.get(), &state.events.view(alloc, now)?)?;
    let coenrolling = linked.coenrolling(alloc)?;
    let next = evolve(alloc, &state.enrolment, &context, coenrolling, table, now)?;
    let recipes = applied_lists(&state.enrolment);
    let answer = applied_answer(&next);
    Ok(Asked::enrolled(alloc, next, recipes, answer)?)
}

/// What an apply makes of the lists of recipes: they stay where none are pending.
fn applied_lists(state: &State) -> RecipeLists
    ensures { (context : Context) (coenrolling : List (List ℕ)) (now : ℕ) → HasLists result state.now (evolution state.now context coenrolling now) }
{
    match &state.pending {
        Some(_) => RecipeLists::MayDiffer,
        None => RecipeLists::AsBefore,
    }
}

/// The answer of `apply` that leaves this state.
fn applied_answer(state: &State) -> Answer
    ensures { result ≡ applied_answer state.now }
{
    let rows = state.rows.as_slice();
    Answer::Applied {
        enrolled: enrolled_rows(rows),
        rows: rows.len(),
    }
}

/// In how many recipes the client is enrolled.
fn enrolled_rows(rows: &[Row]) -> usize
    ensures { result ≡ count_by (λ row. is_enrolled row.status) rows.now }
{
    rows.iter().filter(|row| row.status.is_enrolled()).count()
}
