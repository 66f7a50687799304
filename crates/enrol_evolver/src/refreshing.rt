// The state with the recipes, the features that may be shared and the version of an apply.
ghost use Rattle.std.specs.Prelude.{◌≡◌, IfOk, IsUtf8};
ghost use Rattle.enrol_evolver.specs.Evolution.{refreshed, version_of, live_after, updated_after};

use app_context::{Context, ContextKey};
use enrol_states::State;
use recipe_reader::Recipes;
use sequences::{Sequence, SharedList, Text};
use std::alloc::{AllocError, Global};

/// The state with the recipes, the features that may be shared and the version of this apply, and
/// with its old rows, which it shares.
pub(crate) fn refreshed(
    alloc: Global,
    state: &State,
    context: &Context,
    coenrolling: Sequence<Text>,
    now: u64,
) -> Result<State, AllocError>
    ensures state { IfOk result (λ s. s ≡ refreshed state.now context.now coenrolling now) }
    ensures version { IfOk result (λ s. IsUtf8 s.version) }
{
    let version = version_of(alloc, context)?;
    let updated = if state.version == version {
        state.updated
    } else {
        now
    };
    version.as_str();
    Ok(State {
        id: state.id,
        installed: state.installed,
        updated,
        version,
        experiments: state.experiments,
        rollouts: state.rollouts,
        opted_out: state.opted_out.clone()?,
        coenrolling: SharedList::from_sequence(alloc, coenrolling)?,
        live: live_after(state)?,
        pending: None,
        rows: state.rows.clone()?,
    })
}

/// The application's version; empty where the context has none.
fn version_of(alloc: Global, context: &Context) -> Result<Text, AllocError>
    ensures { IfOk result (λ t. t ≡ version_of context.now) }
{
    match context.text(ContextKey::AppVersion) {
        Some(version) => version.clone(),
        None => Ok(Text::from_string(String::new(alloc))),
    }
}

/// What was fetched, or else what is live.
fn live_after(state: &State) -> Result<Recipes, AllocError>
    ensures { IfOk result (λ rs. rs ≡ live_after state.now) }
{
    match &state.pending {
        Some(recipes) => recipes.clone(),
        None => state.live.clone(),
    }
}
