// Whether features that may not be shared are left to one recipe of a kind.
ghost use Rattle.std.specs.Prelude.{◌≡◌, ◌↔◌, IsTrue, IfOk, option_map};
ghost use Rattle.enrol_states.specs.Order.{Rise};
ghost use Rattle.enrol_states.specs.State.{slugs_of};
ghost use Rattle.enrol_states.specs.Exclusive.{AreExclusive};
ghost use Rattle.enrol_states.specs.Holding.{enrolled_recipe, AreApart};

use crate::features::{add_all_features, least_shared};
use crate::state::{Row, State};
use recipe_reader::{Kind, Recipe};
use std::alloc::{AllocError, Global};
use std::collections::BTreeSet;

/// Whether no two recipes of one kind in which the client is enrolled share a feature, but for the
/// features that may be shared. The rows are passed once for each kind. The one error is want of
/// memory.
pub fn is_exclusive(alloc: Global, state: &State) -> Result<bool, AllocError>
    requires coenrolling { Rise state.now.coenrolling }
    requires rows { Rise (slugs_of state.now.rows) }
    ensures { IfOk result (λ b. IsTrue b ↔ AreExclusive state.now) }
{
    if !are_apart(alloc, state, Kind::Rollout)? {
        return Ok(false);
    }
    are_apart(alloc, state, Kind::Experiment)
}

/// Whether no two rows hold one feature, of rollouts or of experiments.
fn are_apart(alloc: Global, state: &State, kind: Kind) -> Result<bool, AllocError>
    requires { Rise state.now.coenrolling }
    ensures { IfOk result (λ b. IsTrue b ↔ AreApart state.now kind) }
{
    let mut held = BTreeSet::new(alloc);
    for row in state.rows.as_slice() {
        if let Some(recipe) = enrolled_recipe(state, kind, row) {
            if least_shared(&held, recipe).is_some() {
                return Ok(false);
            }
            add_all_features(&mut held, recipe, &state.coenrolling)?;
        }
    }
    Ok(true)
}

/// The live recipe of the kind in which the client is enrolled by the row.
fn enrolled_recipe<'a>(state: &'a State, kind: Kind, row: &Row) -> Option<&'a Recipe>
    ensures { option_map (λ r. r.now) result ≡ enrolled_recipe state.now kind row.now }
{
    if !row.status.is_enrolled() {
        return None;
    }
    match state.live.get(row.slug.text()) {
        Some(recipe) if recipe.kind() == kind => Some(recipe),
        _ => None,
    }
}
