// The verdict on a recipe.
ghost use Rattle.std.specs.Prelude.{◌≡◌, ◌≤◌, IfOk, option_map};
ghost use Rattle.recipe_reader.specs.Records.{IsValid};
ghost use Rattle.enrol_states.specs.Order.{Rise};
ghost use Rattle.enrol_states.specs.State.{slugs_of};
ghost use Rattle.enrol_states.specs.Statuses.{is_enrolled_now, last_moment};
ghost use Rattle.jexl_transforms.specs.Table.{HasStandardNames};
ghost use Rattle.enrol_evolver.specs.Clients.{of_client, IsInOrder, IsReadyFor};
ghost use Rattle.enrol_evolver.specs.Verdicts.{verdict, verdict_from, is_out, chosen, judged, differs, opted_in_branch};

use crate::client::Client;
use crate::samples::sampled;
use crate::targeting::{Evaluator, Targeting, targeting_of};
use app_context::{Context, shared_attributes};
use enrol_states::{EnrolledReason, State, Status, Verdict};
use jexl_transforms::TransformTable;
use plain_text::Slug;
use recipe_reader::Recipe;
use sequences::Text;
use std::alloc::{AllocError, Global};

/// What is found of a client and a valid recipe, of which the client's row in the state is the old
/// one: the first that applies of another application, another channel, an opt-out of the slug or
/// of the recipe's kind, a pause (unless the client is enrolled), targeting, and sampling. Where
/// the user opted in, an opt-out alone counts.
pub fn verdict(
    alloc: Global,
    recipe: &Recipe,
    state: &State,
    context: &Context,
    table: &TransformTable,
    now: u64,
) -> Result<Verdict, AllocError>
    requires valid { IsValid recipe.now }
    requires opted_out { Rise state.now.opted_out }
    requires rows { Rise (slugs_of state.now.rows) }
    requires table { HasStandardNames table.now }
    requires moment { now ≤ last_moment }
    ensures { IfOk result (λ v. v ≡ verdict context.now state.now now recipe.now) }
{
    let client = Client {
        state,
        context,
        moment: now,
    };
    let mut evaluator = Evaluator {
        attributes: shared_attributes(alloc, context, state, now)?,
        table,
    };
    let old = state.status_of(recipe.slug.text());
    verdict_from(alloc, &client, &mut evaluator, recipe, old)
}

/// The verdict on a recipe of which the client has this old status or none.
pub(crate) fn verdict_from(
    alloc: Global,
    client: &Client,
    evaluator: &mut Evaluator,
    recipe: &Recipe,
    old: Option<&Status>,
) -> Result<Verdict, AllocError>
    requires valid { IsValid recipe.now }
    requires in_order { IsInOrder client.now }
    requires ready { IsReadyFor client.now evaluator.old }
    ensures verdict { IfOk result (λ v. v ≡ of_client verdict_from client.now recipe.now (option_map (λ s. s.now) old.entry)) }
    ensures ready { IsReadyFor client.now evaluator.new }
{
    match opted_in_branch(old) {
        Some(branch) => chosen(client.state, recipe, branch),
        None => judged(alloc, client, evaluator, recipe, is_enrolled(old)),
    }
}

/// The branch that the user opted in to.
fn opted_in_branch<'a>(old: Option<&'a Status>) -> Option<&'a Slug>
    ensures { option_map (λ b. b.now) result ≡ opted_in_branch (option_map (λ s. s.now) old.entry) }
{
    match old {
        Some(
            Status::Enrolled {
                reason: EnrolledReason::OptIn,
                branch,
            },
        ) => Some(branch),
        _ => None,
    }
}

/// Whether the client is enrolled.
pub(crate) fn is_enrolled(old: Option<&Status>) -> bool
    ensures { result ≡ is_enrolled_now (option_map (λ s. s.now) old.entry) }
{
    match old {
        Some(status) => status.is_enrolled(),
        None => false,
    }
}

/// The verdict on a recipe of which the user chose the branch.
fn chosen(state: &State, recipe: &Recipe, branch: &Slug) -> Result<Verdict, AllocError>
    requires { Rise state.now.opted_out }
    ensures { IfOk result (λ v. v ≡ chosen state.now recipe.now branch.now) }
{
    if is_out(state, recipe) {
        return Ok(Verdict::OptOut);
    }
    Ok(Verdict::Qualified(branch.clone()?))
}

/// Whether the user opted out of the recipe, or of all of its kind.
fn is_out(state: &State, recipe: &Recipe) -> bool
    requires { Rise state.now.opted_out }
    ensures { result ≡ is_out state.now recipe.now }
{
    state.is_opted_out(recipe.slug.text()) || !state.takes_part(recipe.kind())
}

/// The verdict on a recipe that the user didn't opt in to.
fn judged(
    alloc: Global,
    client: &Client,
    evaluator: &mut Evaluator,
    recipe: &Recipe,
    is_enrolled: bool,
) -> Result<Verdict, AllocError>
    requires valid { IsValid recipe.now }
    requires in_order { IsInOrder client.now }
    requires ready { IsReadyFor client.now evaluator.old }
    ensures verdict { IfOk result (λ v. v ≡ of_client judged client.now recipe.now is_enrolled) }
    ensures ready { IsReadyFor client.now evaluator.new }
{
    if differs(&recipe.app_name, &client.context.app_name) {
        return Ok(Verdict::DifferentAppName);
    }
    if differs(&recipe.channel, &client.context.channel) {
        return Ok(Verdict::DifferentChannel);
    }
    if is_out(client.state, recipe) {
        return Ok(Verdict::OptOut);
    }
    if recipe.paused && !is_enrolled {
        return Ok(Verdict::EnrollmentsPaused);
    }
    match targeting_of(alloc, client, evaluator, recipe)? {
        Targeting::Passes => sampled(alloc, client, recipe),
        Targeting::Misses => Ok(Verdict::NotTargeted),
        Targeting::Fails(cause) => Ok(Verdict::Failed(cause)),
    }
}

/// Whether a name is there, and isn't the client's own.
fn differs(name: &Option<Text>, own: &Text) -> bool
    ensures { result ≡ differs name.now own.now }
{
    match name {
        Some(name) => name != own,
        None => false,
    }
}
