// What an apply makes of a client's state.
ghost use Rattle.std.specs.Prelude.{◌≡◌, ◌≤◌, All, IfOk, IsTrue};
ghost use Rattle.plain_text.specs.Names.{is_name};
ghost use Rattle.enrol_states.specs.Consistent.{IsConsistent};
ghost use Rattle.enrol_states.specs.Exclusive.{AreExclusive};
ghost use Rattle.enrol_states.specs.Order.{Rise};
ghost use Rattle.enrol_states.specs.State.{slugs_of};
ghost use Rattle.recipe_reader.specs.Payloads.{AreInOrder, AreValid};
ghost use Rattle.enrol_states.specs.Statuses.{last_moment};
ghost use Rattle.jexl_transforms.specs.Table.{HasStandardNames};
ghost use Rattle.enrol_evolver.specs.Evolution.{evolution, rows_after};

use crate::client::Client;
use crate::merging::merged_rows;
use crate::plan::planned;
use crate::refreshing::refreshed;
use crate::settling::settled_rows;
use crate::targeting::Evaluator;
use app_context::{Context, shared_attributes};
use enrol_conflicts::settle;
use enrol_states::{Row, State};
use jexl_transforms::TransformTable;
use sequences::{Sequence, SharedList, Text};
use std::alloc::{AllocError, Global};

/// The state after an apply, where `coenrolling` are the features that recipes of one kind may
/// share. What was fetched is live; the version is the application's, and the moment of its last
/// change is kept. Each live recipe has a row by the client's verdict on it and its old status, and
/// the wishes to be enrolled are settled. What is left of rows without a live recipe is kept for
/// 365 days. Whatever the recipes or the shared features were before, no two recipes of one kind in
/// which the client is enrolled now share a feature that may not be shared.
pub fn evolve(
    alloc: Global,
    state: &State,
    context: &Context,
    coenrolling: Sequence<Text>,
    table: &TransformTable,
    now: u64,
) -> Result<State, AllocError>
    requires consistent { IsConsistent state.now }
    requires names { All (λ name. IsTrue (is_name name)) coenrolling }
    requires order { Rise coenrolling }
    requires moment { now ≤ last_moment }
    requires table { HasStandardNames table.now }
    ensures evolution { IfOk result (λ next. next ≡ evolution state.now context.now coenrolling now) }
    ensures consistent { IfOk result IsConsistent }
    ensures exclusive { IfOk result AreExclusive }
{
    let mut next = refreshed(alloc, state, context, coenrolling, now)?;
    next.rows = evolved_rows(alloc, &next, context, table, now)?;
    Ok(next)
}

/// The rows after an apply to a refreshed state.
fn evolved_rows(
    alloc: Global,
    state: &State,
    context: &Context,
    table: &TransformTable,
    now: u64,
) -> Result<SharedList<Row>, AllocError>
    requires in_order { AreInOrder state.now.live }
    requires valid { AreValid state.now.live }
    requires rows { Rise (slugs_of state.now.rows) }
    requires opted_out { Rise state.now.opted_out }
    requires table { HasStandardNames table.now }
    requires moment { now ≤ last_moment }
    ensures { IfOk result (λ rows. rows ≡ rows_after context.now state.now now) }
{
    let client = Client {
        state,
        context,
        moment: now,
    };
    let mut evaluator = Evaluator {
        attributes: shared_attributes(alloc, context, state, now)?,
        table,
    };
    let plan = planned(alloc, &client, &mut evaluator)?;
    let granted = settle(alloc, plan.wishes.as_slice(), state.coenrolling.as_slice())?;
    let live_rows = settled_rows(alloc, plan, granted.as_slice())?;
    merged_rows(alloc, &client, live_rows)
}
