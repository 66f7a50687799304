//! Rows on the attributes of a client.
ghost use Rattle.std.specs.Prelude.{◌≤◌};
ghost use Rattle.enrol_states.specs.Order.{Rise};
ghost use Rattle.enrol_states.specs.State.{last_moment, slugs_of};

use crate::clients::NOW;
use crate::enrolment_rows::{add_rows, rise};
use crate::inputs::{add_tree, number, slug, tree};
use app_context::{Context, attributes, read_context, set_already_enrolled, shared_attributes};
use enrol_states::State;
use jexl_value::{Attributes, Value, tree_of};
use plain_text::{LAST_MOMENT, Slug};
use row_tables::{Fault, Found, parts};
use std::alloc::{AllocError, Global};
use uuid::Uuid;

// A row of each status, and two of those that are enrolled.
const ROWS: &str =
    "a OptedIn treatment, b NotEnrolled, c Disqualified Error control, d WasEnrolled blue, e Error, f Enrolled red";

/// The attributes of a client for the recipe of a slug, over a context. They are the same where those of another recipe
/// were there before. Row: `new`, for a client without rows, or `old`, for one that has a row of each status and was
/// updated a day before it was installed; then the slug, and how many seconds later than the install it is.
pub(crate) fn find_attributes(
    alloc: Global,
    state: &mut State,
    given: &str,
    input: &str,
    found: &mut Found,
) -> Result<(), Fault> {
    let context = context(alloc, given)?;
    find_attributes_in(alloc, &context, state, input, found)
}

/// The context of a JSON text.
pub(crate) fn context(alloc: Global, text: &str) -> Result<Context, Fault> {
    let tree = tree(alloc, text)?;
    read_context(alloc, &tree).ok().ok_or(Fault::NoRow)
}

fn find_attributes_in(
    alloc: Global,
    context: &Context,
    state: &mut State,
    input: &str,
    found: &mut Found,
) -> Result<(), Fault> {
    let (client, asked) = parts(input)?;
    state.id = id()?;
    if client == "old" {
        state.updated = NOW - 86_400;
        add_rows(alloc, ROWS, &mut state.rows)?;
    }
    find_attributes_for(alloc, context, state, asked, found)
}

fn id() -> Result<Uuid, Fault> {
    match Uuid::parse_str("5a8f0b1e-7c3d-4e2a-9b6c-0123456789ab") {
        Ok(id) => Ok(id),
        Err(_) => Err(Fault::NoRow),
    }
}

fn find_attributes_for(
    alloc: Global,
    context: &Context,
    state: &State,
    asked: &str,
    found: &mut Found,
) -> Result<(), Fault> {
    let (about, later) = parts(asked)?;
    let now = moment(later)?;
    if now > LAST_MOMENT || !rise(state.rows.as_slice()) {
        return Err(Fault::NoRow);
    }
    let recipe = slug(alloc, about)?;
    find_both(alloc, context, state, &recipe, now, found)
}

// So many seconds later than the install, or one earlier at `-1`.
fn moment(later: &str) -> Result<u64, Fault> {
    if later == "-1" {
        return Ok(NOW - 1);
    }
    Ok(NOW.saturating_add(number(later)?))
}

fn find_both(
    alloc: Global,
    context: &Context,
    state: &State,
    recipe: &Slug,
    now: u64,
    found: &mut Found,
) -> Result<(), Fault>
    requires rows { Rise (slugs_of state.now.rows) }
    requires moment { now ≤ last_moment }
{
    add_attributes(
        alloc,
        attributes(alloc, context, state, recipe, now)?,
        found,
    )?;
    let mut shared = Found::new(alloc);
    find_shared(alloc, context, state, recipe, now, &mut shared)?;
    if shared.as_str() != found.as_str() {
        found.text(", others are shared");
    }
    Ok(())
}

// Adds the attributes for a recipe where those of another one were there before.
fn find_shared(
    alloc: Global,
    context: &Context,
    state: &State,
    recipe: &Slug,
    now: u64,
    found: &mut Found,
) -> Result<(), Fault>
    requires rows { Rise (slugs_of state.now.rows) }
    requires moment { now ≤ last_moment }
{
    let mut shared = shared_attributes(alloc, context, state, now)?;
    set_after_another(alloc, &mut shared, state, recipe)?;
    Ok(add_attributes(alloc, shared, found)?)
}

fn set_after_another(
    alloc: Global,
    shared: &mut Attributes,
    state: &State,
    recipe: &Slug,
) -> Result<(), Fault>
    requires { Rise (slugs_of state.now.rows) }
{
    if shared.get("is_already_enrolled").is_some() {
        return Err(Fault::NoRow);
    }
    let another = slug(alloc, "another")?;
    set_already_enrolled(alloc, shared, state, &another)?;
    Ok(set_already_enrolled(alloc, shared, state, recipe)?)
}

fn add_attributes(
    alloc: Global,
    attributes: Attributes,
    found: &mut Found,
) -> Result<(), AllocError> {
    let value = Value::Object(attributes.pairs);
    let tree = tree_of(alloc, &value)?;
    add_tree(alloc, &tree, found);
    Ok(())
}
