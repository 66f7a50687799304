//! Rows on the verdict on a recipe, of which the client has a row or none.
ghost use Rattle.std.specs.Prelude.{◌≡◌, ◌++◌, ◌∷◌, [], IsTrue, OnOk};
ghost use Rattle.enrol_states.specs.Consistent.{IsConsistent};
ghost use Rattle.jexl_transforms.specs.Answering.{AnswersAs};
ghost use Rattle.jexl_transforms.specs.Meaning.{is_standard};
ghost use Rattle.jexl_transforms.specs.Table.{HasStandardNames, names_of};
ghost use Rattle.recipe_reader.specs.Records.{IsValid};

use crate::attributes::context;
use crate::choices;
use crate::clients::{NOW, alpha};
use crate::records::recipe;
use app_context::Context;
use enrol_evolver::{evolve, verdict};
use enrol_states::{State, Verdict};
use jexl_transforms::{
    Transform, TransformTable, bucket_transform, date_transform, event_nonzero_transform,
    event_seen_transform, event_sum_transform, version_transform,
};
use jexl_value::{Attributes, Value};
use recipe_reader::Recipe;
use row_tables::{Fault, Found, parts};
use sequences::Sequence;
use std::alloc::Global;

// An application with a unit beside the client's id.
const CONTEXT: &str =
    "{\"app_name\":\"fenix\",\"channel\":\"release\",\"units\":{\"user_id\":\"u1\"}}";

/// The verdict on a recipe. Given: what is sampled, and the first and the number of the buckets that may enrol, of
/// 10,000. Row: what the record has besides, and what the client did before with the recipe that has nothing besides:
/// `apply`, or a line of the rows on choices.
pub(crate) fn find_verdict(
    alloc: Global,
    state: &mut State,
    given: &str,
    input: &str,
    found: &mut Found,
) -> Result<(), Fault>
    requires { IsConsistent state.old }
{
    let (Ok(version), Ok(date), Ok(bucket), Ok(sum), Ok(nonzero), Ok(seen)) = (
        Box::new(
            alloc,
            |attributes: &Attributes, subject: &Value, arguments: &[Value]| {
                version_transform(attributes, subject, arguments)
            },
        ),
        Box::new(
            alloc,
            |attributes: &Attributes, subject: &Value, arguments: &[Value]| {
                date_transform(attributes, subject, arguments)
            },
        ),
        Box::new(
            alloc,
            move |attributes: &Attributes, subject: &Value, arguments: &[Value]| {
                bucket_transform(alloc, attributes, subject, arguments)
            },
        ),
        Box::new(
            alloc,
            |attributes: &Attributes, subject: &Value, arguments: &[Value]| {
                event_sum_transform(attributes, subject, arguments)
            },
        ),
        Box::new(
            alloc,
            |attributes: &Attributes, subject: &Value, arguments: &[Value]| {
                event_nonzero_transform(attributes, subject, arguments)
            },
        ),
        Box::new(
            alloc,
            |attributes: &Attributes, subject: &Value, arguments: &[Value]| {
                event_seen_transform(attributes, subject, arguments)
            },
        ),
    ) else {
        return Err(Fault::OutOfMemory);
    };
    let mut table = TransformTable::new(alloc);
    let (Ok(()), Ok(()), Ok(()), Ok(()), Ok(()), Ok(())) = (
        put(alloc, &mut table, "versionCompare", version),
        put(alloc, &mut table, "date", date),
        put(alloc, &mut table, "bucketSample", bucket),
        put(alloc, &mut table, "eventSum", sum),
        put(alloc, &mut table, "eventCountNonZero", nonzero),
        put(alloc, &mut table, "eventLastSeen", seen),
    ) else {
        return Err(Fault::OutOfMemory);
    };
    find_verdict_in(alloc, &table, state, given, input, found)
}

// Puts a transform of a standard name at the end of a table.
fn put(
    alloc: Global,
    table: &mut TransformTable,
    name: &str,
    transform: Transform,
) -> Result<(), Fault>
    requires standard { IsTrue (is_standard name.now) }
    requires callable { Transform.IsAlwaysCallable transform }
    requires answers { AnswersAs name.now (Transform.post transform) }
    ensures { OnOk result (names_of table.new ≡ names_of table.old ++ name.now ∷ []) }
{
    table
        .push(alloc, name, transform)
        .ok()
        .ok_or(Fault::OutOfMemory)
}

fn find_verdict_in(
    alloc: Global,
    table: &TransformTable,
    state: &mut State,
    given: &str,
    input: &str,
    found: &mut Found,
) -> Result<(), Fault>
    requires table { HasStandardNames table.now }
    requires consistent { IsConsistent state.old }
{
    let context = context(alloc, CONTEXT)?;
    find_verdict_after(alloc, table, &context, state, given, input, found)
}

fn find_verdict_after(
    alloc: Global,
    table: &TransformTable,
    context: &Context,
    state: &mut State,
    given: &str,
    input: &str,
    found: &mut Found,
) -> Result<(), Fault>
    requires table { HasStandardNames table.now }
    requires consistent { IsConsistent state.old }
{
    let (members, lines) = parts(input)?;
    do_lines(alloc, table, context, state, lines)?;
    let recipe = recipe(alloc, alpha(given, members))?;
    let outcome = add_verdict_on(alloc, table, context, state, &recipe, found);
    drop(recipe);
    outcome
}

fn do_lines(
    alloc: Global,
    table: &TransformTable,
    context: &Context,
    state: &mut State,
    lines: &str,
) -> Result<(), Fault>
    requires consistent { IsConsistent state.old }
    requires table { HasStandardNames table.now }
    ensures { OnOk result (IsConsistent state.new) }
{
    for line in lines.split(',') {
        do_line(alloc, table, context, state, line.trim())?;
    }
    Ok(())
}

fn do_line(
    alloc: Global,
    table: &TransformTable,
    context: &Context,
    state: &mut State,
    line: &str,
) -> Result<(), Fault>
    requires consistent { IsConsistent state.old }
    requires table { HasStandardNames table.now }
    ensures { OnOk result (IsConsistent state.new) }
{
    if line == "apply" {
        return apply(alloc, table, context, state);
    }
    choices::do_line(alloc, state, line)
}

fn apply(
    alloc: Global,
    table: &TransformTable,
    context: &Context,
    state: &mut State,
) -> Result<(), Fault>
    requires consistent { IsConsistent state.old }
    requires table { HasStandardNames table.now }
    ensures { OnOk result (IsConsistent state.new) }
{
    let next = evolve(alloc, state, context, Sequence::new(alloc), table, NOW)?;
    drop(std::mem::replace(state, next));
    Ok(())
}

fn add_verdict_on(
    alloc: Global,
    table: &TransformTable,
    context: &Context,
    state: &State,
    recipe: &Recipe,
    found: &mut Found,
) -> Result<(), Fault>
    requires table { HasStandardNames table.now }
    requires consistent { IsConsistent state.now }
    requires valid { IsValid recipe.now }
{
    let verdict = verdict(alloc, recipe, state, context, table, NOW)?;
    Ok(add_verdict(&verdict, found))
}

fn add_verdict(verdict: &Verdict, found: &mut Found) {
    match verdict {
        Verdict::DifferentAppName => found.text("DifferentAppName"),
        Verdict::DifferentChannel => found.text("DifferentChannel"),
        Verdict::OptOut => found.text("OptOut"),
        Verdict::EnrollmentsPaused => found.text("EnrollmentsPaused"),
        Verdict::NotTargeted => found.text("NotTargeted"),
        Verdict::NotSelected => found.text("NotSelected"),
        Verdict::Failed(cause) => found.debugged(cause),
        Verdict::Qualified(branch) => found.text(branch.text()),
    }
}
