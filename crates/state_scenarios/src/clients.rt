//! Rows on the client of a new store that has recipes, which is lent to each.
ghost use Rattle.std.specs.Prelude.{IfOk};
ghost use Rattle.enrol_states.specs.Consistent.{IsConsistent};

use crate::records::{EVERY_BUCKET, ROLLOUT, Record, add_record, recipes};
use crate::{attributes, choices, drills, verdicts};
use enrol_states::{MAX_RECIPES, State};
use row_tables::{Fault, Found};
use std::alloc::{AllocError, Global};
use uuid::Uuid;

/// The moment at which the store is made.
pub(crate) const NOW: u64 = 1_700_000_000;

const ID: Uuid = Uuid::NAMESPACE_DNS;

pub(crate) const HOME: &str = r#"[{"featureId":"homescreen","value":{}}]"#;

pub(crate) const MESSAGING: &str = r#"[{"featureId":"messaging","value":{}}]"#;

const BOTH: &str =
    r#"[{"featureId":"homescreen","value":{}},{"featureId":"messaging","value":{}}]"#;

/// What is found of a row.
pub(crate) fn find(
    alloc: Global,
    kind: &str,
    given: &str,
    input: &str,
    found: &mut Found,
) -> Result<(), Fault> {
    let mut state = client_for(alloc, kind, given)?;
    let outcome = find_in(alloc, &mut state, kind, given, input, found);
    drop(state);
    outcome
}

fn find_in(
    alloc: Global,
    state: &mut State,
    kind: &str,
    given: &str,
    input: &str,
    found: &mut Found,
) -> Result<(), Fault>
    requires { IsConsistent state.old }
{
    match kind {
        "verdict" => verdicts::find_verdict(alloc, state, given, input, found),
        "attributes" => attributes::find_attributes(alloc, state, given, input, found),
        "summary" => drills::find_summary(alloc, state, input, found),
        _ => choices::find(alloc, state, kind, input, found),
    }
}

fn client_for(alloc: Global, kind: &str, given: &str) -> Result<State, Fault>
    ensures { IfOk result IsConsistent }
{
    let mut records = String::new(alloc);
    add_records(kind, given, &mut records)?;
    client_with(alloc, records.as_str())
}

// Adds the records of the client's recipes: of alpha alone for `verdict`, of which the buckets are given, and for `choices`; none
// for `opt-outs`, `attributes` and `summary`; and else of alpha with both features, beta and delta with one each, and a rollout with
// both.
fn add_records(kind: &str, given: &str, records: &mut String) -> Result<(), AllocError> {
    match kind {
        "verdict" => add_record(records, alpha(given, "")),
        "choices" => add_with_features("alpha", HOME, "", records),
        "opt-outs" | "attributes" | "summary" => Ok(()),
        _ => add_rivals(records),
    }
}

/// The record of alpha, which has no features, with what is sampled and members besides.
pub(crate) fn alpha<'a>(sampled: &'a str, members: &'a str) -> Record<'a> {
    Record {
        slug: "alpha",
        sampled,
        control: "[]",
        treatment: "[]",
        members,
    }
}

fn add_rivals(records: &mut String) -> Result<(), AllocError> {
    add_with_features("alpha", BOTH, "", records)?;
    add_with_features("beta", MESSAGING, "", records)?;
    add_with_features("delta", HOME, "", records)?;
    add_with_features("aroll", BOTH, ROLLOUT, records)
}

/// Adds a record whose branches have these features.
pub(crate) fn add_with_features(
    slug: &str,
    features: &str,
    members: &str,
    records: &mut String,
) -> Result<(), AllocError> {
    let record = Record {
        slug,
        sampled: EVERY_BUCKET,
        control: features,
        treatment: features,
        members,
    };
    add_record(records, record)
}

// The client of a new store, with the recipes of these records.
fn client_with(alloc: Global, records: &str) -> Result<State, Fault>
    ensures { IfOk result IsConsistent }
{
    let recipes = recipes(alloc, records)?;
    if recipes.as_slice().len() > MAX_RECIPES {
        drop(recipes);
        return Err(Fault::NoRow);
    }
    let mut state = State::new(alloc, ID, NOW);
    drop(std::mem::replace(&mut state.live, recipes));
    Ok(state)
}
