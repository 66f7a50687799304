//! Rows on what follows from a verdict, and on what stays without a live recipe.
use crate::clients::alpha;
use crate::inputs::{number, slug};
use crate::records::{EVERY_BUCKET, ROLLOUT, recipe};
use crate::statuses::{add_status, status};
use enrol_states::{ErrorCause, Outcome, Status, Verdict, candidate, ended};
use recipe_reader::Recipe;
use row_tables::{Fault, Found, cut, parts};
use std::alloc::{AllocError, Global};

/// What follows from a verdict on an experiment, or on a rollout where `rollout` is given. Row: the
/// status before, or `none`, and the verdict.
pub(crate) fn find_outcome(
    alloc: Global,
    given: &str,
    input: &str,
    found: &mut Found,
) -> Result<(), Fault> {
    let members = if given == "rollout" { ROLLOUT } else { "" };
    let recipe = recipe(alloc, alpha(EVERY_BUCKET, members))?;
    let outcome = find_outcome_of(alloc, &recipe, input, found);
    drop(recipe);
    outcome
}

fn find_outcome_of(
    alloc: Global,
    recipe: &Recipe,
    input: &str,
    found: &mut Found,
) -> Result<(), Fault> {
    let (old, verdict) = parts(input)?;
    let verdict = verdict_of(alloc, verdict)?;
    find_next(alloc, old, &verdict, recipe, found)
}

fn find_next(
    alloc: Global,
    old: &str,
    verdict: &Verdict,
    recipe: &Recipe,
    found: &mut Found,
) -> Result<(), Fault> {
    if old == "none" {
        return Ok(add_next(alloc, None, verdict, recipe, found)?);
    }
    let old = status(alloc, old)?;
    Ok(add_next(alloc, Some(&old), verdict, recipe, found)?)
}

// Adds what follows, but for a pause where the client is enrolled.
fn add_next(
    alloc: Global,
    old: Option<&Status>,
    verdict: &Verdict,
    recipe: &Recipe,
    found: &mut Found,
) -> Result<(), AllocError> {
    match (old, verdict) {
        (Some(Status::Enrolled { .. }), Verdict::EnrollmentsPaused) => Ok(found.text("never")),
        _ => Ok(add_outcome(&candidate(alloc, old, verdict, recipe)?, found)),
    }
}

fn add_outcome(outcome: &Outcome, found: &mut Found) {
    match outcome {
        Outcome::Keep(status) => add_status(status, found),
        Outcome::Wish { won, lost } => {
            add_status(won, found);
            found.text(", or ");
            add_status(lost, found)
        }
    }
}

/// What stays of a status without a live recipe. Row: a moment, and the status.
pub(crate) fn find_end(alloc: Global, input: &str, found: &mut Found) -> Result<(), Fault> {
    let (now, text) = cut(input);
    let now = number(now)?;
    let old = status(alloc, text)?;
    Ok(add_end(alloc, &old, now, found)?)
}

fn add_end(alloc: Global, old: &Status, now: u64, found: &mut Found) -> Result<(), AllocError> {
    match ended(alloc, old, now)? {
        Some(status) => Ok(add_status(&status, found)),
        None => Ok(found.text("dropped")),
    }
}

fn verdict_of(alloc: Global, text: &str) -> Result<Verdict, Fault> {
    match plain_verdict(text) {
        Some(verdict) => Ok(verdict),
        None => Ok(Verdict::Qualified(slug(alloc, text)?)),
    }
}

// The verdict of this name, but for one with a branch.
fn plain_verdict(text: &str) -> Option<Verdict> {
    match text {
        "DifferentAppName" => Some(Verdict::DifferentAppName),
        "DifferentChannel" => Some(Verdict::DifferentChannel),
        "OptOut" => Some(Verdict::OptOut),
        "EnrollmentsPaused" => Some(Verdict::EnrollmentsPaused),
        "NotTargeted" => Some(Verdict::NotTargeted),
        "NotSelected" => Some(Verdict::NotSelected),
        "Unparsed" => Some(Verdict::Failed(ErrorCause::Unparsed)),
        "Faulted" => Some(Verdict::Failed(ErrorCause::Faulted)),
        "NotTruth" => Some(Verdict::Failed(ErrorCause::NotTruth)),
        "NoUnit" => Some(Verdict::Failed(ErrorCause::NoUnit)),
        _ => None,
    }
}
