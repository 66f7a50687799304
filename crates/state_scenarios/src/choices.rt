//! Rows on the commands over states with recipes. Lines have a comma between them, and each is a switch, `reset`, `out` or `end`
//! and a slug, or a slug and a branch.
ghost use Rattle.std.specs.Prelude.{◌≡◌, IfOk, OnOk};
ghost use Rattle.enrol_states.specs.Consistent.{IsConsistent};

use crate::clients::{HOME, MESSAGING, add_with_features};
use crate::inputs::{number, slug};
use crate::records::{ROLLOUT, recipes};
use crate::shown::{add_list_parts, add_parts, add_state};
use crate::statuses::add_status;
use enrol_states::{
    Kinds, NextState, OptInFault, OptOutFault, State, end_enrolment, is_exclusive, opt_in, opt_out,
    participate, reset,
};
use plain_text::Slug;
use recipe_reader::Recipes;
use row_tables::{Fault, Found, cut};
use std::alloc::{AllocError, Global};
use uuid::Uuid;

const OTHER_ID: Uuid = Uuid::NAMESPACE_URL;

/// What is found of a client: of the kinds `choices`, `opt-outs`, `parts`, `changed`, `opt-in`, `status`, `reset` and `alone`.
pub(crate) fn find(
    alloc: Global,
    state: &mut State,
    kind: &str,
    input: &str,
    found: &mut Found,
) -> Result<(), Fault>
    requires { IsConsistent state.old }
{
    match kind {
        "choices" => find_choices(alloc, state, input, found),
        "opt-outs" => find_opt_outs(alloc, state, input, found),
        "alone" => find_alone(alloc, state, input, found),
        _ => find_after_lines(alloc, state, kind, input, found),
    }
}

fn do_lines(alloc: Global, state: &mut State, lines: &str) -> Result<(), Fault>
    requires { IsConsistent state.old }
    ensures { OnOk result (IsConsistent state.new) }
{
    for line in lines.split(',') {
        do_line(alloc, state, line.trim())?;
    }
    Ok(())
}

/// Does a line, which may be empty.
pub(crate) fn do_line(alloc: Global, state: &mut State, line: &str) -> Result<(), Fault>
    requires { IsConsistent state.old }
    ensures { OnOk result (IsConsistent state.new) }
{
    if line.is_empty() {
        return Ok(());
    }
    let next = after_line(alloc, state, line)?;
    drop(std::mem::replace(state, next));
    Ok(())
}

fn after_line(alloc: Global, state: &mut State, line: &str) -> Result<State, Fault>
    requires { IsConsistent state.old }
    ensures { IfOk result IsConsistent }
{
    if let Some((kinds, on)) = switch(line) {
        return Ok(participate(alloc, state, kinds, on)?);
    }
    if line == "reset" {
        return Ok(reset(alloc, state, OTHER_ID)?);
    }
    Ok(after_slug(alloc, state, line)?.state)
}

// Participation in a part is off or on: of one kind where the line names it, as in `rollouts off`.
fn switch(line: &str) -> Option<(Kinds, bool)> {
    match line {
        "off" => Some((Kinds::Both, false)),
        "on" => Some((Kinds::Both, true)),
        "experiments off" => Some((Kinds::Experiments, false)),
        "experiments on" => Some((Kinds::Experiments, true)),
        "rollouts off" => Some((Kinds::Rollouts, false)),
        "rollouts on" => Some((Kinds::Rollouts, true)),
        _ => None,
    }
}

// What comes after a line of one slug: `out` or `end` and the slug, or the slug and a branch.
fn after_slug(alloc: Global, state: &mut State, line: &str) -> Result<NextState, Fault>
    requires { IsConsistent state.old }
    ensures { IfOk result (λ next. IsConsistent next.state) }
{
    let (first, second) = cut(line);
    match first {
        "out" => after_opt_out(alloc, state, second),
        "end" => after_end(alloc, state, second),
        _ => after_opt_in(alloc, state, first, second),
    }
}

fn after_opt_out(alloc: Global, state: &mut State, name: &str) -> Result<NextState, Fault>
    requires { IsConsistent state.old }
    ensures same { state.new ≡ state.old }
    ensures consistent { IfOk result (λ next. IsConsistent next.state) }
{
    let slug = slug(alloc, name)?;
    opt_out(alloc, state, &slug).ok().ok_or(Fault::NoRow)
}

fn after_end(alloc: Global, state: &mut State, name: &str) -> Result<NextState, Fault>
    requires { IsConsistent state.old }
    ensures { IfOk result (λ next. IsConsistent next.state) }
{
    let slug = slug(alloc, name)?;
    end_enrolment(state, &slug).ok().ok_or(Fault::OutOfMemory)
}

fn after_opt_in(
    alloc: Global,
    state: &mut State,
    name: &str,
    branch: &str,
) -> Result<NextState, Fault>
    requires { IsConsistent state.old }
    ensures { IfOk result (λ next. IsConsistent next.state) }
{
    let slug = slug(alloc, name)?;
    after_opt_in_to(alloc, state, &slug, branch)
}

fn after_opt_in_to(
    alloc: Global,
    state: &mut State,
    name: &Slug,
    branch: &str,
) -> Result<NextState, Fault>
    requires { IsConsistent state.old }
    ensures { IfOk result (λ next. IsConsistent next.state) }
{
    let branch = slug(alloc, branch)?;
    opt_in(alloc, state, name, &branch).ok().ok_or(Fault::NoRow)
}

// The opt-outs and rows to which lines lead over the one recipe alpha. Row: the lines.
fn find_choices(
    alloc: Global,
    state: &mut State,
    lines: &str,
    found: &mut Found,
) -> Result<(), Fault>
    requires { IsConsistent state.old }
{
    do_lines(alloc, state, lines)?;
    Ok(add_state(state, found))
}

// What is found after lines over four recipes, of which aroll is a rollout. Row: the lines, and behind ` | ` what is asked. Of
// the kind `parts` it is what the client takes part in, the opt-outs and the rows; of `changed` the parts of these two that a
// line of one slug changes; of `reset` what a reset leaves.
fn find_after_lines(
    alloc: Global,
    state: &mut State,
    kind: &str,
    input: &str,
    found: &mut Found,
) -> Result<(), Fault>
    requires { IsConsistent state.old }
{
    let (lines, asked) = input.split_once(" | ").unwrap_or((input, ""));
    do_lines(alloc, state, lines)?;
    match kind {
        "parts" => Ok(add_parts(state, found)),
        "changed" => find_changed(alloc, state, asked, found),
        "opt-in" => find_opt_in(alloc, state, asked, found),
        "status" => find_status(state, asked, found),
        "reset" => Ok(add_client(state, found)?),
        _ => Err(Fault::NoRow),
    }
}

// Adds the parts of the opt-outs and of the rows that a line of one slug changes.
fn find_changed(
    alloc: Global,
    state: &mut State,
    line: &str,
    found: &mut Found,
) -> Result<(), Fault>
    requires { IsConsistent state.old }
{
    let next = after_slug(alloc, state, line)?;
    let (opted_out, rows) = (next.opted_out, next.rows);
    drop(next);
    Ok(add_list_parts(opted_out, rows, found))
}

// Adds the answer to an opt-in to a slug and a branch.
fn find_opt_in(
    alloc: Global,
    state: &mut State,
    asked: &str,
    found: &mut Found,
) -> Result<(), Fault>
    requires { IsConsistent state.old }
{
    let (name, branch) = cut(asked);
    let slug = slug(alloc, name)?;
    find_opt_in_to(alloc, state, &slug, branch, found)
}

fn find_opt_in_to(
    alloc: Global,
    state: &mut State,
    name: &Slug,
    branch: &str,
    found: &mut Found,
) -> Result<(), Fault>
    requires { IsConsistent state.old }
{
    let branch = slug(alloc, branch)?;
    match opt_in(alloc, state, name, &branch).err() {
        Some(fault) => Ok(add_fault(&fault, found)),
        None => Ok(found.text("ok")),
    }
}

fn add_fault(fault: &OptInFault, found: &mut Found) {
    match fault {
        OptInFault::NotParticipating => found.text("NotParticipating"),
        OptInFault::NoSuchExperiment => found.text("NoSuchExperiment"),
        OptInFault::NoSuchBranch => found.text("NoSuchBranch"),
        OptInFault::FeatureTaken(holder, feature) => {
            found.texts(&["FeatureTaken ", holder.text(), " ", feature.as_str()])
        }
        OptInFault::OutOfMemory => found.text("OutOfMemory"),
    }
}

// Adds what a state says of a slug.
fn find_status(state: &State, name: &str, found: &mut Found) -> Result<(), Fault>
    requires { IsConsistent state.now }
{
    match state.status_of(name) {
        Some(status) => Ok(add_status(status, found)),
        None => Ok(found.text("nothing")),
    }
}

// Adds whether a client has the other id, the moments of install and update, whether it takes part in experiments and in
// rollouts, the number of live recipes, whether any are pending, and whether its copy is the same.
fn add_client(state: &State, found: &mut Found) -> Result<(), AllocError> {
    let is_same = is_copied(state)?;
    found.displayed(&(state.id == OTHER_ID));
    found.text(" ");
    found.all_displayed(&[state.installed, state.updated]);
    found.text(" ");
    found.all_displayed(&[state.experiments, state.rollouts]);
    found.text(" ");
    found.displayed(&state.live.as_slice().len());
    found.text(" ");
    found.all_displayed(&[state.pending.is_some(), is_same]);
    Ok(())
}

fn is_copied(state: &State) -> Result<bool, AllocError> {
    let copy = state.clone()?;
    let is_same = copy == *state;
    drop(copy);
    Ok(is_same)
}

// Whether one opt-out more is refused after so many, whether its slug is opted out then, and whether one that is made
// again changes nothing. Row: the number, and the slug of the one that is made again.
fn find_opt_outs(
    alloc: Global,
    state: &mut State,
    input: &str,
    found: &mut Found,
) -> Result<(), Fault>
    requires { IsConsistent state.old }
{
    let (count, again) = cut(input);
    opt_out_of_all(alloc, state, number(count)?)?;
    add_opt_outs(alloc, state, again, found)
}

fn opt_out_of_all(alloc: Global, state: &mut State, count: u64) -> Result<(), Fault>
    requires { IsConsistent state.old }
    ensures { OnOk result (IsConsistent state.new) }
{
    for number in 0..count {
        opt_out_of_one(alloc, state, number)?;
    }
    Ok(())
}

fn opt_out_of_one(alloc: Global, state: &mut State, number: u64) -> Result<(), Fault>
    requires { IsConsistent state.old }
    ensures { OnOk result (IsConsistent state.new) }
{
    let line = format!(in alloc; "out slug-{number}")?;
    do_line(alloc, state, line.as_str())
}

fn add_opt_outs(
    alloc: Global,
    state: &mut State,
    again: &str,
    found: &mut Found,
) -> Result<(), Fault>
    requires { IsConsistent state.old }
{
    let is_limit = is_at_limit(alloc, state)?;
    let is_in = state.is_opted_out("one-more");
    let stays = stays_opted_out(alloc, state, again)?;
    Ok(found.all_displayed(&[is_limit, is_in, stays]))
}

fn is_at_limit(alloc: Global, state: &mut State) -> Result<bool, Fault>
    requires { IsConsistent state.old }
    ensures { state.new ≡ state.old }
{
    let slug = slug(alloc, "one-more")?;
    let fault = opt_out(alloc, state, &slug).err();
    Ok(fault == Some(OptOutFault::OptedOutLimit))
}

fn stays_opted_out(alloc: Global, state: &mut State, name: &str) -> Result<bool, Fault>
    requires { IsConsistent state.old }
{
    let next = after_opt_out(alloc, state, name)?;
    let stays = next.state.is_opted_out(name) && next.state == *state;
    drop(next);
    Ok(stays)
}

// Whether features are left to one recipe of a kind where the client is enrolled in the experiment delta, which has the
// home screen, and in beta. Row: whether beta is a rollout, and its feature.
fn find_alone(alloc: Global, state: &mut State, input: &str, found: &mut Found) -> Result<(), Fault>
    requires { IsConsistent state.old }
{
    do_lines(alloc, state, "beta control,delta control")?;
    let recipes = beta_and_delta(alloc, input)?;
    drop(std::mem::replace(&mut state.live, recipes));
    let is_alone = is_exclusive(alloc, state)?;
    Ok(found.displayed(&is_alone))
}

fn beta_and_delta(alloc: Global, text: &str) -> Result<Recipes, Fault> {
    let mut records = String::new(alloc);
    add_beta_and_delta(text, &mut records)?;
    recipes(alloc, records.as_str())
}

fn add_beta_and_delta(text: &str, records: &mut String) -> Result<(), AllocError> {
    let (kind, feature) = cut(text);
    let members = if kind == "true" { ROLLOUT } else { "" };
    let features = if feature == "homescreen" {
        HOME
    } else {
        MESSAGING
    };
    add_with_features("beta", features, members, records)?;
    add_with_features("delta", HOME, "", records)
}
