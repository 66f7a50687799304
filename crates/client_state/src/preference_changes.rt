// What changes of enrolments make of preferences: all leaves come before all joins.
ghost use Rattle.std.specs.Prelude.{◌≡◌, IfOk, option_map};
ghost use Rattle.std.specs.Option.{unwrap_or};
ghost use Rattle.pref_bindings.specs.Changes.{AreSettings, joined};
ghost use Rattle.client_state.specs.Following.{changes_done, join_done, join_values, joins_done, leave_done, leaves_done};

use change_outbox::{Change, ChangeKind};
use enrol_states::State;
use fml_types::Manifest;
use json_tree::Tree;
use pref_bindings::{Bindings, Prefs, bound_values};
use sequences::{Sequence, Text};
use std::alloc::{AllocError, Global};

/// What joins set preferences by: the next enrolment, whose recipes they join, and the manifest and the bindings, where there are
/// such.
#[derive(Clone, Copy, Drop)]
pub(crate) struct Sources<'a> {
    pub enrolment: &'a State,
    pub manifest: Option<&'a Manifest>,
    pub bindings: Option<&'a Bindings>,
}

/// The preferences after the leaves of these changes, and then after their joins, where these make others of them.
pub(crate) fn changes_done(
    alloc: Global,
    sources: &Sources,
    changes: &[Change],
    preferences: &Prefs,
) -> Result<Option<Prefs>, AllocError>
    ensures { IfOk result (λ done. unwrap_or done preferences.now ≡ changes_done (join_values (option_map (λ m. m.now) sources.now.manifest) (option_map (λ b. b.now) sources.now.bindings) sources.now.enrolment.now) changes.now preferences.now) }
{
    let left = leaves_done(alloc, changes, preferences)?;
    let before = left.as_ref().unwrap_or(preferences);
    let joined = joins_done(alloc, sources, changes, before)?;
    Ok(joined.or(left))
}

// The preferences after the leaves of these changes, where these make others of them.
fn leaves_done(
    alloc: Global,
    changes: &[Change],
    preferences: &Prefs,
) -> Result<Option<Prefs>, AllocError>
    ensures { IfOk result (λ left. unwrap_or left preferences.now ≡ leaves_done changes.now preferences.now) }
{
    let mut left = None;
    for change in changes {
        let before = left.as_ref().unwrap_or(preferences);
        left = leave_done(alloc, change, before)?.or(left);
    }
    Ok(left)
}

// The preferences after the change, where it is a leave that makes others of them.
fn leave_done(
    alloc: Global,
    change: &Change,
    preferences: &Prefs,
) -> Result<Option<Prefs>, AllocError>
    ensures { IfOk result (λ next. unwrap_or next preferences.now ≡ leave_done change.now.kind change.now.slug preferences.now) }
{
    match change.kind {
        ChangeKind::Leave => preferences.leave(alloc, &change.slug),
        ChangeKind::Join => Ok(None),
    }
}

// The preferences after the joins of these changes, where these make others of them.
fn joins_done(
    alloc: Global,
    sources: &Sources,
    changes: &[Change],
    preferences: &Prefs,
) -> Result<Option<Prefs>, AllocError>
    ensures { IfOk result (λ joined. unwrap_or joined preferences.now ≡ joins_done (join_values (option_map (λ m. m.now) sources.now.manifest) (option_map (λ b. b.now) sources.now.bindings) sources.now.enrolment.now) changes.now preferences.now) }
{
    let mut joined = None;
    for change in changes {
        let before = joined.as_ref().unwrap_or(preferences);
        joined = join_done(alloc, sources, change, before)?.or(joined);
    }
    Ok(joined)
}

// The preferences after the change, where it is a join that makes others of them.
fn join_done(
    alloc: Global,
    sources: &Sources,
    change: &Change,
    preferences: &Prefs,
) -> Result<Option<Prefs>, AllocError>
    ensures { IfOk result (λ next. unwrap_or next preferences.now ≡ join_done change.now.kind change.now.slug (join_values (option_map (λ m. m.now) sources.now.manifest) (option_map (λ b. b.now) sources.now.bindings) sources.now.enrolment.now change.now) preferences.now) }
{
    match change.kind {
        ChangeKind::Join => joined(alloc, sources, change, preferences),
        ChangeKind::Leave => Ok(None),
    }
}

// The preferences after a join, where it makes others of them.
fn joined(
    alloc: Global,
    sources: &Sources,
    change: &Change,
    preferences: &Prefs,
) -> Result<Option<Prefs>, AllocError>
    ensures { IfOk result (λ next. unwrap_or next preferences.now ≡ joined change.now.slug (join_values (option_map (λ m. m.now) sources.now.manifest) (option_map (λ b. b.now) sources.now.bindings) sources.now.enrolment.now change.now) preferences.now) }
{
    let values = join_values(alloc, sources, change)?;
    if values.is_empty() {
        return Ok(None);
    }
    preferences.join(alloc, &change.slug, values.as_slice())
}

// What the join sets: by the slug's live recipe.
fn join_values(
    alloc: Global,
    sources: &Sources,
    change: &Change,
) -> Result<Sequence<(Text, Tree)>, AllocError>
    ensures values { IfOk result (λ values. values ≡ join_values (option_map (λ m. m.now) sources.now.manifest) (option_map (λ b. b.now) sources.now.bindings) sources.now.enrolment.now change.now) }
    ensures settings { IfOk result AreSettings }
{
    let recipe = sources.enrolment.live.get(change.slug.text());
    match (sources.manifest, sources.bindings, recipe) {
        (Some(manifest), Some(bindings), Some(recipe)) => {
            bound_values(alloc, manifest, recipe, &change.branch, bindings)
        }
        _ => Ok(Sequence::new(alloc)),
    }
}
