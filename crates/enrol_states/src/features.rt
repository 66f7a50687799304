// The features that recipes of one kind may not share, and who takes one of them.
ghost use Rattle.std.specs.Prelude.{◌≡◌, ◌&&◌, ◌||◌, ℕ, List, not, bytes_eq, IfOk, OnOk, MatchOption, option_map, if◌then◌else◌, Some, None};
ghost use Rattle.enrol_states.specs.Order.{Rise, is_in};
ghost use Rattle.enrol_states.specs.State.{slugs_of};
ghost use Rattle.enrol_states.specs.Recipes.{has_feature, sets};
ghost use Rattle.enrol_states.specs.Features.{takes, IsFree};
ghost use Rattle.enrol_states.specs.Choices.{IsTaken};
ghost use Rattle.enrol_states.specs.Holding.{has_alone};
ghost use Rattle.enrol_states.specs.TextSets.{has_text};
ghost use Rattle.enrol_states.specs.Least.{IsLeast, lesser_of, rival_of};

use crate::state::{Row, State};
use plain_text::Slug;
use recipe_reader::{Branch, Recipe};
use sequences::{SharedList, Text};
use std::alloc::{AllocError, Global};
use std::cmp::Ordering;
use std::collections::BTreeSet;

/// The least slug of another recipe of the same kind that the client is enrolled in and that
/// shares a feature with this one, and the least such feature.
pub(crate) fn taken(
    alloc: Global,
    state: &State,
    recipe: &Recipe,
) -> Result<Option<(Slug, Text)>, AllocError>
    requires coenrolling { Rise state.now.coenrolling }
    requires rows { Rise (slugs_of state.now.rows) }
    ensures { IfOk result (λ t. MatchOption t (IsFree state.now recipe.now) (λ p. IsTaken state.now recipe.now p.0 p.1)) }
{
    let features = exclusive_features(alloc, recipe, &state.coenrolling)?;
    for row in state.rows.as_slice() {
        if let Some(feature) = taken_by(state, recipe, &features, row) {
            return Ok(Some((row.slug.clone()?, Text::new(alloc, feature)?)));
        }
    }
    Ok(None)
}

/// The least feature of the recipe that the row takes.
fn taken_by<'a>(
    state: &'a State,
    recipe: &Recipe,
    features: &BTreeSet<&'a str>,
    row: &Row,
) -> Option<&'a str>
    requires { (f : List ℕ) → has_text features.now f ≡ has_alone state.now.coenrolling recipe.now f }
    ensures { IsLeast (takes state.now recipe.now row.now) (option_map (λ f. f.now) result) }
{
    match rival(state, recipe, row) {
        Some(rival) => least_shared(features, rival),
        None => None,
    }
}

/// Another recipe of the same kind that the client is enrolled in by the row.
fn rival<'a>(state: &'a State, recipe: &Recipe, row: &Row) -> Option<&'a Recipe>
    ensures { option_map (λ r. r.now) result ≡ rival_of state.now recipe.now row.now }
{
    if row.slug == recipe.slug || !row.status.is_enrolled() {
        return None;
    }
    match state.live.get(row.slug.text()) {
        Some(rival) if rival.kind() == recipe.kind() => Some(rival),
        _ => None,
    }
}

/// The recipe's features that recipes of one kind may not share.
fn exclusive_features<'a>(
    alloc: Global,
    recipe: &'a Recipe,
    coenrolling: &SharedList<Text>,
) -> Result<BTreeSet<&'a str>, AllocError>
    requires { Rise coenrolling.now }
    ensures { IfOk result (λ set. (f : List ℕ) → has_text set f ≡ has_alone coenrolling.now recipe.now f) }
{
    let mut features = BTreeSet::new(alloc);
    add_all_features(&mut features, recipe, coenrolling)?;
    Ok(features)
}

/// Adds the recipe's features but for those that may be shared.
pub(crate) fn add_all_features<'a>(
    features: &mut BTreeSet<&'a str>,
    recipe: &'a Recipe,
    coenrolling: &SharedList<Text>,
) -> Result<(), AllocError>
    requires { Rise coenrolling.now }
    ensures { OnOk result ((f : List ℕ) → has_text features.new f ≡ (has_text features.old f || has_alone coenrolling.now recipe.now f)) }
{
    for branch in recipe.branches.as_slice() {
        add_features(features, branch, coenrolling)?;
    }
    Ok(())
}

fn add_features<'a>(
    features: &mut BTreeSet<&'a str>,
    branch: &'a Branch,
    coenrolling: &SharedList<Text>,
) -> Result<(), AllocError>
    requires { Rise coenrolling.now }
    ensures { OnOk result ((f : List ℕ) → has_text features.new f ≡ (has_text features.old f || (sets branch.now f && not (is_in coenrolling.now f)))) }
{
    for value in branch.features.as_slice() {
        add_feature(features, value.feature.as_str(), coenrolling)?;
    }
    Ok(())
}

fn add_feature<'a>(
    features: &mut BTreeSet<&'a str>,
    feature: &'a str,
    coenrolling: &SharedList<Text>,
) -> Result<(), AllocError>
    requires { Rise coenrolling.now }
    ensures { OnOk result ((f : List ℕ) → has_text features.new f ≡ (has_text features.old f || (bytes_eq feature.now f && not (is_in coenrolling.now f)))) }
{
    if !has(coenrolling, feature) {
        features.insert(feature)?;
    }
    Ok(())
}

/// Whether the text is one of those in order.
fn has(texts: &SharedList<Text>, text: &str) -> bool
    requires { Rise texts.now }
    ensures { result ≡ is_in texts.now text.now }
{
    let texts = texts.as_slice();
    match texts.binary_search_by(|other| other.as_str().cmp(text)) {
        Ok(_) => true,
        Err(_) => false,
    }
}

/// The least of the features that the recipe has too.
pub(crate) fn least_shared<'a>(features: &BTreeSet<&'a str>, recipe: &'a Recipe) -> Option<&'a str>
    ensures { IsLeast (λ f. has_text features.now f && has_feature recipe.now f) (option_map (λ f. f.now) result) }
{
    let mut least = None;
    for branch in recipe.branches.as_slice() {
        least = lesser(least, least_set(features, branch));
    }
    least
}

/// The least of the features that the branch sets.
fn least_set<'a>(features: &BTreeSet<&'a str>, branch: &'a Branch) -> Option<&'a str>
    ensures { IsLeast (λ f. has_text features.now f && sets branch.now f) (option_map (λ f. f.now) result) }
{
    let mut least = None;
    for value in branch.features.as_slice() {
        least = lesser(least, one_of(features, value.feature.as_str()));
    }
    least
}

/// The feature, if it is one of these.
fn one_of<'a>(features: &BTreeSet<&'a str>, feature: &'a str) -> Option<&'a str>
    ensures { option_map (λ f. f.now) result ≡ (if has_text features.now feature.now then Some feature.now else None) }
{
    if features.contains(&feature) {
        Some(feature)
    } else {
        None
    }
}

/// The lesser of two texts, where both are there.
fn lesser<'a>(one: Option<&'a str>, other: Option<&'a str>) -> Option<&'a str>
    ensures { option_map (λ t. t.now) result ≡ lesser_of (option_map (λ t. t.now) one.entry) (option_map (λ t. t.now) other.entry) }
{
    match (one, other) {
        (Some(one), Some(other)) => match other.cmp(one) {
            Ordering::Less => Some(other),
            Ordering::Equal | Ordering::Greater => Some(one),
        },
        (Some(one), None) => Some(one),
        (None, other) => other,
    }
}
