// The wish to be enrolled in a recipe.
ghost use Rattle.std.specs.Prelude.{◌≡◌, fold, map, IfOk, OnOk};
ghost use Rattle.enrol_evolver.specs.Wishes.{AreSeen, with_once, features_of, candidate_of};

use enrol_conflicts::Candidate;
use recipe_reader::{Branch, Recipe};
use sequences::{Sequence, Text};
use std::alloc::{AllocError, Global};
use std::collections::BTreeSet;

/// The wish to be enrolled in the recipe, of a client that is enrolled in it already or not.
pub(crate) fn candidate_of(
    alloc: Global,
    recipe: &Recipe,
    was_enrolled: bool,
) -> Result<Candidate, AllocError>
    ensures { IfOk result (λ c. c ≡ candidate_of was_enrolled recipe.now) }
{
    Ok(Candidate {
        slug: recipe.slug.clone()?,
        kind: recipe.kind(),
        features: features_of(alloc, recipe)?,
        was_enrolled,
        published: recipe.published_at(),
    })
}

/// The features of all branches, each once.
fn features_of(alloc: Global, recipe: &Recipe) -> Result<Sequence<Text>, AllocError>
    ensures { IfOk result (λ fs. fs ≡ features_of recipe.now) }
{
    let mut seen = BTreeSet::new(alloc);
    let mut features = Sequence::new(alloc);
    for branch in recipe.branches.as_slice() {
        add_features(&mut seen, &mut features, branch)?;
    }
    Ok(features)
}

/// Adds the features of the branch, each unless it is there.
fn add_features<'a>(
    seen: &mut BTreeSet<&'a str>,
    features: &mut Sequence<Text>,
    branch: &'a Branch,
) -> Result<(), AllocError>
    requires { AreSeen seen.old features.old }
    ensures features { OnOk result (features.new ≡ fold with_once features.old (map (λ v. v.feature) branch.now.features)) }
    ensures seen { OnOk result (AreSeen seen.new features.new) }
{
    for value in branch.features.as_slice() {
        add_feature(seen, features, &value.feature)?;
    }
    Ok(())
}

fn add_feature<'a>(
    seen: &mut BTreeSet<&'a str>,
    features: &mut Sequence<Text>,
    feature: &'a Text,
) -> Result<(), AllocError>
    requires { AreSeen seen.old features.old }
    ensures features { OnOk result (features.new ≡ with_once features.old feature.now) }
    ensures seen { OnOk result (AreSeen seen.new features.new) }
{
    let name = feature.as_str();
    if seen.contains(&name) {
        return Ok(());
    }
    seen.insert(name)?;
    features.push(feature.clone()?)?;
    Ok(())
}
