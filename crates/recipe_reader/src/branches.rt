// The branches of a record.
ghost use Rattle.std.specs.Prelude.{◌≡◌, map, nat_lt, bytes_eq, option_map};
ghost use Rattle.std.specs.List.{list_any};
ghost use Rattle.json_tree.specs.Json.{items_of};
ghost use Rattle.json_tree.specs.Tree.{json_of};
ghost use Rattle.recipe_reader.specs.Outcome.{Gives};
ghost use Rattle.recipe_reader.specs.Values.{is_object};
ghost use Rattle.recipe_reader.specs.Branches.{each, are_distinct, is_branch_count, is_feature_count, is_feature_value, value_of, feature_of, features_of, single, listed, branch_of, ratio_sum, branches_of, branches_in};

use crate::depths::is_shallow;
use crate::fields::{count_at, present, text_at};
use crate::reading::slug_in;
use crate::recipe::{Branch, FeatureValue, RecordFault, SkipReason};
use json_length::length_within;
use json_tree::{Members, Tree};
use plain_text::is_name;
use sequences::{Sequence, Text};
use std::alloc::Global;

const BAD: RecordFault = RecordFault::Skip(SkipReason::BadBranches);

const MAX_BRANCHES: usize = 100;

const MAX_FEATURES: usize = 50;

const MAX_RATIO: u32 = 1_000_000;

const MAX_VALUE_DEPTH: usize = 59;

const MAX_VALUE_LEN: u128 = 65_536;

/// The record's branches.
#[tactic(auto, unfolding(crate::specs::Branches::branches_in))]
pub fn branches_in(alloc: Global, tree: &Tree) -> Result<Sequence<Branch>, RecordFault>
    ensures { Gives (λ b. b) result (branches_in (json_of tree.now)) }
{
    match tree.get("branches") {
        Some(Tree::List(items)) => branches_of(alloc, items.as_slice()),
        _ => Err(BAD),
    }
}

#[tactic(auto, unfolding(crate::specs::Branches::branches_of))]
fn branches_of(alloc: Global, trees: &[Tree]) -> Result<Sequence<Branch>, RecordFault>
    ensures { Gives (λ b. b) result (branches_of (items_of (map json_of trees.now))) }
{
    if !is_branch_count(trees) {
        return Err(BAD);
    }
    let branches = each_branch(alloc, trees)?;
    if are_slugs_distinct(branches.as_slice()) && has_ratio(branches.as_slice()) {
        Ok(branches)
    } else {
        Err(BAD)
    }
}

#[tactic(auto, using(crate::proofs::Lengths::items_len_of))]
fn is_branch_count(trees: &[Tree]) -> bool
    ensures { result ≡ is_branch_count (items_of (map json_of trees.now)) }
{
    1 <= trees.len() && trees.len() <= MAX_BRANCHES
}

fn each_branch(alloc: Global, trees: &[Tree]) -> Result<Sequence<Branch>, RecordFault>
    ensures { Gives (λ b. b) result (each branch_of (items_of (map json_of trees.now))) }
{
    let mut branches = Sequence::new(alloc);
    for tree in trees {
        branches.push(branch_of(alloc, tree)?)?;
    }
    Ok(branches)
}

#[tactic(auto, unfolding(crate::specs::Branches::branch_of))]
fn branch_of(alloc: Global, entry: &Tree) -> Result<Branch, RecordFault>
    ensures { Gives (λ b. b) result (branch_of (json_of entry.now)) }
{
    let slug = slug_in(alloc, entry, SkipReason::BadBranches)?;
    let Some(ratio) = count_at(entry, "ratio", 0, MAX_RATIO) else {
        return Err(BAD);
    };
    let features = listed(
        alloc,
        present(entry.get("features")),
        present(entry.get("feature")),
    )?;
    Ok(Branch {
        slug,
        ratio,
        features,
    })
}

/// Whether no two branches have one slug.
fn are_slugs_distinct(branches: &[Branch]) -> bool
    ensures { result ≡ are_distinct (λ b. b.slug) branches.now }
{
    match branches {
        [] => true,
        [branch, rest @ ..] => !has_slug(rest, branch.slug.text()) && are_slugs_distinct(rest),
    }
}

/// Whether a branch has that slug.
pub fn has_slug(branches: &[Branch], slug: &str) -> bool
    ensures { result ≡ list_any (λ b. bytes_eq b.slug slug.now) branches.now }
{
    branches.iter().any(|branch| branch.slug.text() == slug)
}

/// Whether the ratios' sum is above 0.
#[tactic(auto, using(crate::proofs::Ratios::sum_above))]
fn has_ratio(branches: &[Branch]) -> bool
    ensures { result ≡ nat_lt 0 (ratio_sum branches.now) }
{
    any_ratio(branches)
}

fn any_ratio(branches: &[Branch]) -> bool
    ensures { result ≡ list_any (λ b. nat_lt 0 b.ratio) branches.now }
{
    branches.iter().any(|branch| branch.ratio > 0)
}

/// The listed features, or the one feature where no list is there.
#[tactic(auto, unfolding(crate::specs::Branches::listed))]
fn listed(
    alloc: Global,
    features: Option<&Tree>,
    feature: Option<&Tree>,
) -> Result<Sequence<FeatureValue>, RecordFault>
    ensures { Gives (λ f. f) result (listed (option_map (λ t. json_of t.now) features.entry) (option_map (λ t. json_of t.now) feature.entry)) }
{
    match features {
        None => single(alloc, feature),
        Some(Tree::List(items)) => features_of(alloc, items.as_slice()),
        Some(_) => Err(BAD),
    }
}

#[tactic(auto, unfolding(crate::specs::Branches::single))]
fn single(alloc: Global, feature: Option<&Tree>) -> Result<Sequence<FeatureValue>, RecordFault>
    ensures { Gives (λ f. f) result (single (option_map (λ t. json_of t.now) feature.entry)) }
{
    let mut features = Sequence::new(alloc);
    match feature {
        None => Ok(features),
        Some(entry) => {
            features.push(feature_of(alloc, entry)?)?;
            Ok(features)
        }
    }
}

#[tactic(auto, unfolding(crate::specs::Branches::features_of))]
fn features_of(alloc: Global, trees: &[Tree]) -> Result<Sequence<FeatureValue>, RecordFault>
    ensures { Gives (λ f. f) result (features_of (items_of (map json_of trees.now))) }
{
    if !is_feature_count(trees) {
        return Err(BAD);
    }
    let features = each_feature(alloc, trees)?;
    if are_ids_distinct(features.as_slice()) {
        Ok(features)
    } else {
        Err(BAD)
    }
}

#[tactic(auto, using(crate::proofs::Lengths::items_len_of))]
fn is_feature_count(trees: &[Tree]) -> bool
    ensures { result ≡ is_feature_count (items_of (map json_of trees.now)) }
{
    trees.len() <= MAX_FEATURES
}

fn each_feature(alloc: Global, trees: &[Tree]) -> Result<Sequence<FeatureValue>, RecordFault>
    ensures { Gives (λ f. f) result (each feature_of (items_of (map json_of trees.now))) }
{
    let mut features = Sequence::new(alloc);
    for tree in trees {
        features.push(feature_of(alloc, tree)?)?;
    }
    Ok(features)
}

/// Whether no two features have one id.
fn are_ids_distinct(features: &[FeatureValue]) -> bool
    ensures { result ≡ are_distinct (λ f. f.feature) features.now }
{
    match features {
        [] => true,
        [feature, rest @ ..] => !has_id(rest, feature.feature.as_str()) && are_ids_distinct(rest),
    }
}

fn has_id(features: &[FeatureValue], id: &str) -> bool
    ensures { result ≡ list_any (λ f. bytes_eq f.feature id.now) features.now }
{
    features
        .iter()
        .any(|feature| feature.feature.as_str() == id)
}

#[tactic(auto, unfolding(crate::specs::Branches::feature_of))]
fn feature_of(alloc: Global, entry: &Tree) -> Result<FeatureValue, RecordFault>
    ensures { Gives (λ f. f) result (feature_of (json_of entry.now)) }
{
    let Some(id) = text_at(entry, "featureId") else {
        return Err(BAD);
    };
    if !is_name(id.as_bytes()) {
        return Err(BAD);
    }
    Ok(FeatureValue {
        feature: Text::new(alloc, id)?,
        value: value_of(alloc, present(entry.get("value")))?,
    })
}

/// A feature's value, `{}` where it is absent or null.
#[tactic(auto, using(crate::proofs::Trees::same_trees), unfolding(crate::specs::Branches::value_of))]
fn value_of(alloc: Global, value: Option<&Tree>) -> Result<Tree, RecordFault>
    ensures { Gives (λ t. t) result (value_of (option_map (λ t. json_of t.now) value.entry)) }
{
    match value {
        None => Ok(Tree::Object(Members::new(alloc))),
        Some(tree) => {
            if is_feature_value(tree) {
                Ok(tree.clone()?)
            } else {
                Err(BAD)
            }
        }
    }
}

/// Whether the tree is an object of bounded depth and text.
#[tactic(auto, unfolding(crate::specs::Branches::is_feature_value))]
fn is_feature_value(tree: &Tree) -> bool
    ensures { result ≡ is_feature_value (json_of tree.now) }
{
    is_object(tree)
        && is_shallow(tree, MAX_VALUE_DEPTH)
        && length_within(tree, MAX_VALUE_LEN).is_some()
}

fn is_object(tree: &Tree) -> bool
    ensures { result ≡ is_object (json_of tree.now) }
{
    match tree {
        Tree::Object(_) => true,
        _ => false,
    }
}
