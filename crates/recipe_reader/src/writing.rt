// A recipe as a record.
ghost use Rattle.std.specs.Prelude.{◌≡◌, ◌≤◌, ◌++◌, ◌∷◌, [], Ok, IfOk, OnOk, map, pos};
ghost use Rattle.json_tree.specs.Json.{IsAbove, depth, items_of, list, members_of, object, text, whole};
ghost use Rattle.json_tree.specs.Bytes.{max_depth};
ghost use Rattle.json_tree.specs.Tree.{json_of};
ghost use Rattle.recipe_reader.specs.Records.{IsValid, recipe_of, record_json, bucket_json, branch_json, feature_json, text_or_null};

use crate::recipe::{Branch, Bucket, FeatureValue, Recipe};
use json_tree::{Items, Members, Tree};
use sequences::Text;
use std::alloc::{AllocError, Global};

/// The recipe's record. That of a valid recipe reads as the recipe, and is as deep as a tree may be.
#[tactic(auto, using(crate::proofs::Shallows::valid_within))]
pub fn record_of(alloc: Global, recipe: &Recipe) -> Result<Tree, AllocError>
    ensures record { IfOk result (λ t. json_of t ≡ record_json recipe.now) }
    ensures reads_back { IfOk result (λ t. IsValid recipe.now → recipe_of (json_of t) ≡ Ok recipe.now) }
    ensures shallow { IfOk result (λ t. IsValid recipe.now → depth (json_of t) ≤ max_depth) }
{
    whole_record(alloc, recipe)
}

fn whole_record(alloc: Global, recipe: &Recipe) -> Result<Tree, AllocError>
    ensures { IfOk result (λ t. json_of t ≡ record_json recipe.now) }
{
    let mut members = Members::new(alloc);
    put_parts(alloc, &mut members, recipe)?;
    Ok(Tree::Object(members))
}

/// Puts the members of the recipe's record into an object without members.
fn put_parts(alloc: Global, members: &mut Members, recipe: &Recipe) -> Result<(), AllocError>
    requires { members.old ≡ [] }
    ensures { OnOk result (object (members_of members.new) ≡ record_json recipe.now) }
{
    put_optional(alloc, members, "appName", &recipe.app_name)?;
    let branches = branch_records(alloc, recipe.branches.as_slice())?;
    put(alloc, members, "branches", branches)?;
    let bucket = bucket_record(alloc, &recipe.bucket)?;
    put(alloc, members, "bucketConfig", bucket)?;
    put_optional(alloc, members, "channel", &recipe.channel)?;
    put(
        alloc,
        members,
        "isEnrollmentPaused",
        Tree::Truth(recipe.paused),
    )?;
    put(alloc, members, "isRollout", Tree::Truth(recipe.rollout))?;
    put_optional(alloc, members, "publishedDate", &recipe.published)?;
    put_text(alloc, members, "schemaVersion", "1")?;
    put_text(alloc, members, "slug", recipe.slug.text())?;
    put_optional(alloc, members, "targeting", &recipe.targeting)
}

fn bucket_record(alloc: Global, bucket: &Bucket) -> Result<Tree, AllocError>
    ensures { IfOk result (λ t. json_of t ≡ bucket_json bucket.now) }
{
    let mut members = Members::new(alloc);
    put_number(alloc, &mut members, "count", bucket.count)?;
    put_text(alloc, &mut members, "namespace", bucket.namespace.as_str())?;
    put_text(
        alloc,
        &mut members,
        "randomizationUnit",
        bucket.unit.as_str(),
    )?;
    put_number(alloc, &mut members, "start", bucket.start)?;
    put_number(alloc, &mut members, "total", bucket.total)?;
    Ok(Tree::Object(members))
}

/// The list of the branches' records.
fn branch_records(alloc: Global, branches: &[Branch]) -> Result<Tree, AllocError>
    ensures { IfOk result (λ t. json_of t ≡ list (items_of (map branch_json branches.now))) }
{
    let mut items = Items::new(alloc);
    for branch in branches {
        items.push(branch_record(alloc, branch)?)?;
    }
    Ok(Tree::List(items))
}

fn branch_record(alloc: Global, branch: &Branch) -> Result<Tree, AllocError>
    ensures { IfOk result (λ t. json_of t ≡ branch_json branch.now) }
{
    let mut members = Members::new(alloc);
    let features = feature_records(alloc, branch.features.as_slice())?;
    put(alloc, &mut members, "features", features)?;
    put_number(alloc, &mut members, "ratio", branch.ratio)?;
    put_text(alloc, &mut members, "slug", branch.slug.text())?;
    Ok(Tree::Object(members))
}

/// The list of the features' records.
fn feature_records(alloc: Global, features: &[FeatureValue]) -> Result<Tree, AllocError>
    ensures { IfOk result (λ t. json_of t ≡ list (items_of (map feature_json features.now))) }
{
    let mut items = Items::new(alloc);
    for feature in features {
        items.push(feature_record(alloc, feature)?)?;
    }
    Ok(Tree::List(items))
}

fn feature_record(alloc: Global, feature: &FeatureValue) -> Result<Tree, AllocError>
    ensures { IfOk result (λ t. json_of t ≡ feature_json feature.now) }
{
    let mut members = Members::new(alloc);
    put_text(alloc, &mut members, "featureId", feature.feature.as_str())?;
    put(alloc, &mut members, "value", feature.value.clone()?)?;
    Ok(Tree::Object(members))
}

/// Puts the text at the end, or null where there is none.
fn put_optional(
    alloc: Global,
    members: &mut Members,
    key: &str,
    text: &Option<Text>,
) -> Result<(), AllocError>
    requires { IsAbove key.now members.old }
    ensures { OnOk result (members.new ≡ members.old ++ (key.now, text_or_null text.now) ∷ []) }
{
    match text {
        Some(text) => put_text(alloc, members, key, text.as_str()),
        None => put(alloc, members, key, Tree::Null),
    }
}

fn put_text(alloc: Global, members: &mut Members, key: &str, value: &str) -> Result<(), AllocError>
    requires { IsAbove key.now members.old }
    ensures { OnOk result (members.new ≡ members.old ++ (key.now, text value.now) ∷ []) }
{
    let value = Text::new(alloc, value)?;
    put(alloc, members, key, Tree::Text(value))
}

fn put_number(
    alloc: Global,
    members: &mut Members,
    key: &str,
    number: u32,
) -> Result<(), AllocError>
    requires { IsAbove key.now members.old }
    ensures { OnOk result (members.new ≡ members.old ++ (key.now, whole (pos number)) ∷ []) }
{
    put(alloc, members, key, Tree::Whole(i64::from(number)))
}

/// Puts a member at the end, whose key is above each that is there.
fn put(alloc: Global, members: &mut Members, key: &str, value: Tree) -> Result<(), AllocError>
    requires { IsAbove key.now members.old }
    ensures { OnOk result (members.new ≡ members.old ++ (key.now, json_of value) ∷ []) }
{
    let key = Text::new(alloc, key)?;
    members.push(key, value)
}
