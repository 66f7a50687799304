// How many bytes a recipe's record has as compact JSON.
ghost use Rattle.std.specs.Prelude.{◌≡◌, ◌≤◌, ◌<◌, ◌^◌, All, length, map, pos};
ghost use Rattle.json_tree.specs.Json.{IsSound, AreSoundItems, list, truth, whole, items_of};
ghost use Rattle.json_tree.specs.Bytes.{text_of};
ghost use Rattle.recipe_reader.specs.Records.{IsValid, record_json, branch_json, feature_json, bucket_json, text_or_null};
ghost use Rattle.recipe_reader.specs.Lengths.{IsShort, HasShortFeatures};

use crate::recipe::{Branch, Bucket, FeatureValue, Recipe};
use json_length::{text_length, tree_length, whole_length};
use sequences::Text;

/// The braces, keys, colons and commas of a record, and its schema version.
const RECORD: u128 = 144;

/// The braces, keys, colons and commas of a bucket.
const BUCKET: u128 = 62;

/// The braces, keys, colons and commas of a branch.
const BRANCH: u128 = 30;

/// The braces, keys, colons and commas of a feature.
const FEATURE: u128 = 23;

/// How many bytes the recipe's record has as compact JSON, counted without a text and without
/// memory.
#[tactic(auto, using(crate::proofs::Shorts::valid_short))]
pub fn record_length(recipe: &Recipe) -> u128
    requires { IsValid recipe.now }
    ensures length { result ≡ length (text_of (record_json recipe.now)) }
    ensures bound { result ≤ 2 ^ 78 }
    ensures record { IsSound (record_json recipe.now) }
{
    let app_name = optional_length(&recipe.app_name);
    let branches = branches_length(recipe.branches.as_slice());
    let bucket = bucket_length(&recipe.bucket);
    let channel = optional_length(&recipe.channel);
    let paused = truth_length(recipe.paused);
    let rollout = truth_length(recipe.rollout);
    let published = optional_length(&recipe.published);
    let slug = text_length(recipe.slug.text());
    let targeting = optional_length(&recipe.targeting);
    RECORD
        + app_name
        + branches
        + bucket
        + channel
        + paused
        + rollout
        + published
        + slug
        + targeting
}

fn optional_length(text: &Option<Text>) -> u128
    ensures length { result ≡ length (text_of (text_or_null text.now)) }
    ensures bound { result ≤ 2 ^ 67 }
    ensures sound { IsSound (text_or_null text.now) }
{
    match text {
        Some(text) => text_length(text.as_str()),
        None => 4,
    }
}

fn truth_length(flag: bool) -> u128
    ensures length { result ≡ length (text_of (truth flag)) }
    ensures bound { result ≤ 5 }
{
    if flag { 4 } else { 5 }
}

fn number_length(number: u32) -> u128
    ensures length { result ≡ length (text_of (whole (pos number))) }
    ensures bound { result ≤ 21 }
{
    whole_length(i64::from(number))
}

fn bucket_length(bucket: &Bucket) -> u128
    ensures length { result ≡ length (text_of (bucket_json bucket.now)) }
    ensures bound { result ≤ 2 ^ 69 }
    ensures sound { IsSound (bucket_json bucket.now) }
{
    let count = number_length(bucket.count);
    let namespace = text_length(bucket.namespace.as_str());
    let unit = text_length(bucket.unit.as_str());
    let start = number_length(bucket.start);
    let total = number_length(bucket.total);
    BUCKET + count + namespace + unit + start + total
}

/// The length of the list of branches.
fn branches_length(branches: &[Branch]) -> u128
    requires count { length branches.now ≤ 100 }
    requires each { All HasShortFeatures branches.now }
    ensures length { result ≡ length (text_of (list (items_of (map branch_json branches.now)))) }
    ensures bound { result ≤ 2 ^ 77 }
    ensures sound { AreSoundItems (items_of (map branch_json branches.now)) }
{
    if branches.is_empty() {
        return 2;
    }
    let mut length: u128 = 1;
    for branch in branches {
        length += 1 + branch_length(branch);
    }
    length
}

fn branch_length(branch: &Branch) -> u128
    requires { HasShortFeatures branch.now }
    ensures length { result ≡ length (text_of (branch_json branch.now)) }
    ensures bound { result < 2 ^ 69 }
    ensures sound { IsSound (branch_json branch.now) }
{
    let features = features_length(branch.features.as_slice());
    let ratio = number_length(branch.ratio);
    let slug = text_length(branch.slug.text());
    BRANCH + features + ratio + slug
}

/// The length of the list of features.
fn features_length(features: &[FeatureValue]) -> u128
    requires count { length features.now ≤ 50 }
    requires each { All IsShort features.now }
    ensures length { result ≡ length (text_of (list (items_of (map feature_json features.now)))) }
    ensures bound { result ≤ 2 ^ 22 }
    ensures sound { AreSoundItems (items_of (map feature_json features.now)) }
{
    if features.is_empty() {
        return 2;
    }
    let mut length: u128 = 1;
    for feature in features {
        length += 1 + feature_length(feature);
    }
    length
}

fn feature_length(feature: &FeatureValue) -> u128
    requires { IsShort feature.now }
    ensures length { result ≡ length (text_of (feature_json feature.now)) }
    ensures bound { result < 70000 }
    ensures sound { IsSound (feature_json feature.now) }
{
    feature.value.keeps();
    let name = text_length(feature.feature.as_str());
    let value = tree_length(&feature.value);
    FEATURE + name + value
}
