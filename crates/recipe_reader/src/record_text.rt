// A recipe's record written as compact JSON, token by token. The keys of each object rise.
ghost use Rattle.std.specs.Prelude.{◌≡◌, ◌++◌, ◌∷◌, OnOk, map, pos};
ghost use Rattle.json.specs.Token.{key};
ghost use Rattle.json_tree.specs.Json.{list, text, truth, whole, items_of};
ghost use Rattle.recipe_reader.specs.Records.{record_json, bucket_json, branch_json, feature_json, text_or_null};
ghost use Rattle.json_tree.specs.Tokens.{tokens_of};

use crate::recipe::{Branch, Bucket, FeatureValue, Recipe};
use json::Writer;
use json_tree::write_tree;
use sequences::Text;
use std::alloc::AllocError;

/// Writes the recipe's record behind what the writer holds. The one error is want of memory, which
/// leaves some of the record written.
pub fn write_record(writer: &mut Writer, recipe: &Recipe) -> Result<(), AllocError>
    ensures before { writer.new.before ≡ writer.old.before }
    ensures tokens { OnOk result (writer.new.tokens ≡ writer.old.tokens ++ tokens_of (record_json recipe.now)) }
{
    writer.begin_object()?;
    write_optional(writer, "appName", &recipe.app_name)?;
    writer.key("branches")?;
    write_branches(writer, recipe.branches.as_slice())?;
    writer.key("bucketConfig")?;
    write_bucket(writer, &recipe.bucket)?;
    write_optional(writer, "channel", &recipe.channel)?;
    write_truth(writer, "isEnrollmentPaused", recipe.paused)?;
    write_truth(writer, "isRollout", recipe.rollout)?;
    write_optional(writer, "publishedDate", &recipe.published)?;
    write_text(writer, "schemaVersion", "1")?;
    write_text(writer, "slug", recipe.slug.text())?;
    write_optional(writer, "targeting", &recipe.targeting)?;
    writer.end_object()
}

fn write_bucket(writer: &mut Writer, bucket: &Bucket) -> Result<(), AllocError>
    ensures before { writer.new.before ≡ writer.old.before }
    ensures tokens { OnOk result (writer.new.tokens ≡ writer.old.tokens ++ tokens_of (bucket_json bucket.now)) }
{
    writer.begin_object()?;
    write_number(writer, "count", bucket.count)?;
    write_text(writer, "namespace", bucket.namespace.as_str())?;
    write_text(writer, "randomizationUnit", bucket.unit.as_str())?;
    write_number(writer, "start", bucket.start)?;
    write_number(writer, "total", bucket.total)?;
    writer.end_object()
}

/// Writes the list of branches.
fn write_branches(writer: &mut Writer, branches: &[Branch]) -> Result<(), AllocError>
    ensures before { writer.new.before ≡ writer.old.before }
    ensures tokens { OnOk result (writer.new.tokens ≡ writer.old.tokens ++ tokens_of (list (items_of (map branch_json branches.now)))) }
{
    writer.begin_array()?;
    for branch in branches {
        write_branch(writer, branch)?;
    }
    writer.end_array()
}

fn write_branch(writer: &mut Writer, branch: &Branch) -> Result<(), AllocError>
    ensures before { writer.new.before ≡ writer.old.before }
    ensures tokens { OnOk result (writer.new.tokens ≡ writer.old.tokens ++ tokens_of (branch_json branch.now)) }
{
    writer.begin_object()?;
    writer.key("features")?;
    write_features(writer, branch.features.as_slice())?;
    write_number(writer, "ratio", branch.ratio)?;
    write_text(writer, "slug", branch.slug.text())?;
    writer.end_object()
}

/// Writes the list of features.
fn write_features(writer: &mut Writer, features: &[FeatureValue]) -> Result<(), AllocError>
    ensures before { writer.new.before ≡ writer.old.before }
    ensures tokens { OnOk result (writer.new.tokens ≡ writer.old.tokens ++ tokens_of (list (items_of (map feature_json features.now)))) }
{
    writer.begin_array()?;
    for feature in features {
        write_feature(writer, feature)?;
    }
    writer.end_array()
}

fn write_feature(writer: &mut Writer, feature: &FeatureValue) -> Result<(), AllocError>
    ensures before { writer.new.before ≡ writer.old.before }
    ensures tokens { OnOk result (writer.new.tokens ≡ writer.old.tokens ++ tokens_of (feature_json feature.now)) }
{
    writer.begin_object()?;
    write_text(writer, "featureId", feature.feature.as_str())?;
    writer.key("value")?;
    write_tree(writer, &feature.value)?;
    writer.end_object()
}

/// Writes a member with the text, or null where there is none.
fn write_optional(writer: &mut Writer, name: &str, value: &Option<Text>) -> Result<(), AllocError>
    ensures before { writer.new.before ≡ writer.old.before }
    ensures tokens { OnOk result (writer.new.tokens ≡ writer.old.tokens ++ key name.now ∷ tokens_of (text_or_null value.now)) }
{
    writer.key(name)?;
    match value {
        Some(text) => writer.string(text.as_str()),
        None => writer.null(),
    }
}

fn write_text(writer: &mut Writer, name: &str, value: &str) -> Result<(), AllocError>
    ensures before { writer.new.before ≡ writer.old.before }
    ensures tokens { OnOk result (writer.new.tokens ≡ writer.old.tokens ++ key name.now ∷ tokens_of (text value.now)) }
{
    writer.key(name)?;
    writer.string(value)
}

fn write_number(writer: &mut Writer, name: &str, value: u32) -> Result<(), AllocError>
    ensures before { writer.new.before ≡ writer.old.before }
    ensures tokens { OnOk result (writer.new.tokens ≡ writer.old.tokens ++ key name.now ∷ tokens_of (whole (pos value))) }
{
    writer.key(name)?;
    writer.u64(u64::from(value))
}

fn write_truth(writer: &mut Writer, name: &str, value: bool) -> Result<(), AllocError>
    ensures before { writer.new.before ≡ writer.old.before }
    ensures tokens { OnOk result (writer.new.tokens ≡ writer.old.tokens ++ key name.now ∷ tokens_of (truth value)) }
{
    writer.key(name)?;
    writer.boolean(value)
}
