// The records of a drill, written as compact JSON, token by token. The keys of each object rise.
ghost use Rattle.std.specs.Prelude.{◌≡◌, ◌++◌, OnOk, string_bytes, decimal};
ghost use Rattle.json_tree.specs.Tokens.{tokens_of};
ghost use Rattle.recipe_drill.specs.Records as spec;

use crate::draws::Draws;
use crate::members::{write_number, write_text, write_truth};
use itoa::Buffer;
use json::Writer;
use std::alloc::AllocError;

/// Writes the record of this number that has these draws. The texts of the record are put
/// together in `text`. The one error is want of memory.
pub(crate) fn write_record(
    writer: &mut Writer,
    text: &mut String,
    draws: Draws,
    index: u32,
) -> Result<(), AllocError>
    ensures before { writer.new.before ≡ writer.old.before }
    ensures tokens { OnOk result (writer.new.tokens ≡ writer.old.tokens ++ tokens_of (spec.drawn_record draws index)) }
{
    writer.begin_object()?;
    write_text(writer, "appName", "fenix")?;
    writer.key("branches")?;
    write_branches(writer, text, draws.feature)?;
    writer.key("bucketConfig")?;
    write_bucket(writer, text, draws.feature, draws.count)?;
    write_text(writer, "channel", "release")?;
    write_truth(writer, "isEnrollmentPaused", draws.pause == 0)?;
    write_truth(writer, "isRollout", draws.kind == 0)?;
    write_text(writer, "schemaVersion", "1.12.0")?;
    set_slug(text, index)?;
    write_text(writer, "slug", text.as_str())?;
    set_targeting(text, draws.version)?;
    write_text(writer, "targeting", text.as_str())?;
    writer.end_object()
}

/// Writes a branch in which the feature is off, and one in which it is on, each with ratio 1.
fn write_branches(writer: &mut Writer, text: &mut String, feature: u32) -> Result<(), AllocError>
    ensures before { writer.new.before ≡ writer.old.before }
    ensures tokens { OnOk result (writer.new.tokens ≡ writer.old.tokens ++ tokens_of (spec.branches_json feature)) }
{
    writer.begin_array()?;
    write_branch(writer, text, "control", feature, false)?;
    write_branch(writer, text, "treatment", feature, true)?;
    writer.end_array()
}

fn write_branch(
    writer: &mut Writer,
    text: &mut String,
    slug: &str,
    feature: u32,
    enabled: bool,
) -> Result<(), AllocError>
    ensures before { writer.new.before ≡ writer.old.before }
    ensures tokens { OnOk result (writer.new.tokens ≡ writer.old.tokens ++ tokens_of (spec.branch_json slug.now feature enabled)) }
{
    writer.begin_object()?;
    writer.key("features")?;
    writer.begin_array()?;
    write_feature(writer, text, feature, enabled)?;
    writer.end_array()?;
    write_number(writer, "ratio", 1)?;
    write_text(writer, "slug", slug)?;
    writer.end_object()
}

fn write_feature(
    writer: &mut Writer,
    text: &mut String,
    feature: u32,
    enabled: bool,
) -> Result<(), AllocError>
    ensures before { writer.new.before ≡ writer.old.before }
    ensures tokens { OnOk result (writer.new.tokens ≡ writer.old.tokens ++ tokens_of (spec.feature_json feature enabled)) }
{
    writer.begin_object()?;
    set_feature_name(text, feature)?;
    write_text(writer, "featureId", text.as_str())?;
    writer.key("value")?;
    write_value(writer, enabled)?;
    writer.end_object()
}

fn write_value(writer: &mut Writer, enabled: bool) -> Result<(), AllocError>
    ensures before { writer.new.before ≡ writer.old.before }
    ensures tokens { OnOk result (writer.new.tokens ≡ writer.old.tokens ++ tokens_of (spec.value_json enabled)) }
{
    writer.begin_object()?;
    write_truth(writer, "enabled", enabled)?;
    writer.end_object()
}

fn write_bucket(
    writer: &mut Writer,
    text: &mut String,
    feature: u32,
    count: u32,
) -> Result<(), AllocError>
    ensures before { writer.new.before ≡ writer.old.before }
    ensures tokens { OnOk result (writer.new.tokens ≡ writer.old.tokens ++ tokens_of (spec.bucket_json feature count)) }
{
    writer.begin_object()?;
    write_number(writer, "count", count)?;
    set_namespace(text, feature)?;
    write_text(writer, "namespace", text.as_str())?;
    write_text(writer, "randomizationUnit", "nimbus_id")?;
    write_number(writer, "start", 0)?;
    write_number(writer, "total", 10_000)?;
    writer.end_object()
}

#[tactic(auto, unfolding(crate::specs::Records::slug))]
fn set_slug(text: &mut String, index: u32) -> Result<(), AllocError>
    ensures { OnOk result (string_bytes text.new ≡ spec.slug index) }
{
    text.clear();
    text.push_str("drill-")?;
    push_number(text, index / 1000)?;
    push_number(text, index / 100 % 10)?;
    push_number(text, index / 10 % 10)?;
    push_number(text, index % 10)
}

/// Makes the text the name of the feature of this number.
#[tactic(auto, unfolding(crate::specs::Records::feature_name))]
pub(crate) fn set_feature_name(text: &mut String, feature: u32) -> Result<(), AllocError>
    ensures { OnOk result (string_bytes text.new ≡ spec.feature_name feature) }
{
    text.clear();
    text.push_str("feat-")?;
    push_number(text, feature)
}

#[tactic(auto, unfolding(crate::specs::Records::namespace))]
fn set_namespace(text: &mut String, feature: u32) -> Result<(), AllocError>
    ensures { OnOk result (string_bytes text.new ≡ spec.namespace feature) }
{
    text.clear();
    text.push_str("drill-")?;
    push_number(text, feature)
}

#[tactic(auto, unfolding(crate::specs::Records::targeting))]
fn set_targeting(text: &mut String, version: u32) -> Result<(), AllocError>
    ensures { OnOk result (string_bytes text.new ≡ spec.targeting version) }
{
    text.clear();
    text.push_str("app_version|versionCompare('")?;
    text.push_str(Buffer::new().format(90 + u64::from(version)))?;
    text.push_str(".!') >= 0")
}

fn push_number(text: &mut String, number: u32) -> Result<(), AllocError>
    ensures { OnOk result (string_bytes text.new ≡ string_bytes text.old ++ decimal number) }
{
    text.push_str(Buffer::new().format(number))
}
