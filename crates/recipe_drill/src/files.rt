// The files of a drill, written as compact JSON, and its script.
ghost use Rattle.std.specs.Prelude.{◌≡◌, ◌++◌, IfOk, OnOk, map};
ghost use Rattle.std.specs.List.{range_with_len};
ghost use Rattle.json_tree.specs.Json.{list, object, items_of, members_of};
ghost use Rattle.json_tree.specs.Bytes.{text_of};
ghost use Rattle.json_tree.specs.Tokens.{tokens_of};
ghost use Rattle.recipe_drill.specs.Records.{record_json};
ghost use Rattle.recipe_drill.specs.Files as spec;

use crate::draws::draws_of;
use crate::members::{write_text, write_truth};
use crate::records::{set_feature_name, write_record};
use json::Writer;
use std::alloc::{AllocError, Global};

/// The numbers of the features, in the order of their decimals as texts.
const FEATURE_NUMBERS: [u32; 40] = [
    0, 1, 10, 11, 12, 13, 14, 15, 16, 17, 18, 19, 2, 20, 21, 22, 23, 24, 25, 26, 27, 28, 29, 3, 30,
    31, 32, 33, 34, 35, 36, 37, 38, 39, 4, 5, 6, 7, 8, 9,
];

/// The text of `manifest.json`.
pub(crate) fn manifest_text(alloc: Global) -> Result<Vec<u8>, AllocError>
    ensures { IfOk result (λ v. v.items ≡ text_of spec.manifest_json) }
{
    let mut writer = Writer::new(Vec::new(alloc));
    write_manifest(&mut writer, &mut String::new(alloc))?;
    Ok(writer.into_inner())
}

/// Writes the manifest. The names of the features are put together in `text`.
fn write_manifest(writer: &mut Writer, text: &mut String) -> Result<(), AllocError>
    ensures before { writer.new.before ≡ writer.old.before }
    ensures tokens { OnOk result (writer.new.tokens ≡ writer.old.tokens ++ tokens_of spec.manifest_json) }
{
    writer.begin_object()?;
    writer.key("channels")?;
    writer.begin_array()?;
    writer.string("release")?;
    writer.end_array()?;
    writer.key("features")?;
    write_definitions(writer, text)?;
    writer.end_object()
}

/// Writes the definitions of the features, by name.
fn write_definitions(writer: &mut Writer, text: &mut String) -> Result<(), AllocError>
    ensures before { writer.new.before ≡ writer.old.before }
    ensures tokens { OnOk result (writer.new.tokens ≡ writer.old.tokens ++ tokens_of (object (members_of (map spec.definition spec.feature_numbers)))) }
{
    writer.begin_object()?;
    for number in FEATURE_NUMBERS {
        set_feature_name(text, number)?;
        writer.key(text.as_str())?;
        write_definition(writer, number)?;
    }
    writer.end_object()
}

/// Writes the definition of the feature of this number.
fn write_definition(writer: &mut Writer, feature: u32) -> Result<(), AllocError>
    ensures before { writer.new.before ≡ writer.old.before }
    ensures tokens { OnOk result (writer.new.tokens ≡ writer.old.tokens ++ tokens_of (spec.definition_json feature)) }
{
    writer.begin_object()?;
    write_truth(writer, "allow-coenrollment", feature < 4)?;
    writer.key("variables")?;
    writer.begin_object()?;
    writer.key("enabled")?;
    write_variable(writer)?;
    writer.end_object()?;
    writer.end_object()
}

/// Writes a Boolean variable that is false by default.
fn write_variable(writer: &mut Writer) -> Result<(), AllocError>
    ensures before { writer.new.before ≡ writer.old.before }
    ensures tokens { OnOk result (writer.new.tokens ≡ writer.old.tokens ++ tokens_of spec.variable_json) }
{
    writer.begin_object()?;
    write_truth(writer, "default", false)?;
    write_text(writer, "type", "Boolean")?;
    writer.end_object()
}

/// The text of `context.json`.
pub(crate) fn context_text(alloc: Global) -> Result<Vec<u8>, AllocError>
    ensures { IfOk result (λ v. v.items ≡ text_of spec.context_json) }
{
    let mut writer = Writer::new(Vec::new(alloc));
    write_context(&mut writer)?;
    Ok(writer.into_inner())
}

fn write_context(writer: &mut Writer) -> Result<(), AllocError>
    ensures before { writer.new.before ≡ writer.old.before }
    ensures tokens { OnOk result (writer.new.tokens ≡ writer.old.tokens ++ tokens_of spec.context_json) }
{
    writer.begin_object()?;
    write_text(writer, "app_name", "fenix")?;
    write_text(writer, "app_version", "110.0.0")?;
    write_text(writer, "channel", "release")?;
    writer.end_object()
}

/// The text of `recipes.json`.
pub(crate) fn recipes_text(alloc: Global, start: u64, count: u32) -> Result<Vec<u8>, AllocError>
    ensures { IfOk result (λ v. v.items ≡ text_of (spec.recipes_json start count)) }
{
    let mut writer = Writer::new(Vec::new(alloc));
    write_recipes(&mut writer, &mut String::new(alloc), start, count)?;
    Ok(writer.into_inner())
}

/// Writes the recipes. The texts of their records are put together in `text`.
fn write_recipes(
    writer: &mut Writer,
    text: &mut String,
    start: u64,
    count: u32,
) -> Result<(), AllocError>
    ensures before { writer.new.before ≡ writer.old.before }
    ensures tokens { OnOk result (writer.new.tokens ≡ writer.old.tokens ++ tokens_of (spec.recipes_json start count)) }
{
    writer.begin_object()?;
    writer.key("data")?;
    write_records(writer, text, start, count)?;
    writer.end_object()
}

/// Writes the list of records, in their order.
fn write_records(
    writer: &mut Writer,
    text: &mut String,
    start: u64,
    count: u32,
) -> Result<(), AllocError>
    ensures before { writer.new.before ≡ writer.old.before }
    ensures tokens { OnOk result (writer.new.tokens ≡ writer.old.tokens ++ tokens_of (list (items_of (map (record_json start) (range_with_len 0 count))))) }
{
    let mut state = start;
    writer.begin_array()?;
    for index in 0..count {
        let draws = draws_of(start, &mut state, index);
        write_record(writer, text, draws, index)?;
    }
    writer.end_array()
}

/// The lines of the script, each with its end.
#[tactic(auto, unfolding(crate::specs::Files::script))]
pub(crate) fn script_text(alloc: Global) -> Result<Vec<u8>, AllocError>
    ensures { IfOk result (λ v. v.items ≡ spec.script) }
{
    let mut script = String::from_str(alloc, "manifest manifest.json release\n")?;
    script.push_str("context context.json\n")?;
    script.push_str("fetch recipes.json\n")?;
    script.push_str("apply\n")?;
    script.push_str("opt-out drill-0000\n")?;
    script.push_str("opt-in drill-0001 treatment\n")?;
    script.push_str("apply\n")?;
    Ok(script.into_bytes())
}
