//! Rows on records that are read one by one, and on recipes that are written back.
ghost use Rattle.recipe_reader.specs.Records.{IsValid};

use crate::trees::{add_tree, tree};
use json::Writer;
use json_tree::Tree;
use recipe_reader::{
    Recipe, RecordFault, read_record, record_length, record_of, reread, write_record,
};
use row_tables::{Fault, Found, parts};
use std::alloc::Global;

/// The recipe of a record.
pub(crate) fn recipe(alloc: Global, record: &str) -> Result<Recipe, Fault> {
    let tree = tree(alloc, record)?;
    read_record(alloc, &tree).ok().ok_or(Fault::NoRow)
}

/// What is found of the recipe of a record, or the reason to skip the record. Of the kind `record` it is the text of the recipe,
/// which is written and read again as the same; of `absent` whether it has an application, a channel, a targeting and a moment of
/// publishing; and else `recipe`.
pub(crate) fn find_of_record(
    alloc: Global,
    kind: &str,
    record: &str,
    found: &mut Found,
) -> Result<(), Fault> {
    let tree = tree(alloc, record)?;
    match read_record(alloc, &tree) {
        Ok(recipe) => Ok(add_recipe(alloc, kind, &recipe, found)),
        Err(RecordFault::Skip(reason)) => Ok(found.debugged(&reason)),
        Err(RecordFault::OutOfMemory) => Err(Fault::OutOfMemory),
    }
}

fn add_recipe(alloc: Global, kind: &str, recipe: &Recipe, found: &mut Found)
    requires { IsValid recipe.now }
{
    match kind {
        "record" => add_written(alloc, recipe, found),
        "absent" => add_presence(recipe, found),
        _ => found.text("recipe"),
    }
}

// Adds the text of a recipe's tree, and whether it is written or read again otherwise.
fn add_written(alloc: Global, recipe: &Recipe, found: &mut Found)
    requires { IsValid recipe.now }
{
    add_record_of(alloc, recipe, found);
    if found.as_str().len() as u128 != record_length(recipe) {
        return found.text(", another length");
    }
    if !is_streamed_as(alloc, recipe, found.as_str()) {
        return found.text(", another text");
    }
    if !is_reread(alloc, recipe) {
        found.text(", another recipe")
    }
}

// Adds the text of a recipe's tree.
fn add_record_of(alloc: Global, recipe: &Recipe, found: &mut Found) {
    let Ok(tree) = record_of(alloc, recipe) else {
        return found.lack_memory();
    };
    add_tree(alloc, &tree, found)
}

// Whether a recipe is written as this text where no tree of it is made.
fn is_streamed_as(alloc: Global, recipe: &Recipe, text: &str) -> bool
    requires { IsValid recipe.now }
{
    let mut writer = Writer::new(Vec::new(alloc));
    let is_written = write_record(&mut writer, recipe).is_ok();
    is_written && writer.into_inner().as_slice() == text.as_bytes()
}

// Whether a recipe is read again as the same, and copied as the same.
fn is_reread(alloc: Global, recipe: &Recipe) -> bool
    requires { IsValid recipe.now }
{
    let is_same = match reread(alloc, recipe) {
        Ok(again) => again == *recipe,
        Err(_) => false,
    };
    is_same && is_copied(recipe)
}

fn is_copied(recipe: &Recipe) -> bool {
    match recipe.clone() {
        Ok(copy) => copy == *recipe,
        Err(_) => false,
    }
}

// What a record has at the ends of its parts, with a comma before each member. Of two members with one key the last counts.
#[derive(Clone, Copy)]
struct Ends<'a> {
    record: &'a str,
    bucket: &'a str,
    branch: &'a str,
    feature: &'a str,
}

const NO_ENDS: Ends<'static> = Ends {
    record: "",
    bucket: "",
    branch: "",
    feature: "",
};

fn ends_of<'a>(part: &str, members: &'a str) -> Option<Ends<'a>> {
    let mut ends: Ends<'a> = NO_ENDS;
    match part {
        "record" => ends.record = members,
        "bucket" => ends.bucket = members,
        "branch" => ends.branch = members,
        "feature" => ends.feature = members,
        _ => return None,
    }
    Some(ends)
}

// Adds a record that is a recipe, with this slug.
fn add_record(slug: &str, ends: Ends<'_>, record: &mut Found) {
    record.texts(&[
        r#"{"slug":""#,
        slug,
        r#"","schemaVersion":"1.12.0","bucketConfig":{"randomizationUnit":"nimbus_id","namespace":"ns","start":0,"count":1,"total":1"#,
        ends.bucket,
        r#"},"branches":[{"slug":"control","ratio":1,"features":[{"featureId":"home""#,
        ends.feature,
        "}]",
        ends.branch,
        "}]",
        ends.record,
        "}",
    ])
}

/// Adds a record that is a recipe, with this slug.
pub(crate) fn add_record_named(slug: &str, record: &mut Found) {
    add_record(slug, NO_ENDS, record)
}

/// What is found of a record with members at the end of a part: `record`, `bucket`, `branch` or `feature`. Row: the members, with a
/// comma before each.
pub(crate) fn find_with(
    alloc: Global,
    kind: &str,
    part: &str,
    members: &str,
    found: &mut Found,
) -> Result<(), Fault> {
    let ends = ends_of(part, members).ok_or(Fault::NoRow)?;
    let mut record = Found::new(alloc);
    add_record("alpha", ends, &mut record);
    find_of_record(alloc, kind, record.as_str(), found)
}

fn add_presence(recipe: &Recipe, found: &mut Found) {
    let (name, channel) = (recipe.app_name.is_some(), recipe.channel.is_some());
    let (targeting, published) = (recipe.targeting.is_some(), recipe.published.is_some());
    found.all_displayed(&[name, channel, targeting, published]);
}

/// Whether the recipes of two records are equal. Row: the records with ` | ` between them.
pub(crate) fn find_equal(alloc: Global, input: &str, found: &mut Found) -> Result<(), Fault> {
    let (first, second) = parts(input)?;
    let (first, second) = (recipe(alloc, first), recipe(alloc, second));
    match (&first, &second) {
        (Ok(first), Ok(second)) => Ok(found.displayed(&(first == second))),
        _ => Err(Fault::NoRow),
    }
}
