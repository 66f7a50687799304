//! Records of recipes whose branches are `control`, which has no bucket, and `treatment`, which has all.
ghost use Rattle.std.specs.Prelude.{IfOk};
ghost use Rattle.recipe_reader.specs.Payloads.{AreValid};
ghost use Rattle.recipe_reader.specs.Records.{IsValid};

use crate::inputs::tree;
use recipe_reader::{Payload, Recipe, Recipes, read_payload, read_record};
use row_tables::{Fault, add_between, add_texts, cut};
use std::alloc::{AllocError, Global};

/// What samples the client's id and lets every bucket enrol.
pub(crate) const EVERY_BUCKET: &str = "nimbus_id 0 10000";

/// The member of a rollout.
pub(crate) const ROLLOUT: &str = r#","isRollout":true"#;

/// What is of a record's own.
#[derive(Clone, Copy)]
pub(crate) struct Record<'a> {
    pub(crate) slug: &'a str,
    /// What is sampled, and the first and the number of the buckets that may enrol, of 10,000.
    pub(crate) sampled: &'a str,
    /// The list of the features of `control`.
    pub(crate) control: &'a str,
    /// The list of the features of `treatment`.
    pub(crate) treatment: &'a str,
    /// Members that it has besides, with a comma before each.
    pub(crate) members: &'a str,
}

/// Adds a record, behind a comma where it isn't the first.
pub(crate) fn add_record(records: &mut String, record: Record<'_>) -> Result<(), AllocError> {
    let (unit, buckets) = cut(record.sampled);
    let (start, count) = cut(buckets);
    add_between(records, ",")?;
    add_texts(
        records,
        &[
            r#"{"slug":""#,
            record.slug,
            r#"","schemaVersion":"1.12.0","bucketConfig":{"randomizationUnit":""#,
            unit,
            r#"","namespace":"ns","start":"#,
            start,
            r#","count":"#,
            count,
            r#","total":10000},"branches":[{"slug":"control","ratio":0,"features":"#,
            record.control,
            r#"},{"slug":"treatment","ratio":1,"features":"#,
            record.treatment,
            "}]",
            record.members,
            "}",
        ],
    )
}

/// The recipe of a record.
pub(crate) fn recipe(alloc: Global, record: Record<'_>) -> Result<Recipe, Fault>
    ensures { IfOk result IsValid }
{
    let mut text = String::new(alloc);
    add_record(&mut text, record)?;
    recipe_of(alloc, text.as_str())
}

fn recipe_of(alloc: Global, text: &str) -> Result<Recipe, Fault>
    ensures { IfOk result IsValid }
{
    let tree = tree(alloc, text)?;
    read_record(alloc, &tree).ok().ok_or(Fault::NoRow)
}

/// The recipes of records that are separated by commas.
pub(crate) fn recipes(alloc: Global, records: &str) -> Result<Recipes, Fault>
    ensures { IfOk result AreValid }
{
    let mut text = String::new(alloc);
    add_texts(&mut text, &["{\"data\":[", records, "]}"])?;
    recipes_of(alloc, text.as_str())
}

fn recipes_of(alloc: Global, text: &str) -> Result<Recipes, Fault>
    ensures { IfOk result AreValid }
{
    let tree = tree(alloc, text)?;
    match read_payload(alloc, &tree) {
        Ok(Payload { recipes, .. }) => Ok(recipes),
        Err(_) => Err(Fault::NoRow),
    }
}
