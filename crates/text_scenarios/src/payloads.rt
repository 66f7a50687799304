//! Rows on payloads, and on recipes in their order.
use crate::records::{add_record_named, recipe};
use crate::trees::tree;
use recipe_reader::{Payload, Recipe, Recipes, read_payload};
use row_tables::{Fault, Found};
use std::alloc::{AllocError, Global};

/// What is found of a payload whose records have slugs, between which there are spaces. Row: the slugs; and of the kind `inserted`
/// the slug of one more recipe, with ` | ` before it.
pub(crate) fn find_of_slugs(
    alloc: Global,
    kind: &str,
    input: &str,
    found: &mut Found,
) -> Result<(), Fault> {
    let (slugs, slug) = input.split_once(" | ").unwrap_or((input, ""));
    let mut text = Found::new(alloc);
    add_records(slugs, &mut text);
    find_of_payload(alloc, kind, text.as_str(), slug, found)
}

fn add_records(slugs: &str, text: &mut Found) {
    text.text("{\"data\":[");
    for (place, slug) in slugs.split(' ').enumerate() {
        text.text(if place > 0 { "," } else { "" });
        add_record_named(slug, text);
    }
    text.text("]}")
}

/// What is found of a payload, or its fault.
pub(crate) fn find_of_payload(
    alloc: Global,
    kind: &str,
    text: &str,
    slug: &str,
    found: &mut Found,
) -> Result<(), Fault> {
    let tree = tree(alloc, text)?;
    match read_payload(alloc, &tree) {
        Ok(payload) => find_in(alloc, kind, &payload, slug, found),
        Err(fault) => Ok(found.debugged(&fault)),
    }
}

// Of the kind `payload` the slugs of its recipes, and the records that are skipped; of `inserted` and `last` as is said there; and
// else `none`.
fn find_in(
    alloc: Global,
    kind: &str,
    payload: &Payload,
    slug: &str,
    found: &mut Found,
) -> Result<(), Fault> {
    match kind {
        "payload" => Ok(add_payload(payload, found)),
        "inserted" => find_inserted(alloc, &payload.recipes, slug, found),
        "last" => Ok(add_last(alloc, payload.recipes.as_slice(), found)?),
        _ => Ok(found.text("none")),
    }
}

fn add_payload(payload: &Payload, found: &mut Found) {
    add_slugs(payload.recipes.as_slice(), found);
    found.text("; ");
    found.debugged(&payload.skipped.as_slice());
}

// Adds the slugs of recipes, each with a space behind the one before it.
fn add_slugs(recipes: &[Recipe], found: &mut Found) {
    for (place, recipe) in recipes.iter().enumerate() {
        found.text(if place > 0 { " " } else { "" });
        found.text(recipe.slug.text());
    }
}

// Whether a recipe of this slug is put into a copy of recipes, the slugs of the copy, those of the recipes, and whether each then
// has it.
fn find_inserted(
    alloc: Global,
    recipes: &Recipes,
    slug: &str,
    found: &mut Found,
) -> Result<(), Fault> {
    let mut copy = recipes.clone()?;
    insert_into(alloc, recipes, &mut copy, slug, found)
}

fn insert_into(
    alloc: Global,
    recipes: &Recipes,
    copy: &mut Recipes,
    slug: &str,
    found: &mut Found,
) -> Result<(), Fault> {
    if *copy != *recipes || recipes.as_slice().is_empty() {
        return Ok(found.text("a copy differs"));
    }
    let mut record = Found::new(alloc);
    add_record_named(slug, &mut record);
    let is_new = copy.insert(recipe(alloc, record.as_str())?)?;
    found.displayed(&is_new);
    found.text("; ");
    Ok(add_both(copy, recipes, slug, found))
}

// Adds the slugs of both, and whether each has the slug.
fn add_both(first: &Recipes, second: &Recipes, slug: &str, found: &mut Found) {
    add_slugs(first.as_slice(), found);
    found.text("; ");
    add_slugs(second.as_slice(), found);
    let (is_in, was_in) = (first.get(slug).is_some(), second.get(slug).is_some());
    found.text("; ");
    found.all_displayed(&[is_in, was_in]);
}

// The slug of the last recipe, which is put at the end of none.
fn add_last(alloc: Global, recipes: &[Recipe], found: &mut Found) -> Result<(), AllocError> {
    let mut others = Recipes::new(alloc);
    if let Some(last) = recipes.last() {
        others.push(last.clone()?)?;
    }
    Ok(add_slugs(others.as_slice(), found))
}
