//! Types, trees and values of types, and what is laid over them.
use crate::trees::{add_tree, tree_of, word_of};
use fml_merge::{DefaultFault, check_defaults, default_of, overlay, overlay_feature, zero};
use fml_types::{
    FeatureDefinition, FieldType, Key, Manifest, TypeTable, read_type, without_spaces,
};
use fml_value::{Value, check, fits, takes, to_tree};
use json_tree::Tree;
use row_tables::{Fault, Found, cut};
use std::alloc::{AllocError, Global};

/// Adds the text of the type that a text is, without spaces.
pub(crate) fn add_type_of(alloc: Global, text: &str, found: &mut Found) {
    match read_type(alloc, text) {
        Ok(of) => add_type(&of, found),
        Err(_) => found.text("no type"),
    }
}

fn add_type(of: &FieldType, found: &mut Found) {
    match of {
        FieldType::Boolean => found.text("Boolean"),
        FieldType::Int => found.text("Int"),
        FieldType::String => found.text("String"),
        FieldType::Text => found.text("Text"),
        FieldType::Image => found.text("Image"),
        FieldType::Option(inner) => {
            found.text("Option<");
            add_type(inner.get(), found);
            found.text(">")
        }
        FieldType::List(inner) => {
            found.text("List<");
            add_type(inner.get(), found);
            found.text(">")
        }
        FieldType::Map(key, inner) => {
            found.texts(&["Map<", key_name(key), ","]);
            add_type(inner.get(), found);
            found.text(">")
        }
        FieldType::Named(name) => found.text(name.as_str()),
    }
}

fn key_name(key: &Key) -> &str {
    match key {
        Key::String => "String",
        Key::Named(name) => name.as_str(),
    }
}

/// Adds what stands between the spaces around a text, with a stroke on each side.
pub(crate) fn add_without_spaces(text: &str, found: &mut Found) {
    found.text("|");
    found.bytes(without_spaces(text.as_bytes()));
    found.text("|")
}

/// What is found of a type and a text. Of the kind `tree` it is whether the type takes the tree and whether the tree fits it, and of
/// `value` the kind of the value whose tree this is. Of `lay` it is the tree that comes of it where a patch is laid over a value or
/// over the type's zero; the text is the value's tree or `zero`, and the patch.
pub(crate) fn find_of_type(
    alloc: Global,
    types: &TypeTable,
    of: &FieldType,
    kind: &str,
    text: &str,
    found: &mut Found,
) -> Result<(), Fault> {
    if kind == "lay" {
        return find_laid(alloc, types, of, text, found);
    }
    let tree = tree_of(alloc, text.as_bytes())?;
    match kind {
        "tree" => Ok(add_fit(types, of, &tree, found)),
        _ => Ok(add_kind(alloc, types, of, &tree, found)),
    }
}

fn add_fit(types: &TypeTable, of: &FieldType, tree: &Tree, found: &mut Found) {
    let taken = word_of(takes(types, of, tree));
    let fitting = word_of(fits(types, of, tree));
    found.texts(&["takes ", taken, ", fits ", fitting])
}

fn add_kind(alloc: Global, types: &TypeTable, of: &FieldType, tree: &Tree, found: &mut Found) {
    match check(alloc, types, of, tree) {
        Ok(Some(value)) => add_kind_of(alloc, &value, tree, found),
        Ok(None) => found.text("none"),
        Err(_) => found.lack_memory(),
    }
}

// Adds the kind of a value, or the tree of its copy where that is another one than this.
fn add_kind_of(alloc: Global, value: &Value, tree: &Tree, found: &mut Found) {
    match copy_tree(alloc, value) {
        Ok(copy) if copy == *tree => found.text(kind_of(value)),
        Ok(copy) => add_tree(alloc, &copy, found),
        Err(_) => found.lack_memory(),
    }
}

// The tree of a copy of the value.
fn copy_tree(alloc: Global, value: &Value) -> Result<Tree, AllocError> {
    let copy = value.clone()?;
    to_tree(alloc, &copy)
}

fn kind_of(value: &Value) -> &str {
    match value {
        Value::Truth(_) => "truth",
        Value::Whole(_) => "whole",
        Value::Text(_) => "text",
        Value::Absent => "absent",
        Value::Present(_) => "present",
        Value::List(_) => "list",
        Value::Map(_) => "map",
        Value::Variant(_) => "variant",
        Value::Object(_) => "object",
    }
}

// Adds the text of the value's tree.
fn add_value(alloc: Global, value: &Value, found: &mut Found) {
    match to_tree(alloc, value) {
        Ok(tree) => add_tree(alloc, &tree, found),
        Err(_) => found.lack_memory(),
    }
}

fn find_laid(
    alloc: Global,
    types: &TypeTable,
    of: &FieldType,
    text: &str,
    found: &mut Found,
) -> Result<(), Fault> {
    let (base, patch) = text.split_once(": ").ok_or(Fault::NoRow)?;
    let patch = tree_of(alloc, patch.as_bytes())?;
    match base_of(alloc, types, of, base) {
        Ok(base) => Ok(add_laid(alloc, types, of, base, &patch, found)),
        Err(fault) => Err(fault),
    }
}

fn add_laid(
    alloc: Global,
    types: &TypeTable,
    of: &FieldType,
    base: Value,
    patch: &Tree,
    found: &mut Found,
) {
    match overlay(alloc, types, of, base, patch) {
        Ok(value) => add_value(alloc, &value, found),
        Err(_) => found.lack_memory(),
    }
}

// The value of a type whose tree this is, or the type's zero.
fn base_of(alloc: Global, types: &TypeTable, of: &FieldType, text: &str) -> Result<Value, Fault> {
    if text == "zero" {
        return Ok(zero(alloc, types, of)?);
    }
    let tree = tree_of(alloc, text.as_bytes())?;
    check(alloc, types, of, &tree)?.ok_or(Fault::NoRow)
}

/// The tree of a feature's default, with a patch laid over it where one stands here. Row: the name of the feature, and the patch.
pub(crate) fn find_default(
    alloc: Global,
    manifest: &Manifest,
    row: &str,
    found: &mut Found,
) -> Result<(), Fault> {
    let (name, patch) = cut(row);
    let feature = manifest.features.get(name).ok_or(Fault::NoRow)?;
    match default_of(alloc, manifest, feature) {
        Ok(value) if patch.is_empty() => Ok(add_value(alloc, &value, found)),
        Ok(value) => find_laid_over(alloc, manifest, feature, value, patch, found),
        Err(_) => Err(Fault::OutOfMemory),
    }
}

fn find_laid_over(
    alloc: Global,
    manifest: &Manifest,
    feature: &FeatureDefinition,
    value: Value,
    patch: &str,
    found: &mut Found,
) -> Result<(), Fault> {
    let patch = tree_of(alloc, patch.as_bytes())?;
    match overlay_feature(alloc, manifest, feature, value, &patch) {
        Ok(value) => Ok(add_value(alloc, &value, found)),
        Err(_) => Err(Fault::OutOfMemory),
    }
}

/// Adds `ok`, or the owner and the place of the first default that doesn't fit.
pub(crate) fn add_defaults(alloc: Global, manifest: &Manifest, found: &mut Found) {
    match check_defaults(alloc, manifest) {
        Ok(()) => found.text("ok"),
        Err(DefaultFault::BadDefault { owner, place }) => {
            found.texts(&[owner.as_str(), " ", place.as_str()])
        }
        Err(DefaultFault::OutOfMemory) => found.lack_memory(),
    }
}
