//! Rows on the preferences that variables are bound to, and on what a branch sets of them.
use super::manifests::{add_features, no_features};
use crate::inputs::{add_tree, slug, tree};
use crate::records::{EVERY_BUCKET, Record, recipe};
use fml_types::Manifest;
use json_tree::Tree;
use plain_text::Slug;
use pref_bindings::{Binding, BindingFault, Bindings, bound_values, read_bindings};
use recipe_reader::Recipe;
use row_tables::{Fault, Found, parts};
use sequences::Text;
use std::alloc::{AllocError, Global};

/// The bindings of a tree, each as its feature, its variable and its preference, or why there are none; `none` where they are
/// empty. Row: the tree.
pub(crate) fn find_bindings(alloc: Global, input: &str, found: &mut Found) -> Result<(), Fault> {
    let tree = tree(alloc, input)?;
    add_bindings_of(alloc, &tree, found)
}

fn add_bindings_of(alloc: Global, tree: &Tree, found: &mut Found) -> Result<(), Fault> {
    match read_bindings(alloc, tree) {
        Ok(bindings) => Ok(add_bindings(bindings.as_slice(), found)),
        Err(BindingFault::BadBinding(feature)) => Ok(add_bad(feature.as_str(), found)),
        Err(BindingFault::OutOfMemory) => Err(Fault::OutOfMemory),
    }
}

fn add_bad(feature: &str, found: &mut Found) {
    found.text("BadBinding ");
    found.debugged(&feature);
}

fn add_bindings(bindings: &[Binding], found: &mut Found) {
    for binding in bindings {
        add_binding(binding, found);
    }
    found.none();
}

fn add_binding(binding: &Binding, found: &mut Found) {
    let (variable, preference) = (binding.variable.as_str(), binding.preference.as_str());
    found.between(", ");
    found.texts(&[binding.feature.as_str(), " ", variable, " ", preference]);
}

/// What a branch sets of the preferences that variables are bound to; `none` where that is nothing. Row: the branch, the variables
/// of a manifest, the features of the branch `treatment`, and the bindings, with ` | ` between two.
pub(crate) fn find_bound(alloc: Global, input: &str, found: &mut Found) -> Result<(), Fault> {
    let mut manifest = no_features(alloc);
    let outcome = find_bound_over(alloc, &mut manifest, input, found);
    drop(manifest);
    outcome
}

fn find_bound_over(
    alloc: Global,
    manifest: &mut Manifest,
    input: &str,
    found: &mut Found,
) -> Result<(), Fault> {
    let (branch, rest) = parts(input)?;
    let (features, rest) = parts(rest)?;
    add_features(alloc, features, manifest)?;
    find_bound_in(alloc, manifest, branch, rest, found)
}

fn find_bound_in(
    alloc: Global,
    manifest: &Manifest,
    branch: &str,
    rest: &str,
    found: &mut Found,
) -> Result<(), Fault> {
    let (features, spelled) = parts(rest)?;
    let recipe = recipe_with(alloc, features)?;
    let outcome = find_bound_by(alloc, manifest, &recipe, branch, spelled, found);
    drop(recipe);
    outcome
}

// A recipe whose branch `treatment` has these features, and whose branch `control` has none.
fn recipe_with(alloc: Global, features: &str) -> Result<Recipe, Fault> {
    let record = Record {
        slug: "alpha",
        sampled: EVERY_BUCKET,
        control: "[]",
        treatment: features,
        members: "",
    };
    recipe(alloc, record)
}

fn find_bound_by(
    alloc: Global,
    manifest: &Manifest,
    recipe: &Recipe,
    branch: &str,
    spelled: &str,
    found: &mut Found,
) -> Result<(), Fault> {
    let bindings = bindings(alloc, spelled)?;
    find_set(alloc, manifest, recipe, &bindings, branch, found)
}

fn find_set(
    alloc: Global,
    manifest: &Manifest,
    recipe: &Recipe,
    bindings: &Bindings,
    branch: &str,
    found: &mut Found,
) -> Result<(), Fault> {
    let branch = slug(alloc, branch)?;
    Ok(add_set(alloc, manifest, recipe, bindings, &branch, found)?)
}

fn add_set(
    alloc: Global,
    manifest: &Manifest,
    recipe: &Recipe,
    bindings: &Bindings,
    branch: &Slug,
    found: &mut Found,
) -> Result<(), AllocError> {
    let values = bound_values(alloc, manifest, recipe, branch, bindings)?;
    add_values(alloc, values.as_slice(), found);
    Ok(())
}

fn add_values(alloc: Global, values: &[(Text, Tree)], found: &mut Found) {
    for (name, value) in values {
        found.between(", ");
        found.texts(&[name.as_str(), " "]);
        add_tree(alloc, value, found);
    }
    found.none();
}

fn bindings(alloc: Global, text: &str) -> Result<Bindings, Fault> {
    let tree = tree(alloc, text)?;
    bindings_of(alloc, &tree)
}

fn bindings_of(alloc: Global, tree: &Tree) -> Result<Bindings, Fault> {
    match read_bindings(alloc, tree) {
        Ok(bindings) => Ok(bindings),
        Err(_) => Err(Fault::NoRow),
    }
}
