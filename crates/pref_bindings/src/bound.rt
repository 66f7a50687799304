// What the branch of a recipe sets of the preferences that variables are bound to.
ghost use Rattle.std.specs.Prelude.{◌≡◌, fold, IfOk, IsTrue, OnOk, option_map};
ghost use Rattle.std.specs.List.{AllByRecursion, filter_map};
ghost use Rattle.json_tree.specs.Tree.{json_of};
ghost use Rattle.plain_text.specs.Names.{is_name};
ghost use Rattle.pref_bindings.specs.Bound.{bound_value, bound_values, branch_with, is_bound_type, set_by, set_by_branch, setting_of, taken, variable_of, with_any, with_setting};
ghost use Rattle.pref_bindings.specs.Changes.{AreSettings, IsSetting};
ghost use Rattle.pref_bindings.specs.Preferences.{IsValueOrNone};

use crate::bindings::{Binding, Bindings};
use crate::feature_range::of_feature;
use fml_types::{Field, FieldType, Manifest, TypeTable};
use fml_value::takes;
use json_tree::Tree;
use plain_text::Slug;
use recipe_reader::{Branch, Recipe};
use sequences::{Sequence, Text};
use std::alloc::{AllocError, Global};
use std::collections::BTreeMap;

/// What the recipe's branch sets of the preferences that variables are bound to, in order by preference: each binding whose feature
/// the branch has, and whose variable the manifest's feature has with type `Boolean`, `Int`, `String` or `Text`, gives its preference
/// the member of the branch's value, where the type takes that. The one error is want of memory.
#[tactic(auto, unfolding(crate::specs::Bound::bound_values))]
pub fn bound_values(
    alloc: Global,
    manifest: &Manifest,
    recipe: &Recipe,
    branch: &Slug,
    bindings: &Bindings,
) -> Result<Sequence<(Text, Tree)>, AllocError>
    ensures values { IfOk result (λ values. values ≡ bound_values manifest.now recipe.now branch.now bindings.now) }
    ensures settings { IfOk result AreSettings }
{
    match branch_with(branch.text(), recipe) {
        Some(branch) => set_by_branch(alloc, manifest, bindings, branch),
        None => Ok(Sequence::new(alloc)),
    }
}

// The recipe's branch of that slug.
fn branch_with<'a>(slug: &str, recipe: &'a Recipe) -> Option<&'a Branch>
    ensures { option_map (λ b. b.now) result ≡ branch_with slug.now recipe.now }
{
    let branches = recipe.branches.as_slice();
    branches.iter().find(|branch| branch.slug.text() == slug)
}

// What the branch sets, in order by preference: the bindings of each of its features are looked up.
fn set_by_branch(
    alloc: Global,
    manifest: &Manifest,
    bindings: &Bindings,
    branch: &Branch,
) -> Result<Sequence<(Text, Tree)>, AllocError>
    ensures values { IfOk result (λ values. values ≡ set_by_branch manifest.now bindings.now branch.now) }
    ensures settings { IfOk result AreSettings }
{
    let all = bindings.as_slice();
    let mut settings = BTreeMap::new(alloc);
    for set in branch.features.as_slice() {
        let own = of_feature(set.feature.as_str(), all);
        add_settings(&mut settings, manifest, branch, own)?;
    }
    in_order(alloc, settings)
}

// Adds what the branch sets of the bindings' preferences.
fn add_settings(
    settings: &mut BTreeMap<Text, Tree>,
    manifest: &Manifest,
    branch: &Branch,
    bindings: &[Binding],
) -> Result<(), AllocError>
    requires names { AllByRecursion (λ b. IsTrue (is_name b.preference)) bindings.now }
    requires settings { AllByRecursion IsSetting settings.old.entries }
    ensures added { OnOk result (settings.new.entries ≡ fold with_setting settings.old.entries (filter_map (setting_of manifest.now branch.now) bindings.now)) }
    ensures settings { OnOk result (AllByRecursion IsSetting settings.new.entries) }
{
    for binding in bindings {
        add_setting(settings, manifest, branch, binding)?;
    }
    Ok(())
}

// Adds what the branch sets of the binding's preference, where that is something.
fn add_setting(
    settings: &mut BTreeMap<Text, Tree>,
    manifest: &Manifest,
    branch: &Branch,
    binding: &Binding,
) -> Result<(), AllocError>
    requires name { IsTrue (is_name binding.now.preference) }
    requires settings { AllByRecursion IsSetting settings.old.entries }
    ensures added { OnOk result (settings.new.entries ≡ with_any settings.old.entries (setting_of manifest.now branch.now binding.now)) }
    ensures settings { OnOk result (AllByRecursion IsSetting settings.new.entries) }
{
    if let Some(value) = bound_value(manifest, branch, binding)? {
        settings.insert(binding.preference.clone()?, value)?;
    }
    Ok(())
}

// The settings of the map, in order by name.
fn in_order(
    alloc: Global,
    settings: BTreeMap<Text, Tree>,
) -> Result<Sequence<(Text, Tree)>, AllocError>
    requires { AllByRecursion IsSetting settings.entries }
    ensures values { IfOk result (λ values. values ≡ settings.entries) }
    ensures settings { IfOk result AreSettings }
{
    let pairs: Vec<(Text, Tree)> = settings.into_iter().collect(alloc)?;
    Ok(Sequence::from_vec(pairs))
}

// The value that the branch gives to the variable of the binding, where the manifest has that.
fn bound_value(
    manifest: &Manifest,
    branch: &Branch,
    binding: &Binding,
) -> Result<Option<Tree>, AllocError>
    ensures value { IfOk result (λ value. value ≡ bound_value manifest.now branch.now binding.now) }
    ensures sound { IfOk result IsValueOrNone }
{
    let feature = binding.feature.as_str();
    let variable = binding.variable.as_str();
    let Some(value) = set_by(feature, branch) else {
        return Ok(None);
    };
    let Some(field) = variable_of(feature, variable, manifest) else {
        return Ok(None);
    };
    match value.get(variable) {
        Some(member) => taken(&manifest.types, &field.field_type, member),
        None => Ok(None),
    }
}

// What the branch sets of the feature.
fn set_by<'a>(feature: &str, branch: &'a Branch) -> Option<&'a Tree>
    ensures { option_map (λ t. t.now) result ≡ set_by feature.now branch.now }
{
    let features = branch.features.as_slice();
    let set = features.iter().find(|set| set.feature.as_str() == feature)?;
    Some(&set.value)
}

// The variable of the manifest's feature.
fn variable_of<'a>(feature: &str, variable: &str, manifest: &'a Manifest) -> Option<&'a Field>
    ensures { option_map (λ field. field.now) result ≡ variable_of feature.now variable.now manifest.now }
{
    manifest.features.get(feature)?.variables.get(variable)
}

// The value, where it is one of a preference and the type takes it.
#[tactic(auto, using(recipe_reader::proofs::Trees::same_trees, crate::proofs::BoundValues::taken_value))]
fn taken(types: &TypeTable, of: &FieldType, tree: &Tree) -> Result<Option<Tree>, AllocError>
    ensures value { IfOk result (λ value. value ≡ taken types.now of.now (json_of tree.now)) }
    ensures sound { IfOk result IsValueOrNone }
{
    tree.keeps();
    if is_bound_type(of) && takes(types, of, tree) {
        return Ok(Some(tree.clone()?));
    }
    Ok(None)
}

// Whether the values of the type are values of preferences.
fn is_bound_type(of: &FieldType) -> bool
    ensures { result ≡ is_bound_type of.now }
{
    matches!(
        of,
        FieldType::Boolean | FieldType::Int | FieldType::String | FieldType::Text
    )
}
