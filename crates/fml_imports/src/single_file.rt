// A manifest as one file.
ghost use Rattle.std.specs.Prelude.{◌≡◌, ◌≤◌, ◌++◌, ℕ, List, [], ◌∷◌, codes, option_map, IfOk, OnOk};
ghost use Rattle.json_tree.specs.Bytes.{max_depth, text_of};
ghost use Rattle.json_tree.specs.Json.{IsAbove, depth, text};
ghost use Rattle.json_tree.specs.Tree.{json_of};
ghost use Rattle.fml_imports.specs.Laws.{IsFileOf, IsTextOf};
ghost use Rattle.fml_imports.specs.Single.{by_name_json, definition_json, entry_json, enum_json, feature_json, field_json, given, list_json, single, variant_json};
ghost use Rattle.fml_imports.specs.WellFormed.{IsWellFormed};

use crate::type_texts::type_text;
use fml_types::{
    ByName, DefaultEntry, EnumDefinition, FeatureDefinition, Field, Manifest, ObjectDefinition,
};
use json_tree::{Items, Members, Tree};
use sequences::{Sequence, Text};
use std::alloc::{AllocError, Global};

/// A part of a manifest that is written as a JSON value.
trait Written: Sized {
    ghost use Rattle.std.specs.Prelude.{◌≡◌, IfOk};
    ghost use Rattle.json_tree.specs.Json.{Json};
    ghost use Rattle.json_tree.specs.Tree.{json_of};

    /// The value.
    ghost written: { Self → Json };

    /// The tree of the value. The one error is want of memory.
    fn tree(&self, alloc: Global) -> Result<Tree, AllocError>
        ensures { IfOk result (λ t. json_of t ≡ written self.now) };
}

/// The manifest as the tree of one file, which includes and imports no other.
///
/// It is an object with `channels`, the manifest's channel alone, `enums`, `features` and
/// `objects`. An enum has `variants`, each of them an empty object, and an object has `fields`. A
/// feature has `allow-coenrollment`, `defaults` and `variables`; an entry of `defaults` has a
/// `value`, and `channels` where it has them. A field or variable has a `type`, and a `default`
/// where there is one. A type has no spaces but one after the comma of a map.
///
/// Where the manifest is well formed, as each is that is joined of files that are read, the text of
/// the file alone, read for the manifest's channel, gives the manifest. The one error is want of
/// memory.
pub fn single(alloc: Global, manifest: &Manifest) -> Result<Tree, AllocError>
    ensures file { IfOk result (λ t. json_of t ≡ single manifest.now) }
    ensures reads_back { IfOk result (λ t. IsWellFormed manifest.now → (name : List ℕ) → IsFileOf name (json_of t) manifest.now) }
    ensures shallow { IfOk result (λ t. IsWellFormed manifest.now → depth (json_of t) ≤ max_depth) }
    ensures text_reads_back { IfOk result (λ t. IsWellFormed manifest.now → (name : List ℕ) → IsTextOf name (text_of (json_of t)) manifest.now) }
{
    let tree = whole_file(alloc, manifest)?;
    // that the tree is sound, so that its text is read as the tree
    tree.keeps();
    Ok(tree)
}

fn whole_file(alloc: Global, manifest: &Manifest) -> Result<Tree, AllocError>
    ensures { IfOk result (λ t. json_of t ≡ single manifest.now) }
{
    let mut members = Members::new(alloc);
    put_channel(alloc, &mut members, &manifest.channel)?;
    put_table(alloc, &mut members, "enums", &manifest.types.enums)?;
    put_table(alloc, &mut members, "features", &manifest.features)?;
    put_table(alloc, &mut members, "objects", &manifest.types.objects)?;
    Ok(Tree::Object(members))
}

/// Puts the list of this channel alone.
fn put_channel(alloc: Global, members: &mut Members, channel: &Text) -> Result<(), AllocError>
    requires { IsAbove (codes "channels") members.old }
    ensures { OnOk result (members.new ≡ members.old ++ (codes "channels", list_json text (channel.now ∷ [])) ∷ []) }
{
    let mut channels = Items::new(alloc);
    channels.push(Tree::Text(channel.clone()?))?;
    put(alloc, members, "channels", Tree::List(channels))
}

/// Puts an object with a member for each name of the table.
fn put_table<T: Written>(
    alloc: Global,
    members: &mut Members,
    key: &str,
    table: &ByName<T>,
) -> Result<(), AllocError>
    requires { IsAbove key.now members.old }
    ensures { OnOk result (members.new ≡ members.old ++ (key.now, by_name_json T.written table.now) ∷ []) }
{
    let tree = by_name(alloc, table)?;
    put(alloc, members, key, tree)
}

/// Puts a member at the end, whose key is above each that is there.
fn put(alloc: Global, members: &mut Members, key: &str, value: Tree) -> Result<(), AllocError>
    requires { IsAbove key.now members.old }
    ensures { OnOk result (members.new ≡ members.old ++ (key.now, json_of value) ∷ []) }
{
    let key = Text::new(alloc, key)?;
    members.push(key, value)
}

impl Written for () {
    ghost written = { variant_json };

    fn tree(&self, alloc: Global) -> Result<Tree, AllocError> {
        Ok(Tree::Object(Members::new(alloc)))
    }
}

impl Written for EnumDefinition {
    ghost written = { enum_json };

    fn tree(&self, alloc: Global) -> Result<Tree, AllocError> {
        let mut members = Members::new(alloc);
        put_table(alloc, &mut members, "variants", &self.variants)?;
        Ok(Tree::Object(members))
    }
}

impl Written for ObjectDefinition {
    ghost written = { definition_json };

    fn tree(&self, alloc: Global) -> Result<Tree, AllocError> {
        let mut members = Members::new(alloc);
        put_table(alloc, &mut members, "fields", &self.fields)?;
        Ok(Tree::Object(members))
    }
}

impl Written for Field {
    ghost written = { field_json };

    #[tactic(auto, using(crate::proofs::Written::above_given))]
    fn tree(&self, alloc: Global) -> Result<Tree, AllocError> {
        let mut members = given(alloc, "default", copied(&self.default)?)?;
        let of = type_text(alloc, &self.field_type)?;
        put(alloc, &mut members, "type", Tree::Text(of))?;
        Ok(Tree::Object(members))
    }
}

impl Written for DefaultEntry {
    ghost written = { entry_json };

    #[tactic(auto, using(crate::proofs::Written::above_given))]
    fn tree(&self, alloc: Global) -> Result<Tree, AllocError> {
        let mut members = given(alloc, "channels", channels(alloc, &self.channels)?)?;
        put(alloc, &mut members, "value", self.value.clone()?)?;
        Ok(Tree::Object(members))
    }
}

impl Written for FeatureDefinition {
    ghost written = { feature_json };

    fn tree(&self, alloc: Global) -> Result<Tree, AllocError> {
        let mut members = Members::new(alloc);
        let allows = Tree::Truth(self.allows_coenrollment);
        put(alloc, &mut members, "allow-coenrollment", allows)?;
        put_entries(alloc, &mut members, &self.defaults)?;
        put_table(alloc, &mut members, "variables", &self.variables)?;
        Ok(Tree::Object(members))
    }
}

/// An object with a member for each name.
fn by_name<T: Written>(alloc: Global, table: &ByName<T>) -> Result<Tree, AllocError>
    ensures { IfOk result (λ t. json_of t ≡ by_name_json T.written table.now) }
{
    let pairs = table.as_slice();
    let mut members = Members::new(alloc);
    for (name, part) in pairs {
        put(alloc, &mut members, name.as_str(), part.tree(alloc)?)?;
    }
    Ok(Tree::Object(members))
}

/// Puts the list of the entries.
fn put_entries(
    alloc: Global,
    members: &mut Members,
    defaults: &Sequence<DefaultEntry>,
) -> Result<(), AllocError>
    requires { IsAbove (codes "defaults") members.old }
    ensures { OnOk result (members.new ≡ members.old ++ (codes "defaults", list_json entry_json defaults.now) ∷ []) }
{
    let list = entries(alloc, defaults)?;
    put(alloc, members, "defaults", list)
}

fn entries(alloc: Global, entries: &Sequence<DefaultEntry>) -> Result<Tree, AllocError>
    ensures { IfOk result (λ t. json_of t ≡ list_json entry_json entries.now) }
{
    let entries = entries.as_slice();
    let mut items = Items::new(alloc);
    for entry in entries {
        items.push(entry.tree(alloc)?)?;
    }
    Ok(Tree::List(items))
}

/// The channels of an entry, where it has them.
fn channels(alloc: Global, channels: &Option<Sequence<Text>>) -> Result<Option<Tree>, AllocError>
    ensures { IfOk result (λ o. option_map json_of o ≡ option_map (list_json text) channels.now) }
{
    match channels {
        Some(names) => Ok(Some(texts(alloc, names)?)),
        None => Ok(None),
    }
}

fn texts(alloc: Global, names: &Sequence<Text>) -> Result<Tree, AllocError>
    ensures { IfOk result (λ t. json_of t ≡ list_json text names.now) }
{
    let names = names.as_slice();
    let mut items = Items::new(alloc);
    for name in names {
        items.push(Tree::Text(name.clone()?))?;
    }
    Ok(Tree::List(items))
}

fn copied(tree: &Option<Tree>) -> Result<Option<Tree>, AllocError>
    ensures { IfOk result (λ copy. copy ≡ tree.now) }
{
    match tree {
        Some(tree) => Ok(Some(tree.clone()?)),
        None => Ok(None),
    }
}

/// A member, where there is one.
fn given(alloc: Global, key: &str, value: Option<Tree>) -> Result<Members, AllocError>
    ensures { IfOk result (λ ms. ms ≡ given key.now (option_map json_of value)) }
{
    let mut members = Members::new(alloc);
    if let Some(value) = value {
        put(alloc, &mut members, key, value)?;
    }
    Ok(members)
}
