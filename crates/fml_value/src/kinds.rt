// What kind of value a tree is, and which names a type table has.
ghost use Rattle.std.specs.Prelude.{◌≡◌};
ghost use Rattle.fml_types.specs.Named.{found};
ghost use Rattle.fml_types.specs.Shapes.{key_of};
ghost use Rattle.json_tree.specs.Tree.{json_of};
ghost use Rattle.fml_value.specs.Kinds as kinds;

use fml_types::{EnumDefinition, Key, TypeTable};
use json_tree::Tree;

pub(crate) fn is_null(tree: &Tree) -> bool
    ensures { result ≡ kinds.is_null (json_of tree.now) }
{
    matches!(tree, Tree::Null)
}

pub(crate) fn is_truth(tree: &Tree) -> bool
    ensures { result ≡ kinds.is_truth (json_of tree.now) }
{
    matches!(tree, Tree::Truth(_))
}

pub(crate) fn is_whole(tree: &Tree) -> bool
    ensures { result ≡ kinds.is_whole (json_of tree.now) }
{
    matches!(tree, Tree::Whole(_))
}

pub(crate) fn is_text(tree: &Tree) -> bool
    ensures { result ≡ kinds.is_text (json_of tree.now) }
{
    matches!(tree, Tree::Text(_))
}

pub(crate) fn is_object(tree: &Tree) -> bool
    ensures { result ≡ kinds.is_object (json_of tree.now) }
{
    matches!(tree, Tree::Object(_))
}

// Whether the text is the name of a variant.
pub(crate) fn is_variant(definition: &EnumDefinition, text: &str) -> bool
    ensures { result ≡ kinds.is_variant definition.now text.now }
{
    definition.variants.get(text).is_some()
}

/// Whether the text is a key of a map: each text is one of `String`, and each variant one of its
/// enum. It takes no memory.
pub fn is_key(types: &TypeTable, key: &Key, text: &str) -> bool
    ensures { result ≡ kinds.is_key types.now (key_of key.now) text.now }
{
    match key {
        Key::String => true,
        Key::Named(name) => is_variant_of(types, name.as_str(), text),
    }
}

// Whether the text is a variant of the enum of this name.
pub(crate) fn is_variant_of(types: &TypeTable, name: &str, text: &str) -> bool
    ensures { result ≡ kinds.is_variant_of (found name.now types.now.enums) text.now }
{
    match types.enums.get(name) {
        Some(definition) => is_variant(definition, text),
        None => false,
    }
}
