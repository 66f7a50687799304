// Which trees a type takes.
ghost use Rattle.std.specs.Prelude.{◌≡◌};
ghost use Rattle.fml_types.specs.Named.{found};
ghost use Rattle.fml_types.specs.Shapes.{shape_of};
ghost use Rattle.json_tree.specs.Tree.{json_of};
ghost use Rattle.fml_value.specs.Takes as taking;
ghost use Rattle.fml_value.specs.Takes.{is_list_of, is_variant_text, takes_named};

use crate::kinds::{is_null, is_object, is_text, is_truth, is_variant, is_whole};
use fml_types::{EnumDefinition, FieldType, InnerType, TypeTable};
use json_tree::Tree;

/// Whether the type takes the tree, as a value of it that is laid over another: `Boolean` takes
/// truth values, `Int` whole numbers, the types of texts every text, an enum the names of its
/// variants, an `Option` null and what the type inside takes, a `List` the lists whose items its
/// type takes, a `Map` and an object every object. It takes no memory.
#[cycle(takes)]
pub fn takes(types: &TypeTable, of: &FieldType, tree: &Tree) -> bool
    ensures { result ≡ taking.takes types.now (shape_of of.now) (json_of tree.now) }
{
    match of {
        FieldType::Boolean => is_truth(tree),
        FieldType::Int => is_whole(tree),
        FieldType::String => is_text(tree),
        FieldType::Text => is_text(tree),
        FieldType::Image => is_text(tree),
        FieldType::Option(inner) => is_null(tree) || takes(types, inner.get(), tree),
        FieldType::List(inner) => takes_list(types, inner, tree),
        FieldType::Map(_, _) => is_object(tree),
        FieldType::Named(name) => takes_named(types, name.as_str(), tree),
    }
}

// Whether the tree is a list whose items the type takes.
#[cycle(takes)]
fn takes_list(types: &TypeTable, of: &InnerType, tree: &Tree) -> bool
    ensures { result ≡ is_list_of (taking.takes types.now of.now) (json_of tree.now) }
{
    let of = of.get();
    let Tree::List(items) = tree else {
        return false;
    };
    let trees = items.as_slice();
    for tree in trees {
        if !takes(types, of, tree) {
            return false;
        }
    }
    true
}

// Whether the enum or the object of this name takes the tree.
fn takes_named(types: &TypeTable, name: &str, tree: &Tree) -> bool
    ensures { result ≡ takes_named (found name.now types.now.enums) (found name.now types.now.objects) (json_of tree.now) }
{
    match types.enums.get(name) {
        Some(definition) => is_variant_text(definition, tree),
        None => types.objects.get(name).is_some() && is_object(tree),
    }
}

fn is_variant_text(definition: &EnumDefinition, tree: &Tree) -> bool
    ensures { result ≡ is_variant_text definition.now (json_of tree.now) }
{
    match tree {
        Tree::Text(text) => is_variant(definition, text.as_str()),
        _ => false,
    }
}
