// Which trees fit a type.
ghost use Rattle.std.specs.Prelude.{◌≡◌, false};
ghost use Rattle.fml_types.specs.Named.{found};
ghost use Rattle.fml_types.specs.Shapes.{shape_of, key_of};
ghost use Rattle.json_tree.specs.Json.{items_of, members_of};
ghost use Rattle.json_tree.specs.Tree.{json_of};
ghost use Rattle.fml_value.specs.Fits as fitting;
ghost use Rattle.fml_value.specs.Fits.{is_option, is_boolean, is_int, is_text_of, bare, of_list, of_object, of_named, items_fit, members_fit, type_of_entry, type_of_field};

use crate::kinds::{is_key, is_variant_of};
use fml_types::{ByName, Field, FieldType, InnerType, Key, TypeTable};
use json_tree::{Items, Members, Tree};

/// Whether the tree fits the type: as `takes`, but the keys of a `Map` must be keys of its type and
/// its values all fit, and the keys of an object must be fields and their values all fit. A field
/// may be left out. It takes no memory.
#[cycle(fits)]
pub fn fits(types: &TypeTable, of: &FieldType, tree: &Tree) -> bool
    ensures { result ≡ fitting.fits types.now (shape_of of.now) (json_of tree.now) }
{
    match tree {
        Tree::Null => is_option(of),
        Tree::Truth(_) => is_boolean(bare(of)),
        Tree::Whole(_) => is_int(bare(of)),
        Tree::Odd => false,
        Tree::Text(text) => is_text_of(types, bare(of), text.as_str()),
        Tree::List(items) => list_fits(types, bare(of), items),
        Tree::Object(members) => object_fits(types, bare(of), members),
    }
}

// Whether the items fit the type of a list's items.
#[cycle(fits)]
fn list_fits(types: &TypeTable, of: &FieldType, items: &Items) -> bool
    ensures { result ≡ of_list (shape_of of.now) (λ item. items_fit types.now item (items_of items.now)) }
{
    match of {
        FieldType::List(inner) => items_fit(types, inner.get(), items),
        _ => false,
    }
}

#[cycle(fits)]
fn items_fit(types: &TypeTable, of: &FieldType, items: &Items) -> bool
    ensures { result ≡ items_fit types.now (shape_of of.now) (items_of items.now) }
{
    let trees = items.as_slice();
    for tree in trees {
        if !fits(types, of, tree) {
            return false;
        }
    }
    true
}

// Whether the members fit a map or an object.
#[cycle(fits)]
fn object_fits(types: &TypeTable, of: &FieldType, members: &Members) -> bool
    ensures { result ≡ of_object types.now (shape_of of.now) (λ type_of. members_fit types.now type_of (members_of members.now)) }
{
    match of {
        FieldType::Map(key, inner) => entries_fit(types, key, inner, members),
        FieldType::Named(name) => named_fits(types, name.as_str(), members),
        _ => false,
    }
}

#[cycle(fits)]
fn entries_fit(types: &TypeTable, key: &Key, of: &InnerType, members: &Members) -> bool
    ensures { result ≡ members_fit types.now (type_of_entry types.now (key_of key.now) of.now) (members_of members.now) }
{
    let of = of.get();
    let pairs = members.as_slice();
    for (name, tree) in pairs {
        if !is_key(types, key, name.as_str()) {
            return false;
        }
        if !fits(types, of, tree) {
            return false;
        }
    }
    true
}

#[cycle(fits)]
fn named_fits(types: &TypeTable, name: &str, members: &Members) -> bool
    ensures { result ≡ of_named (found name.now types.now.enums) (found name.now types.now.objects) (λ type_of. members_fit types.now type_of (members_of members.now)) }
{
    if types.enums.get(name).is_some() {
        return false;
    }
    match types.objects.get(name) {
        Some(object) => fields_fit(types, &object.fields, members),
        None => false,
    }
}

/// Whether each key is a field's name, and its value fits that field's type. A field may be left
/// out. It takes no memory.
#[cycle(fits)]
pub fn fields_fit(types: &TypeTable, fields: &ByName<Field>, members: &Members) -> bool
    ensures { result ≡ members_fit types.now (type_of_field fields.now) (members_of members.now) }
{
    let pairs = members.as_slice();
    for (name, tree) in pairs {
        let Some(field) = fields.get(name.as_str()) else {
            return false;
        };
        if !fits(types, &field.field_type, tree) {
            return false;
        }
    }
    true
}

fn is_option(of: &FieldType) -> bool
    ensures { result ≡ is_option (shape_of of.now) }
{
    matches!(of, FieldType::Option(_))
}

fn is_boolean(of: &FieldType) -> bool
    ensures { result ≡ is_boolean (shape_of of.now) }
{
    matches!(of, FieldType::Boolean)
}

fn is_int(of: &FieldType) -> bool
    ensures { result ≡ is_int (shape_of of.now) }
{
    matches!(of, FieldType::Int)
}

// Whether the text is one of the type's.
fn is_text_of(types: &TypeTable, of: &FieldType, text: &str) -> bool
    ensures { result ≡ is_text_of types.now (shape_of of.now) text.now }
{
    match of {
        FieldType::String => true,
        FieldType::Text => true,
        FieldType::Image => true,
        FieldType::Named(name) => is_variant_of(types, name.as_str(), text),
        _ => false,
    }
}

// The type inside an `Option`, and each other type itself.
pub(crate) fn bare(of: &FieldType) -> &FieldType
    ensures shape { shape_of result.now ≡ bare (shape_of of.now) }
    ensures bare { is_option (shape_of result.now) ≡ false }
{
    match of {
        FieldType::Option(inner) => bare(inner.get()),
        _ => of,
    }
}
