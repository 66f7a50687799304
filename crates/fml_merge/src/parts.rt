// The parts of types and values.
ghost use Rattle.std.specs.Prelude.{◌≡◌, ◌≤◌, ◌+◌, ◌∷◌, ◌++◌, [], option_map, OnOk};
ghost use Rattle.fml_types.specs.Named.{found, IsAbove};
ghost use Rattle.fml_types.specs.Shape as shape;
ghost use Rattle.fml_types.specs.Shape.{Shape, height};
ghost use Rattle.fml_types.specs.declared.manifest.TypeTable.{TypeTable};
ghost use Rattle.fml_types.specs.Shapes.{shape_of};
ghost use Rattle.fml_value.specs.Entries.{with_entry};
ghost use Rattle.fml_value.specs.Typed as typed;
ghost use Rattle.fml_value.specs.Typed.{TypedValue};
ghost use Rattle.fml_value.specs.TypedOf.{typed_of};
ghost use Rattle.fml_merge.specs.Overlay as parts;
ghost use Rattle.fml_merge.specs.Highest.{highest, member_height, zero_levels};
ghost use Rattle.fml_merge.specs.Merging.{base_value, types_of};
ghost use Rattle.fml_merge.specs.Merging as merging;
ghost use Rattle.fml_merge.specs.Zero as zeros;

use fml_types::{ByName, Field, FieldType, Key, TypeTable};
use fml_value::{Entries, Value, is_key, takes};
use json_tree::{Members, Tree};
use sequences::Text;
use std::alloc::{AllocError, Global};

/// The types that the names of a value have.
#[derive(Clone, Copy)]
pub(crate) enum MemberTypes<'a> {
    /// No name has a type.
    Nothing,
    /// The entries of a map.
    Entries(&'a Key, &'a FieldType),
    /// The fields of an object, or the variables of a feature.
    Fields(&'a ByName<Field>),
}

/// What a tree is laid over.
#[derive(Drop)]
pub(crate) enum Base {
    /// This value.
    Made(Value),
    /// The zero of the type with at most so many levels of objects, which isn't made.
    Zero(usize),
}

/// The types of the names of a map or an object.
#[tactic(auto, using(crate::proofs::Measures::object_high))]
pub(crate) fn types_in<'a>(types: &'a TypeTable, of: &'a FieldType) -> MemberTypes<'a>
    ensures types { types_of types.now result ≡ parts.type_under types.now (shape_of of.now) }
    ensures high { member_height result ≤ height (shape_of of.now) + highest types.now }
{
    match of {
        FieldType::Map(key, inner) => MemberTypes::Entries(key, inner.get()),
        FieldType::Named(name) => match types.objects.get(name.as_str()) {
            Some(object) => MemberTypes::Fields(&object.fields),
            None => MemberTypes::Nothing,
        },
        _ => MemberTypes::Nothing,
    }
}

/// The type of one name.
pub(crate) fn type_of<'a>(
    types: &TypeTable,
    members: MemberTypes<'a>,
    name: &str,
) -> Option<&'a FieldType>
    ensures { option_map (λ t. shape_of t.now) result ≡ types_of types.now members.entry name.now }
{
    match members {
        MemberTypes::Nothing => None,
        MemberTypes::Entries(key, of) => {
            if is_key(types, key, name) {
                Some(of)
            } else {
                None
            }
        }
        MemberTypes::Fields(fields) => match fields.get(name) {
            Some(field) => Some(&field.field_type),
            None => None,
        },
    }
}

/// Whether a map gains two names or more of the members.
pub(crate) fn gains_names(
    types: &TypeTable,
    member_types: MemberTypes,
    entries: &Entries,
    members: &Members,
) -> bool {
    let mut gains_one = false;
    for (name, tree) in members.as_slice() {
        if is_new(types, member_types, entries, name.as_str(), tree) {
            if gains_one {
                return true;
            }
            gains_one = true;
        }
    }
    false
}

// Whether a map gains the name, whose type takes the tree.
fn is_new(
    types: &TypeTable,
    member_types: MemberTypes,
    entries: &Entries,
    name: &str,
    tree: &Tree,
) -> bool {
    match member_types {
        MemberTypes::Entries(key, of) => {
            entries.get(name).is_none() && is_key(types, key, name) && takes(types, of, tree)
        }
        _ => false,
    }
}

/// The type of a list's items.
pub(crate) fn item_type(of: &FieldType) -> &FieldType
    ensures { shape_of result.now ≡ parts.item_type (shape_of of.now) }
{
    match of {
        FieldType::List(inner) => inner.get(),
        _ => of,
    }
}

/// What a value of an `Option` holds, or else the zero of the type inside with so many levels.
pub(crate) fn held(base: Base, levels: usize) -> Base
    ensures value { (types : TypeTable) → (t : Shape) → base_value types t result ≡ parts.held (base_value types (shape.option t) base) (zeros.zero_within types levels t) }
    ensures levels { zero_levels result ≤ levels }
{
    match base {
        Base::Made(Value::Present(inner)) => Base::Made(inner.into_inner()),
        _ => Base::Zero(levels),
    }
}

/// The fields that the zero of a type has, with at most so many levels of objects.
pub(crate) fn zero_fields<'a>(
    types: &'a TypeTable,
    of: &FieldType,
    levels: usize,
) -> Option<&'a ByName<Field>>
    ensures { option_map (λ fields. fields.now) result ≡ merging.zero_fields types.now (shape_of of.now) levels }
{
    match of {
        FieldType::Named(name) if levels > 0 => object_fields(types, name.as_str()),
        _ => None,
    }
}

// The fields of the object of this name, unless the name is an enum's.
fn object_fields<'a>(types: &'a TypeTable, name: &str) -> Option<&'a ByName<Field>>
    ensures { option_map (λ fields. fields.now) result ≡ merging.object_fields (found name.now types.now.enums) (found name.now types.now.objects) }
{
    match types.enums.get(name) {
        Some(_) => None,
        None => match types.objects.get(name) {
            Some(object) => Some(&object.fields),
            None => None,
        },
    }
}

/// The text as a value of the type: an enum has it as a variant.
pub(crate) fn text_value(of: &FieldType, text: Text) -> Value
    ensures { typed_of result ≡ parts.text_value (shape_of of.now) text }
{
    match of {
        FieldType::Named(_) => Value::Variant(text),
        _ => Value::Text(text),
    }
}

/// The entries of a map or an object.
#[tactic(auto, using(crate::proofs::Pieces::pairs_kept))]
pub(crate) fn entries_in(alloc: Global, value: Value) -> Entries
    ensures { result ≡ parts.pairs_in (typed_of value) }
{
    match value {
        Value::Map(entries) => entries,
        Value::Object(entries) => entries,
        _ => Entries::new(alloc),
    }
}

/// Puts a copy of the name at the end, which is above each that is there.
pub(crate) fn push_entry(entries: &mut Entries, name: &Text, value: Value) -> Result<(), AllocError>
    requires { IsAbove name.now entries.old }
    ensures { OnOk result (entries.new ≡ entries.old ++ (name.now, typed_of value) ∷ []) }
{
    let name = name.clone()?;
    entries.push(name, value)
}

/// Gives a copy of the name this value.
pub(crate) fn insert_entry(
    entries: &mut Entries,
    name: &Text,
    value: Value,
) -> Result<(), AllocError>
    ensures { OnOk result (entries.new ≡ with_entry name.now (typed_of value) entries.old) }
{
    let name = name.clone()?;
    entries.insert(name, value)
}

/// The map or the object of these entries.
pub(crate) fn value_with(of: &FieldType, entries: Entries) -> Value
    ensures { typed_of result ≡ parts.value_with (shape_of of.now) entries }
{
    match of {
        FieldType::Map(_, _) => Value::Map(entries),
        _ => Value::Object(entries),
    }
}
