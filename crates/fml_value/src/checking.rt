// The value of a type whose tree a tree is.
ghost use Rattle.std.specs.Prelude.{◌≡◌, Some, None, false, IfOk, IfSome, IfNone, option_map};
ghost use Rattle.fml_types.specs.Named.{found};
ghost use Rattle.fml_types.specs.Shape.{list, map, named};
ghost use Rattle.fml_types.specs.Shapes.{shape_of, key_of};
ghost use Rattle.json_tree.specs.Json.{IsSound, items_of as json_items, members_of as json_members};
ghost use Rattle.json_tree.specs.Tree.{json_of};
ghost use Rattle.fml_value.specs.Checks.{Finds, AreItemsOf, AreEntriesOf, AreFieldsOf, truth_in, whole_in, text_in, variant_in, null_in, wrapped};
ghost use Rattle.fml_value.specs.Fits.{is_option};
ghost use Rattle.fml_value.specs.Trees.{IsValueOf, HasNoValue};
ghost use Rattle.fml_value.specs.Typed.{items_of, entries_of};
ghost use Rattle.fml_value.specs.TypedOf.{typed_of};

use crate::fitting::bare;
use crate::kinds::{is_key, is_null, is_variant};
use crate::value::{Entries, InnerValue, Value, Values};
use fml_types::{EnumDefinition, Field, FieldType, InnerType, Key, ObjectDefinition, TypeTable};
use json_tree::{Items, Members, Tree};
use sequences::Text;
use std::alloc::{AllocError, Global};

/// The value of the type whose tree this is, where there is one. A name that is both an enum's and
/// an object's counts as the enum's. In an `Option`, null is `Absent`.
pub fn check(
    alloc: Global,
    types: &TypeTable,
    of: &FieldType,
    tree: &Tree,
) -> Result<Option<Value>, AllocError>
    ensures value { IfOk result (λ o. IfSome o (λ v. IsValueOf types.now (shape_of of.now) (json_of tree.now) (typed_of v))) }
    ensures only { IfOk result (λ o. o ≡ None → HasNoValue types.now (shape_of of.now) (json_of tree.now)) }
{
    value_of(alloc, types, of, tree)
}

#[cycle(value_of)]
fn value_of(
    alloc: Global,
    types: &TypeTable,
    of: &FieldType,
    tree: &Tree,
) -> Result<Option<Value>, AllocError>
    ensures { IfOk result (λ o. Finds (IsValueOf types.now (shape_of of.now) (json_of tree.now)) (option_map typed_of o)) }
{
    if is_null(tree) {
        return Ok(null_of(of));
    }
    let Some(value) = bare_value_of(alloc, types, bare(of), tree)? else {
        return Ok(None);
    };
    Ok(Some(wrap(alloc, of, value)?))
}

// The value whose tree is null.
fn null_of(of: &FieldType) -> Option<Value>
    ensures { option_map typed_of result ≡ null_in (shape_of of.now) }
{
    match of {
        FieldType::Option(_) => Some(Value::Absent),
        _ => None,
    }
}

// A value of the type inside the options, present in each of them.
fn wrap(alloc: Global, of: &FieldType, value: Value) -> Result<Value, AllocError>
    ensures { IfOk result (λ v. typed_of v ≡ wrapped (shape_of of.now) (typed_of value)) }
{
    match of {
        FieldType::Option(inner) => {
            let inside = wrap(alloc, inner.get(), value)?;
            Ok(Value::Present(InnerValue::new(alloc, inside)?))
        }
        _ => Ok(value),
    }
}

// The value of a type that is no option.
#[cycle(value_of)]
fn bare_value_of(
    alloc: Global,
    types: &TypeTable,
    of: &FieldType,
    tree: &Tree,
) -> Result<Option<Value>, AllocError>
    requires { is_option (shape_of of.now) ≡ false }
    ensures { IfOk result (λ o. Finds (IsValueOf types.now (shape_of of.now) (json_of tree.now)) (option_map typed_of o)) }
{
    tree.keeps();
    match of {
        FieldType::Boolean => Ok(truth_of(tree)),
        FieldType::Int => Ok(whole_of(tree)),
        FieldType::String => text_of(tree),
        FieldType::Text => text_of(tree),
        FieldType::Image => text_of(tree),
        FieldType::Option(_) => Ok(None),
        FieldType::List(inner) => list_of(alloc, types, inner, tree),
        FieldType::Map(key, inner) => map_of(alloc, types, key, inner, tree),
        FieldType::Named(name) => named_of(alloc, types, name.as_str(), tree),
    }
}

fn truth_of(tree: &Tree) -> Option<Value>
    ensures { option_map typed_of result ≡ truth_in (json_of tree.now) }
{
    match tree {
        Tree::Truth(truth) => Some(Value::Truth(*truth)),
        _ => None,
    }
}

fn whole_of(tree: &Tree) -> Option<Value>
    ensures { option_map typed_of result ≡ whole_in (json_of tree.now) }
{
    match tree {
        Tree::Whole(whole) => Some(Value::Whole(*whole)),
        _ => None,
    }
}

fn text_of(tree: &Tree) -> Result<Option<Value>, AllocError>
    ensures { IfOk result (λ o. option_map typed_of o ≡ text_in (json_of tree.now)) }
{
    match tree {
        Tree::Text(text) => Ok(Some(Value::Text(text.clone()?))),
        _ => Ok(None),
    }
}

fn variant_of(definition: &EnumDefinition, tree: &Tree) -> Result<Option<Value>, AllocError>
    ensures { IfOk result (λ o. option_map typed_of o ≡ variant_in definition.now (json_of tree.now)) }
{
    let Tree::Text(text) = tree else {
        return Ok(None);
    };
    if is_variant(definition, text.as_str()) {
        Ok(Some(Value::Variant(text.clone()?)))
    } else {
        Ok(None)
    }
}

#[cycle(value_of)]
fn list_of(
    alloc: Global,
    types: &TypeTable,
    of: &InnerType,
    tree: &Tree,
) -> Result<Option<Value>, AllocError>
    ensures { IfOk result (λ o. Finds (IsValueOf types.now (list of.now) (json_of tree.now)) (option_map typed_of o)) }
{
    let Tree::List(items) = tree else {
        return Ok(None);
    };
    let Some(values) = values_of(alloc, types, of.get(), items)? else {
        return Ok(None);
    };
    Ok(Some(Value::List(values)))
}

#[cycle(value_of)]
fn values_of(
    alloc: Global,
    types: &TypeTable,
    of: &FieldType,
    items: &Items,
) -> Result<Option<Values>, AllocError>
    ensures { IfOk result (λ o. Finds (AreItemsOf types.now (shape_of of.now) (json_items items.now)) (option_map items_of o)) }
{
    let trees = items.as_slice();
    let mut values = Values::new(alloc);
    for tree in trees {
        let Some(value) = value_of(alloc, types, of, tree)? else {
            return Ok(None);
        };
        values.push(value)?;
    }
    Ok(Some(values))
}

#[cycle(value_of)]
fn map_of(
    alloc: Global,
    types: &TypeTable,
    key: &Key,
    of: &InnerType,
    tree: &Tree,
) -> Result<Option<Value>, AllocError>
    requires { IsSound (json_of tree.now) }
    ensures { IfOk result (λ o. Finds (IsValueOf types.now (map (key_of key.now) of.now) (json_of tree.now)) (option_map typed_of o)) }
{
    let Tree::Object(members) = tree else {
        return Ok(None);
    };
    let Some(entries) = entries_of(alloc, types, key, of.get(), members)? else {
        return Ok(None);
    };
    Ok(Some(Value::Map(entries)))
}

#[cycle(value_of)]
fn entries_of(
    alloc: Global,
    types: &TypeTable,
    key: &Key,
    of: &FieldType,
    members: &Members,
) -> Result<Option<Entries>, AllocError>
    ensures { IfOk result (λ o. Finds (AreEntriesOf types.now (key_of key.now) (shape_of of.now) (json_members members.now)) (option_map entries_of o)) }
{
    let pairs = members.as_slice();
    let mut entries = Entries::new(alloc);
    for (name, tree) in pairs {
        if !is_key(types, key, name.as_str()) {
            return Ok(None);
        }
        let Some(value) = value_of(alloc, types, of, tree)? else {
            return Ok(None);
        };
        entries.push(name.clone()?, value)?;
    }
    Ok(Some(entries))
}

#[cycle(value_of)]
fn named_of(
    alloc: Global,
    types: &TypeTable,
    name: &str,
    tree: &Tree,
) -> Result<Option<Value>, AllocError>
    ensures { IfOk result (λ o. Finds (IsValueOf types.now (named name.now) (json_of tree.now)) (option_map typed_of o)) }
{
    match types.enums.get(name) {
        Some(definition) => variant_of(definition, tree),
        None => object_of(alloc, types, name, tree),
    }
}

// The value of an object, whose name is no enum's.
#[cycle(value_of)]
fn object_of(
    alloc: Global,
    types: &TypeTable,
    name: &str,
    tree: &Tree,
) -> Result<Option<Value>, AllocError>
    requires { found name.now types.now.enums ≡ None }
    ensures { IfOk result (λ o. Finds (IsValueOf types.now (named name.now) (json_of tree.now)) (option_map typed_of o)) }
{
    let Some(definition) = types.objects.get(name) else {
        return Ok(None);
    };
    let Tree::Object(members) = tree else {
        return Ok(None);
    };
    let Some(fields) = fields_of(alloc, types, definition, members)? else {
        return Ok(None);
    };
    Ok(Some(Value::Object(fields)))
}

#[cycle(value_of)]
fn fields_of(
    alloc: Global,
    types: &TypeTable,
    definition: &ObjectDefinition,
    members: &Members,
) -> Result<Option<Entries>, AllocError>
    ensures { IfOk result (λ o. Finds (AreFieldsOf types.now definition.now.fields (json_members members.now)) (option_map entries_of o)) }
{
    let fields = definition.fields.as_slice();
    let pairs = members.as_slice();
    if fields.len() != pairs.len() {
        return Ok(None);
    }
    let mut entries = Entries::new(alloc);
    for place in 0..fields.len() {
        let (name, tree) = &pairs[place];
        let Some(value) = field_of(alloc, types, &fields[place], name, tree)? else {
            return Ok(None);
        };
        entries.push(name.clone()?, value)?;
    }
    Ok(Some(entries))
}

// The value of a field, where the member has its name.
#[cycle(value_of)]
fn field_of(
    alloc: Global,
    types: &TypeTable,
    field: &(Text, Field),
    name: &Text,
    tree: &Tree,
) -> Result<Option<Value>, AllocError>
    ensures { IfOk result (λ o. Finds (λ v. (name.now ≡ field.now.0) × IsValueOf types.now (shape_of field.now.1.field_type) (json_of tree.now) v) (option_map typed_of o)) }
{
    if name != &field.0 {
        return Ok(None);
    }
    value_of(alloc, types, &field.1.field_type, tree)
}
