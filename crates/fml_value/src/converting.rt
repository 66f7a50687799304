// From values to their trees.
ghost use Rattle.std.specs.Prelude.{◌≡◌, IfOk};
ghost use Rattle.json_tree.specs.Json.{items_of as json_items, members_of as json_members};
ghost use Rattle.json_tree.specs.Tree.{json_of};
ghost use Rattle.fml_value.specs.Trees.{tree_of, trees_of, members_of};
ghost use Rattle.fml_value.specs.Typed.{items_of, entries_of};
ghost use Rattle.fml_value.specs.TypedOf.{typed_of};

use crate::value::{Entries, Value, Values};
use json_tree::{Items, Members, Tree};
use std::alloc::{AllocError, Global};

/// The tree of a value: null for `Absent`, and the inner value's for `Present`.
#[cycle(to_tree)]
pub fn to_tree(alloc: Global, value: &Value) -> Result<Tree, AllocError>
    ensures { IfOk result (λ t. json_of t ≡ tree_of (typed_of value.now)) }
{
    match value {
        Value::Truth(truth) => Ok(Tree::Truth(*truth)),
        Value::Whole(whole) => Ok(Tree::Whole(*whole)),
        Value::Text(text) => Ok(Tree::Text(text.clone()?)),
        Value::Absent => Ok(Tree::Null),
        Value::Present(inner) => to_tree(alloc, inner.get()),
        Value::List(values) => Ok(Tree::List(items_from(alloc, values)?)),
        Value::Map(entries) => Ok(Tree::Object(members_from(alloc, entries)?)),
        Value::Variant(name) => Ok(Tree::Text(name.clone()?)),
        Value::Object(fields) => Ok(Tree::Object(members_from(alloc, fields)?)),
    }
}

#[cycle(to_tree)]
fn items_from(alloc: Global, values: &Values) -> Result<Items, AllocError>
    ensures { IfOk result (λ xs. json_items xs ≡ trees_of (items_of values.now)) }
{
    let list = values.as_slice();
    let mut items = Items::new(alloc);
    for value in list {
        items.push(to_tree(alloc, value)?)?;
    }
    Ok(items)
}

#[cycle(to_tree)]
fn members_from(alloc: Global, entries: &Entries) -> Result<Members, AllocError>
    ensures { IfOk result (λ ms. json_members ms ≡ members_of (entries_of entries.now)) }
{
    let pairs = entries.as_slice();
    let mut members = Members::new(alloc);
    for (name, value) in pairs {
        members.push(name.clone()?, to_tree(alloc, value)?)?;
    }
    Ok(members)
}
