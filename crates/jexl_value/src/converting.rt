// From JSON trees to values, and back.
ghost use Rattle.std.specs.Prelude.{◌≡◌, IfOk};
ghost use Rattle.json_tree.specs.Json.{items_of, members_of};
ghost use Rattle.json_tree.specs.Tree.{json_of};
ghost use Rattle.jexl_value.specs.Meaning.{without_odd, items_without_odd, members_without_odd};
ghost use Rattle.jexl_value.specs.Value.{as_json};

use crate::value::{NamedValues, Value, Values};
use json_tree::{Items, Members, Tree};
use std::alloc::{AllocError, Global};

/// The value that a tree is, with null for each number that is no `i64`.
#[cycle(value_of)]
pub fn value_of(alloc: Global, tree: &Tree) -> Result<Value, AllocError>
    ensures { IfOk result (λ v. as_json v ≡ without_odd (json_of tree.now)) }
{
    match tree {
        Tree::Null | Tree::Odd => Ok(Value::Null),
        Tree::Truth(truth) => Ok(Value::Truth(*truth)),
        Tree::Whole(whole) => Ok(Value::Whole(*whole)),
        Tree::Text(text) => Ok(Value::Text(text.clone()?)),
        Tree::List(items) => Ok(Value::List(list_of(alloc, items)?)),
        Tree::Object(members) => Ok(Value::Object(object_of(alloc, members)?)),
    }
}

#[cycle(value_of)]
fn list_of(alloc: Global, items: &Items) -> Result<Values, AllocError>
    ensures { IfOk result (λ xs. items_of xs ≡ items_without_odd (items_of items.now)) }
{
    let trees = items.as_slice();
    let mut values = Values::new(alloc);
    for tree in trees {
        values.push(value_of(alloc, tree)?)?;
    }
    Ok(values)
}

#[cycle(value_of)]
fn object_of(alloc: Global, members: &Members) -> Result<NamedValues, AllocError>
    ensures { IfOk result (λ ms. members_of ms ≡ members_without_odd (members_of members.now)) }
{
    let pairs = members.as_slice();
    let mut values = NamedValues::new(alloc);
    for (name, tree) in pairs {
        values.push(name.clone()?, value_of(alloc, tree)?)?;
    }
    Ok(values)
}

/// The tree of a value.
#[cycle(tree_of)]
pub fn tree_of(alloc: Global, value: &Value) -> Result<Tree, AllocError>
    ensures { IfOk result (λ t. json_of t ≡ as_json value.now) }
{
    match value {
        Value::Null => Ok(Tree::Null),
        Value::Truth(truth) => Ok(Tree::Truth(*truth)),
        Value::Whole(whole) => Ok(Tree::Whole(*whole)),
        Value::Text(text) => Ok(Tree::Text(text.clone()?)),
        Value::List(values) => Ok(Tree::List(items_from(alloc, values)?)),
        Value::Object(values) => Ok(Tree::Object(members_from(alloc, values)?)),
    }
}

#[cycle(tree_of)]
fn items_from(alloc: Global, values: &Values) -> Result<Items, AllocError>
    ensures { IfOk result (λ xs. xs ≡ values.now) }
{
    let list = values.as_slice();
    let mut items = Items::new(alloc);
    for value in list {
        items.push(tree_of(alloc, value)?)?;
    }
    Ok(items)
}

#[cycle(tree_of)]
fn members_from(alloc: Global, values: &NamedValues) -> Result<Members, AllocError>
    ensures { IfOk result (λ ms. ms ≡ values.now) }
{
    let pairs = values.as_slice();
    let mut members = Members::new(alloc);
    for (name, value) in pairs {
        members.push(name.clone()?, tree_of(alloc, value)?)?;
    }
    Ok(members)
}
