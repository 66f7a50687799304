// Reading: bytes to a tree.
ghost use Rattle.std.specs.Prelude.{◌≡◌, ◌≤◌, ◌<◌, Some, None, Err, IfOk};
ghost use Rattle.serde_json.specs.Data.{depth as nesting, items_depth, members_depth};
ghost use Rattle.serde_json.specs.View.{view, items_view, members_view};
ghost use Rattle.json_tree.specs.Json.{depth, items_of, members_of};
ghost use Rattle.json_tree.specs.Tree.{json_of};
ghost use Rattle.json_tree.specs.Bytes.{tree_of, of_data, of_items, of_members, of_whole, max_depth, IsTooDeep};

use crate::tree::{Items, Members, Tree};
use sequences::Text;
use serde_json::{Map, Value};
use std::alloc::{AllocError, Global};

/// Why `read` gives no tree.
#[derive(Clone, Copy, Debug, PartialEq, Eq)]
pub enum TreeFault {
    /// The bytes are no JSON value in UTF-8, or it nests beyond 127.
    NotJson,
    /// The value nests beyond 64: a scalar has depth 0, and a list or an object is one deeper than
    /// what it holds.
    TooDeep,
    OutOfMemory,
}

impl From<AllocError> for TreeFault {
    ghost use Rattle.json_tree.specs.declared.reading.TreeFault.{TreeFault};

    ghost from_gives = { λ _ f. f ≡ TreeFault.OutOfMemory };

    fn from(_: AllocError) -> TreeFault {
        TreeFault::OutOfMemory
    }
}

const MAX_DEPTH: usize = 64;

/// The tree that the bytes are, as `serde_json` reads them: its texts and keys are moved into the
/// tree. Where an object has a key twice, the last value stays.
pub fn read(alloc: Global, bytes: &[u8]) -> Result<Tree, TreeFault>
    ensures ok { IfOk result (λ t. tree_of bytes.now ≡ Some (json_of t)) }
    ensures shallow { IfOk result (λ t. depth (json_of t) ≤ max_depth) }
    ensures not_json { result ≡ Err TreeFault.NotJson → tree_of bytes.now ≡ None }
    ensures too_deep { result ≡ Err TreeFault.TooDeep → IsTooDeep bytes.now }
{
    let value = match Value::from_slice(alloc, bytes) {
        Ok(value) => value,
        Err(error) => {
            if error.is_memory() {
                return Err(TreeFault::OutOfMemory);
            }
            return Err(TreeFault::NotJson);
        }
    };
    if nesting(&value) > MAX_DEPTH {
        return Err(TreeFault::TooDeep);
    }
    Ok(convert(alloc, value)?)
}

/// How deep the value nests.
#[cycle(nesting)]
fn nesting(value: &Value) -> usize
    requires { nesting (view value.now) < 128 }
    ensures { result ≡ nesting (view value.now) }
{
    match value {
        Value::Array(items) => 1 + items_nesting(items),
        Value::Object(members) => 1 + members_nesting(members),
        _ => 0,
    }
}

#[cycle(nesting)]
fn items_nesting(items: &Vec<Value>) -> usize
    requires { items_depth (items_view items.now.items) < 127 }
    ensures { result ≡ items_depth (items_view items.now.items) }
{
    let mut deepest = 0;
    for item in items {
        deepest = deepest.max(nesting(item));
    }
    deepest
}

#[cycle(nesting)]
fn members_nesting(members: &Map<String, Value>) -> usize
    requires { members_depth (members_view members.now.entries) < 127 }
    ensures { result ≡ members_depth (members_view members.now.entries) }
{
    let mut deepest = 0;
    for (_, member) in members.iter() {
        deepest = deepest.max(nesting(member));
    }
    deepest
}

/// The value as a tree, which takes over its texts.
#[cycle(convert)]
fn convert(alloc: Global, value: Value) -> Result<Tree, AllocError>
    ensures { IfOk result (λ t. json_of t ≡ of_data (view value)) }
{
    match value {
        Value::Null => Ok(Tree::Null),
        Value::Bool(truth) => Ok(Tree::Truth(truth)),
        Value::Number(number) => Ok(whole_or_odd(number.as_i64())),
        Value::String(text) => Ok(Tree::Text(Text::from_string(text))),
        Value::Array(values) => Ok(Tree::List(convert_items(alloc, values)?)),
        Value::Object(values) => Ok(Tree::Object(convert_members(alloc, values)?)),
    }
}

fn whole_or_odd(whole: Option<i64>) -> Tree
    ensures { json_of result ≡ of_whole whole }
{
    match whole {
        Some(whole) => Tree::Whole(whole),
        None => Tree::Odd,
    }
}

#[cycle(convert)]
fn convert_items(alloc: Global, values: Vec<Value>) -> Result<Items, AllocError>
    ensures { IfOk result (λ xs. items_of xs ≡ of_items (items_view values.items)) }
{
    let mut items = Items::with_capacity(alloc, values.len())?;
    for value in values {
        items.push(convert(alloc, value)?)?;
    }
    Ok(items)
}

#[cycle(convert)]
fn convert_members(alloc: Global, values: Map<String, Value>) -> Result<Members, AllocError>
    ensures { IfOk result (λ ms. members_of ms ≡ of_members (members_view values.entries)) }
{
    let mut members = Members::with_capacity(alloc, values.len())?;
    for (key, value) in values {
        members.push(Text::from_string(key), convert(alloc, value)?)?;
    }
    Ok(members)
}
