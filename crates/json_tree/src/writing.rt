// Writing: a tree to its compact text, token by token.
ghost use Rattle.std.specs.Prelude.{◌≡◌, ◌≤◌, ◌++◌, Some, IfOk, OnOk, IsUtf8};
ghost use Rattle.json_tree.specs.Json.{depth, list, object, items_of, members_of};
ghost use Rattle.json_tree.specs.Tree.{json_of};
ghost use Rattle.json_tree.specs.Bytes.{tree_of, text_of, max_depth};
ghost use Rattle.json_tree.specs.Tokens.{tokens_of};

use crate::tree::{Items, Members, Tree};
use json::Writer;
use sequences::Text;
use std::alloc::{AllocError, Global};

/// The bytes that memory is taken for at first.
const ROOM: usize = 128;

/// The tree's compact text, with no blank between its parts. `Odd` is spelled
/// `18446744073709551615`, which is no `i64`, so that it reads back as `Odd`.
pub fn write(alloc: Global, tree: &Tree) -> Result<Text, AllocError>
    ensures text { IfOk result (λ s. s ≡ text_of (json_of tree.now)) }
    ensures reads_back { IfOk result (λ s. depth (json_of tree.now) ≤ max_depth
        → tree_of s ≡ Some (json_of tree.now)) }
{
    tree.keeps();
    let mut writer = Writer::new(Vec::with_capacity(alloc, ROOM)?);
    write_tree(&mut writer, tree)?;
    Ok(text_in(writer.into_inner()))
}

/// The bytes as a text.
fn text_in(bytes: Vec<u8>) -> Text
    requires { IsUtf8 bytes.items }
    ensures { result ≡ bytes.items }
{
    match String::from_utf8(bytes) {
        Ok(text) => Text::from_string(text),
        Err(_) => unreachable!(),
    }
}

/// Writes the tree's tokens behind those that the writer holds. The one error is want of memory,
/// which leaves some of the tokens written.
#[cycle(write_tree)]
pub fn write_tree(writer: &mut Writer, tree: &Tree) -> Result<(), AllocError>
    ensures before { writer.new.before ≡ writer.old.before }
    ensures tokens { OnOk result (writer.new.tokens ≡ writer.old.tokens ++ tokens_of (json_of tree.now)) }
{
    match tree {
        Tree::Null => writer.null(),
        Tree::Truth(truth) => writer.boolean(*truth),
        Tree::Whole(whole) => writer.i64(*whole),
        Tree::Odd => writer.u64(u64::MAX),
        Tree::Text(text) => writer.string(text.as_str()),
        Tree::List(items) => write_items(writer, items),
        Tree::Object(members) => write_members(writer, members),
    }
}

#[cycle(write_tree)]
fn write_items(writer: &mut Writer, items: &Items) -> Result<(), AllocError>
    ensures before { writer.new.before ≡ writer.old.before }
    ensures tokens { OnOk result (writer.new.tokens ≡ writer.old.tokens ++ tokens_of (list (items_of items.now))) }
{
    let trees = items.as_slice();
    writer.begin_array()?;
    for tree in trees {
        write_tree(writer, tree)?;
    }
    writer.end_array()
}

#[cycle(write_tree)]
fn write_members(writer: &mut Writer, members: &Members) -> Result<(), AllocError>
    ensures before { writer.new.before ≡ writer.old.before }
    ensures tokens { OnOk result (writer.new.tokens ≡ writer.old.tokens ++ tokens_of (object (members_of members.now))) }
{
    let pairs = members.as_slice();
    writer.begin_object()?;
    for (key, tree) in pairs {
        writer.key(key.as_str())?;
        write_tree(writer, tree)?;
    }
    writer.end_object()
}
