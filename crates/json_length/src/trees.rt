// The lengths of trees.
ghost use Rattle.std.specs.Prelude.{◌≡◌, ◌<◌, ◌≤◌, ◌+◌, ◌^◌, length, IfSome, IfNone};
ghost use Rattle.json_tree.specs.Json.{truth, list, object, items_of, members_of};
ghost use Rattle.json_tree.specs.Tree.{json_of};
ghost use Rattle.json_tree.specs.Bytes.{text_of};

use crate::numbers::whole_length;
use crate::texts::text_length;
use json_tree::{Items, Members, Tree};

/// How many bytes the tree's compact text has. `Odd` is spelled in 20 bytes.
pub fn tree_length(tree: &Tree) -> u128
    requires { length (text_of (json_of tree.now)) < 2 ^ 128 }
    ensures { result ≡ length (text_of (json_of tree.now)) }
{
    match length_within(tree, u128::MAX) {
        Some(length) => length,
        None => unreachable!(),
    }
}

/// How many bytes the tree's compact text has, where it has at most `most`. `Odd` is spelled in
/// 20 bytes. It takes no memory, and ends at the first part that goes past `most`.
pub fn length_within(tree: &Tree, most: u128) -> Option<u128>
    ensures some { IfSome result (λ n. n ≡ length (text_of (json_of tree.now))) }
    ensures within { IfSome result (λ n. n ≤ most) }
    ensures beyond { IfNone result (most < length (text_of (json_of tree.now))) }
{
    let left = left_after(tree, most)?;
    Some(most - left)
}

/// How many of the bytes are left after the tree's compact text, where they are enough for it.
#[cycle(left_after)]
fn left_after(tree: &Tree, bytes: u128) -> Option<u128>
    ensures some { IfSome result (λ n. n + length (text_of (json_of tree.now)) ≡ bytes) }
    ensures none { IfNone result (bytes < length (text_of (json_of tree.now))) }
{
    match tree {
        Tree::Null => bytes.checked_sub(4),
        Tree::Truth(truth) => bytes.checked_sub(truth_length(*truth)),
        Tree::Whole(whole) => bytes.checked_sub(whole_length(*whole)),
        Tree::Odd => bytes.checked_sub(20),
        Tree::Text(text) => bytes.checked_sub(text_length(text.as_str())),
        Tree::List(items) => left_after_items(items, bytes),
        Tree::Object(members) => left_after_members(members, bytes),
    }
}

fn truth_length(flag: bool) -> u128
    ensures { result ≡ length (text_of (truth flag)) }
{
    if flag { 4 } else { 5 }
}

/// The same after a list: its brackets, the items, and commas between them.
#[cycle(left_after)]
fn left_after_items(items: &Items, bytes: u128) -> Option<u128>
    ensures some { IfSome result (λ n. n + length (text_of (list (items_of items.now))) ≡ bytes) }
    ensures none { IfNone result (bytes < length (text_of (list (items_of items.now)))) }
{
    let trees = items.as_slice();
    if trees.is_empty() {
        return bytes.checked_sub(2);
    }
    let mut left = bytes.checked_sub(1)?;
    for tree in trees {
        left = left.checked_sub(1)?;
        left = left_after(tree, left)?;
    }
    Some(left)
}

/// The same after an object: its brackets, the keys with colons, the values, and commas between
/// the members.
#[cycle(left_after)]
fn left_after_members(members: &Members, bytes: u128) -> Option<u128>
    ensures some { IfSome result (λ n. n + length (text_of (object (members_of members.now))) ≡ bytes) }
    ensures none { IfNone result (bytes < length (text_of (object (members_of members.now)))) }
{
    let pairs = members.as_slice();
    if pairs.is_empty() {
        return bytes.checked_sub(2);
    }
    let mut left = bytes.checked_sub(1)?;
    for (key, tree) in pairs {
        left = left.checked_sub(2)?;
        left = left.checked_sub(text_length(key.as_str()))?;
        left = left_after(tree, left)?;
    }
    Some(left)
}
