// Trees of a bounded depth.
ghost use Rattle.std.specs.Prelude.{◌≡◌, nat_le};
ghost use Rattle.json_tree.specs.Json.{depth, items_depth, members_depth, items_of, members_of};
ghost use Rattle.json_tree.specs.Tree.{json_of};

use json_tree::{Items, Members, Tree};

/// Whether the tree's depth is at most `most`.
#[cycle(shallow)]
pub fn is_shallow(tree: &Tree, most: usize) -> bool
    ensures { result ≡ nat_le (depth (json_of tree.now)) most }
{
    match tree {
        Tree::List(items) => most > 0 && are_items_shallow(items, most - 1),
        Tree::Object(members) => most > 0 && are_members_shallow(members, most - 1),
        _ => true,
    }
}

#[cycle(shallow)]
fn are_items_shallow(items: &Items, most: usize) -> bool
    ensures { result ≡ nat_le (items_depth (items_of items.now)) most }
{
    let trees = items.as_slice();
    for tree in trees {
        if !is_shallow(tree, most) {
            return false;
        }
    }
    true
}

#[cycle(shallow)]
fn are_members_shallow(members: &Members, most: usize) -> bool
    ensures { result ≡ nat_le (members_depth (members_of members.now)) most }
{
    let pairs = members.as_slice();
    for (_, tree) in pairs {
        if !is_shallow(tree, most) {
            return false;
        }
    }
    true
}
