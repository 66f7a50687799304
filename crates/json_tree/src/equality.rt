// Equality of trees.
ghost use Rattle.std.specs.Prelude.{◌≡◌, ◌&&◌, bytes_eq};
ghost use Rattle.json_tree.specs.Json.{items_of, members_of};
ghost use Rattle.json_tree.specs.Tree.{json_of};
ghost use Rattle.json_tree.specs.Equal.{json_eq, items_eq, members_eq};

use crate::tree::{Items, Members, Tree};
use sequences::Text;

/// Trees are equal where they are the same value.
impl PartialEq for Tree {
    ghost use Rattle.std.specs.Cmp.{partial_equiv_from_equiv};
    ghost use Rattle.json_tree.specs.Equals.{tree_equivalence};

    ghost eq = { λ left right. json_eq (json_of left) (json_of right) };

    ghost laws = { partial_equiv_from_equiv tree_equivalence };

    fn eq(&self, other: &Tree) -> bool {
        same(self, other)
    }
}

impl Eq for Tree {
    ghost use Rattle.json_tree.specs.Equals.{tree_equivalence};

    ghost laws = { tree_equivalence };
}

#[cycle(same)]
fn same(left: &Tree, right: &Tree) -> bool
    ensures { result ≡ json_eq (json_of left.now) (json_of right.now) }
{
    match (left, right) {
        (Tree::Null, Tree::Null) | (Tree::Odd, Tree::Odd) => true,
        (Tree::Truth(left), Tree::Truth(right)) => left == right,
        (Tree::Whole(left), Tree::Whole(right)) => left == right,
        (Tree::Text(left), Tree::Text(right)) => left == right,
        (Tree::List(left), Tree::List(right)) => same_items(left, right),
        (Tree::Object(left), Tree::Object(right)) => same_members(left, right),
        _ => false,
    }
}

#[cycle(same)]
fn same_items(left: &Items, right: &Items) -> bool
    ensures { result ≡ items_eq (items_of left.now) (items_of right.now) }
{
    let left = left.as_slice();
    let right = right.as_slice();
    if left.len() != right.len() {
        return false;
    }
    for (one, other) in left.iter().zip(right) {
        if !same(one, other) {
            return false;
        }
    }
    true
}

#[cycle(same)]
fn same_members(left: &Members, right: &Members) -> bool
    ensures { result ≡ members_eq (members_of left.now) (members_of right.now) }
{
    let left = left.as_slice();
    let right = right.as_slice();
    if left.len() != right.len() {
        return false;
    }
    for (one, other) in left.iter().zip(right) {
        if !same_member(one, other) {
            return false;
        }
    }
    true
}

#[cycle(same)]
fn same_member(left: &(Text, Tree), right: &(Text, Tree)) -> bool
    ensures { result ≡ bytes_eq left.now.0 right.now.0 && json_eq (json_of left.now.1) (json_of right.now.1) }
{
    left.0 == right.0 && same(&left.1, &right.1)
}
