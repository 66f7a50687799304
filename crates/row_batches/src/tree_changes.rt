// Changes of the rows in a tree.
ghost use Rattle.std.specs.Prelude.{◌≡◌, ◌≤◌, ◌<◌, ◌+◌, ◌++◌, ◌∷◌, [], length, vec_capacity};
ghost use Rattle.row_batches.specs.Rows.{AreRows, after_change, after_changes};
ghost use Rattle.row_batches.specs.Trees.{rows_in, rows_at};

use crate::change::RowChange;
use crate::store_row::StoreRow;
use crate::tree::{Fork, Tree, balance, balanced, closed, height};
use sequences::Sequence;
use std::alloc::Global;
use std::cmp::Ordering;
use std::mem;

/// Takes the changes, one after the other. Each is a search from the top of the tree on.
pub(crate) fn take_changes(
    alloc: Global,
    tree: &mut Tree,
    spare: &mut Vec<Box<Fork>>,
    changes: Sequence<RowChange>,
)
    requires rise { AreRows (rows_in tree.old) }
    requires enough { length changes ≤ length spare.old.items }
    requires room { length (rows_in tree.old) + length spare.old.items ≤ vec_capacity spare.old }
    ensures rows { rows_in tree.new ≡ after_changes changes (rows_in tree.old) }
    ensures count { length (rows_in tree.new) + length spare.new.items ≡ length (rows_in tree.old) + length spare.old.items }
    ensures same_room { vec_capacity spare.new ≡ vec_capacity spare.old }
{
    for change in changes.into_vec() {
        take_change(alloc, tree, spare, change);
    }
}

// Takes one change where its key belongs. The forks over that place are turned where the height of a side has become another.
fn take_change(alloc: Global, tree: &mut Tree, spare: &mut Vec<Box<Fork>>, change: RowChange)
    requires rise { AreRows (rows_in tree.old) }
    requires enough { 0 < length spare.old.items }
    requires room { length (rows_in tree.old) + length spare.old.items ≤ vec_capacity spare.old }
    ensures rows { rows_in tree.new ≡ after_change change (rows_in tree.old) }
    ensures count { length (rows_in tree.new) + length spare.new.items ≡ length (rows_in tree.old) + length spare.old.items }
    ensures most { length spare.old.items ≤ length spare.new.items + 1 }
    ensures same_room { vec_capacity spare.new ≡ vec_capacity spare.old }
{
    match tree {
        Tree::Leaf => *tree = lone_change(spare, change),
        Tree::Fork(fork) => match change.key().cmp(fork.row.key.as_slice()) {
            Ordering::Less => {
                let before = height(&fork.below);
                take_change(alloc, &mut fork.below, spare, change);
                if height(&fork.below) != before {
                    balance(tree);
                }
            }
            Ordering::Equal => match change {
                RowChange::Put(row) => fork.row = row,
                RowChange::Delete(_key) => {
                    if let Tree::Fork(fork) = mem::replace(tree, Tree::Leaf) {
                        *tree = without_row(alloc, spare, fork);
                    }
                }
            },
            Ordering::Greater => {
                let before = height(&fork.above);
                take_change(alloc, &mut fork.above, spare, change);
                if height(&fork.above) != before {
                    balance(tree);
                }
            }
        },
    }
}

// What a change makes of no row.
fn lone_change(spare: &mut Vec<Box<Fork>>, change: RowChange) -> Tree
    requires { 0 < length spare.old.items }
    ensures rows { rows_in result ≡ after_change change [] }
    ensures count { length (rows_in result) + length spare.new.items ≡ length spare.old.items }
    ensures same_room { vec_capacity spare.new ≡ vec_capacity spare.old }
{
    match change {
        RowChange::Put(row) => fork_of(spare, Tree::Leaf, row, Tree::Leaf),
        RowChange::Delete(_key) => Tree::Leaf,
    }
}

// The rows of a fork without its own. The fork is spare then.
fn without_row(alloc: Global, spare: &mut Vec<Box<Fork>>, mut fork: Box<Fork>) -> Tree
    requires { length spare.old.items < vec_capacity spare.old }
    ensures rows { rows_in result ≡ rows_in fork.value.below ++ rows_in fork.value.above }
    ensures count { length spare.new.items ≡ length spare.old.items + 1 }
    ensures same_room { vec_capacity spare.new ≡ vec_capacity spare.old }
{
    let below = mem::replace(&mut fork.below, Tree::Leaf);
    let above = mem::replace(&mut fork.above, Tree::Leaf);
    drop(put_fork(alloc, spare, fork));
    joined(below, above)
}

/// A row with those below it and those above, in a spare fork.
pub(crate) fn fork_of(spare: &mut Vec<Box<Fork>>, below: Tree, row: StoreRow, above: Tree) -> Tree
    requires { 0 < length spare.old.items }
    ensures rows { rows_in result ≡ rows_in below ++ row ∷ rows_in above }
    ensures count { length spare.old.items ≡ length spare.new.items + 1 }
    ensures same_room { vec_capacity spare.new ≡ vec_capacity spare.old }
{
    let mut fork = take_fork(spare);
    fork.below = below;
    fork.row = row;
    fork.above = above;
    closed(fork)
}

// Takes a spare fork.
fn take_fork(spare: &mut Vec<Box<Fork>>) -> Box<Fork>
    requires { 0 < length spare.old.items }
    ensures count { length spare.old.items ≡ length spare.new.items + 1 }
    ensures same_room { vec_capacity spare.new ≡ vec_capacity spare.old }
{
    match spare.pop() {
        Some(fork) => fork,
        None => unreachable!(),
    }
}

/// Takes the row out of a fork, which is spare then.
pub(crate) fn put_fork(alloc: Global, spare: &mut Vec<Box<Fork>>, mut fork: Box<Fork>) -> StoreRow
    requires { length spare.old.items < vec_capacity spare.old }
    ensures row { result ≡ fork.value.row }
    ensures count { length spare.new.items ≡ length spare.old.items + 1 }
    ensures same_room { vec_capacity spare.new ≡ vec_capacity spare.old }
{
    let row = mem::replace(&mut fork.row, no_row(alloc));
    spare.push_reserved(fork);
    row
}

/// A row without a byte, which takes no memory.
pub(crate) fn no_row(alloc: Global) -> StoreRow {
    StoreRow {
        key: Sequence::new(alloc),
        value: Sequence::new(alloc),
    }
}

// The rows of two trees, of about one height.
fn joined(below: Tree, above: Tree) -> Tree
    ensures { rows_in result ≡ rows_in below ++ rows_in above }
{
    match above {
        Tree::Leaf => below,
        Tree::Fork(fork) => {
            let (mut first, rest) = first_out(fork);
            first.below = below;
            first.above = rest;
            balanced(first)
        }
    }
}

// Takes the fork of the first row out.
fn first_out(mut fork: Box<Fork>) -> (Box<Fork>, Tree)
    ensures { result.0.value.row ∷ rows_in result.1 ≡ rows_at fork.value }
{
    match mem::replace(&mut fork.below, Tree::Leaf) {
        Tree::Leaf => {
            let rest = mem::replace(&mut fork.above, Tree::Leaf);
            (fork, rest)
        }
        Tree::Fork(below) => {
            let (first, rest) = first_out(below);
            fork.below = rest;
            (first, balanced(fork))
        }
    }
}
