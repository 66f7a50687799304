// The rows of a tree as a list, and of a list as a tree.
ghost use Rattle.std.specs.Prelude.{◌≡◌, ◌≤◌, ◌<◌, ◌+◌, ◌++◌, ◌∷◌, [], length, option_map, vec_capacity};
ghost use Rattle.row_batches.specs.Rows.{AreRows, value_of};
ghost use Rattle.row_batches.specs.Trees.{rows_in};

use crate::store_row::StoreRow;
use crate::tree::{Fork, Tree};
use crate::tree_changes::{fork_of, put_fork};
use std::alloc::Global;
use std::cmp::Ordering;
use std::mem;

/// The value of a key, where there is one.
pub(crate) fn value_in<'a>(tree: &'a Tree, key: &[u8]) -> Option<&'a [u8]>
    requires rise { AreRows (rows_in tree.now) }
    ensures { option_map (λ value. value.now) result ≡ value_of key.now (rows_in tree.now) }
{
    match tree {
        Tree::Leaf => None,
        Tree::Fork(fork) => match key.cmp(fork.row.key.as_slice()) {
            Ordering::Less => value_in(&fork.below, key),
            Ordering::Equal => Some(fork.row.value.as_slice()),
            Ordering::Greater => value_in(&fork.above, key),
        },
    }
}

/// Moves the rows of a tree to the end of a list. Its forks are spare then.
pub(crate) fn list_tree(
    alloc: Global,
    rows: &mut Vec<StoreRow>,
    tree: Tree,
    spare: &mut Vec<Box<Fork>>,
)
    requires rows_room { length rows.old.items + length (rows_in tree) ≤ vec_capacity rows.old }
    requires spare_room { length (rows_in tree) + length spare.old.items ≤ vec_capacity spare.old }
    ensures rows { rows.new.items ≡ rows.old.items ++ rows_in tree }
    ensures count { length spare.new.items ≡ length (rows_in tree) + length spare.old.items }
    ensures same_rows_room { vec_capacity rows.new ≡ vec_capacity rows.old }
    ensures same_spare_room { vec_capacity spare.new ≡ vec_capacity spare.old }
{
    match tree {
        Tree::Leaf => {}
        Tree::Fork(mut fork) => {
            let below = mem::replace(&mut fork.below, Tree::Leaf);
            let above = mem::replace(&mut fork.above, Tree::Leaf);
            list_tree(alloc, rows, below, spare);
            rows.push_reserved(put_fork(alloc, spare, fork));
            list_tree(alloc, rows, above, spare);
        }
    }
}

/// The tree of the last rows of a list, so many of them, in spare forks.
pub(crate) fn tree_of_last(
    rows: &mut Vec<StoreRow>,
    spare: &mut Vec<Box<Fork>>,
    count: usize,
) -> Tree
    requires rows { count ≤ length rows.old.items }
    requires spare { count ≤ length spare.old.items }
    ensures rows { rows.old.items ≡ rows.new.items ++ rows_in result }
    ensures count { length (rows_in result) ≡ count }
    ensures spare_count { length spare.old.items ≡ length spare.new.items + count }
    ensures same_rows_room { vec_capacity rows.new ≡ vec_capacity rows.old }
    ensures same_spare_room { vec_capacity spare.new ≡ vec_capacity spare.old }
{
    if count == 0 {
        return Tree::Leaf;
    }
    let above_count = count / 2;
    let above = tree_of_last(rows, spare, above_count);
    let row = take_last(rows);
    let below = tree_of_last(rows, spare, count - 1 - above_count);
    fork_of(spare, below, row, above)
}

// Takes the last row out.
fn take_last(rows: &mut Vec<StoreRow>) -> StoreRow
    requires { 0 < length rows.old.items }
    ensures items { rows.old.items ≡ rows.new.items ++ result ∷ [] }
    ensures count { length rows.old.items ≡ length rows.new.items + 1 }
    ensures same_room { vec_capacity rows.new ≡ vec_capacity rows.old }
{
    match rows.pop() {
        Some(row) => row,
        None => unreachable!(),
    }
}
