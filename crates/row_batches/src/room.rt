// Room for rows: spare forks, and places in the lists of rows and forks.
ghost use Rattle.std.specs.Prelude.{◌≡◌, ◌≢◌, ◌≤◌, ◌+◌, ◌++◌, [], length, OnOk, if◌then◌else◌, vec_capacity};
ghost use Rattle.row_batches.specs.Batch.{applied};
ghost use Rattle.row_batches.specs.RowRoom.{AreSoundRows};
ghost use Rattle.row_batches.specs.Trees.{rows_in};

use crate::batch::Batch;
use crate::store_row::StoreRow;
use crate::tree::{Fork, Tree};
use crate::tree_changes::{no_row, take_changes};
use crate::tree_rows::{list_tree, tree_of_last};
use std::alloc::{AllocError, Global};

/// Takes a batch. The rows stand in the tree then.
pub(crate) fn apply_batch(
    alloc: Global,
    listed: &mut Vec<StoreRow>,
    tree: Tree,
    spare: &mut Vec<Box<Fork>>,
    batch: Batch,
) -> Tree
    requires sound { AreSoundRows (listed.old.items ++ rows_in tree) }
    requires alone { listed.old.items ≢ [] → rows_in tree ≡ [] }
    requires enough { length (listed.old.items ++ rows_in tree) + length batch.changes ≤ length (rows_in tree) + length spare.old.items }
    requires listed_room { length (rows_in tree) + length spare.old.items ≤ vec_capacity listed.old }
    requires spare_room { length (rows_in tree) + length spare.old.items ≤ vec_capacity spare.old }
    ensures none { listed.new.items ≡ [] }
    ensures rows { rows_in result ≡ applied batch (listed.old.items ++ rows_in tree) }
    ensures sound { AreSoundRows (rows_in result) }
    ensures count { length (rows_in result) + length spare.new.items ≡ length (rows_in tree) + length spare.old.items }
    ensures same_listed_room { vec_capacity listed.new ≡ vec_capacity listed.old }
    ensures same_spare_room { vec_capacity spare.new ≡ vec_capacity spare.old }
{
    let tree = clear_where(alloc, listed, tree, spare, batch.is_clear());
    let mut tree = stand(listed, tree, spare);
    take_changes(alloc, &mut tree, spare, batch.into_changes());
    tree
}

// Takes all rows away, or none.
fn clear_where(
    alloc: Global,
    listed: &mut Vec<StoreRow>,
    tree: Tree,
    spare: &mut Vec<Box<Fork>>,
    is_clear: bool,
) -> Tree
    requires alone { listed.old.items ≢ [] → rows_in tree ≡ [] }
    requires listed_room { length (rows_in tree) + length spare.old.items ≤ vec_capacity listed.old }
    requires spare_room { length (rows_in tree) + length spare.old.items ≤ vec_capacity spare.old }
    ensures rows { listed.new.items ++ rows_in result ≡ (if is_clear then [] else listed.old.items ++ rows_in tree) }
    ensures alone { listed.new.items ≢ [] → rows_in result ≡ [] }
    ensures count { length (rows_in result) + length spare.new.items ≡ length (rows_in tree) + length spare.old.items }
    ensures same_listed_room { vec_capacity listed.new ≡ vec_capacity listed.old }
    ensures same_spare_room { vec_capacity spare.new ≡ vec_capacity spare.old }
{
    if !is_clear {
        return tree;
    }
    listed.clear();
    list_tree(alloc, listed, tree, spare);
    listed.clear();
    Tree::Leaf
}

// Makes a tree of the listed rows, where there are some.
fn stand(listed: &mut Vec<StoreRow>, tree: Tree, spare: &mut Vec<Box<Fork>>) -> Tree
    requires alone { listed.old.items ≢ [] → rows_in tree ≡ [] }
    requires enough { length listed.old.items ≤ length spare.old.items }
    ensures none { listed.new.items ≡ [] }
    ensures rows { rows_in result ≡ listed.old.items ++ rows_in tree }
    ensures count { length (rows_in result) + length spare.new.items ≡ length (rows_in tree) + length spare.old.items }
    ensures same_listed_room { vec_capacity listed.new ≡ vec_capacity listed.old }
    ensures same_spare_room { vec_capacity spare.new ≡ vec_capacity spare.old }
{
    if listed.is_empty() {
        return tree;
    }
    let count = listed.len();
    tree_of_last(listed, spare, count)
}

/// Makes so many spare forks more, and places for all. Where memory is wanting, some of them may be made.
pub(crate) fn add_forks(
    alloc: Global,
    listed: &mut Vec<StoreRow>,
    spare: &mut Vec<Box<Fork>>,
    forks: &mut usize,
    more: usize,
) -> Result<(), AllocError>
    requires spare { length spare.old.items ≤ forks.old }
    requires listed_room { forks.old ≤ vec_capacity listed.old }
    requires spare_room { forks.old ≤ vec_capacity spare.old }
    ensures rows { listed.new.items ≡ listed.old.items }
    ensures more { OnOk result (length spare.new.items ≡ length spare.old.items + more) }
    ensures count { length spare.new.items + forks.old ≡ length spare.old.items + forks.new }
    ensures no_fewer { forks.old ≤ forks.new }
    ensures listed_room { forks.new ≤ vec_capacity listed.new }
    ensures spare_room { forks.new ≤ vec_capacity spare.new }
{
    let Some(all) = forks.checked_add(more) else {
        return Err(AllocError);
    };
    listed.reserve(all.saturating_sub(listed.len()))?;
    spare.reserve(all.saturating_sub(spare.len()))?;
    for _ in 0..more {
        spare.push_reserved(Box::new(alloc, empty_fork(alloc))?);
        *forks += 1;
    }
    Ok(())
}

// A fork without a row.
fn empty_fork(alloc: Global) -> Fork {
    Fork {
        below: Tree::Leaf,
        row: no_row(alloc),
        above: Tree::Leaf,
        height: 1,
    }
}
