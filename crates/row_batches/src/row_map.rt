// Rows in the order of their keys, and room for more.
ghost use Rattle.std.specs.Prelude.{◌≡◌, ◌≤◌, ◌+◌, [], length, OnOk, OnErr, option_map};
ghost use Rattle.row_batches.specs.Batch.{applied};
ghost use Rattle.row_batches.specs.Batches.{HaveRoom};
ghost use Rattle.row_batches.specs.Listing.{StaysAsItWas};
ghost use Rattle.row_batches.specs.RowRoom.{AreSoundRows};
ghost use Rattle.row_batches.specs.Rows.{AreRows, value_of};
ghost use Rattle.std.specs.Borrow.{sem};

use crate::batch::Batch;
use crate::room::{add_forks, apply_batch};
use crate::searching::value_listed;
use crate::store_row::StoreRow;
use crate::tree::{Fork, Tree};
use crate::tree_rows::{list_tree, value_in};
use sequences::Sequence;
use std::alloc::{AllocError, Global};
use std::marker::Model;
use std::mem;

/// A map from keys to values: rows whose keys rise strictly by their bytes, and room for some more.
///
/// A row is found by a search whose steps are about the binary logarithm of the number of rows. A batch costs one such search for
/// each of its changes, whatever stands before or behind their rows: its rows are moved in, and no key or value is copied. A clear
/// costs a walk over all rows, and so does the first batch after `from_rows` or `as_slice`, and `as_slice` after a batch.
#[derive(Drop)]
pub struct RowMap {
    alloc: Global,
    // All rows, or none where they stand in the tree.
    listed: Vec<StoreRow>,
    // All rows, or none where they stand in the list.
    tree: Tree,
    // Forks without a row, for rows to come.
    spare: Vec<Box<Fork>>,
    // How many forks there are. Both lists have places for so many.
    forks: usize,
    // How many rows there is room for.
    room: usize,
}

impl Model for RowMap {
    ghost use Rattle.std.specs.Prelude.{◌++◌, length, vec_capacity};
    ghost use Rattle.row_batches.specs.RowRoom.{RowsInRoom, KeepsRoom};
    ghost use Rattle.row_batches.specs.Trees.{rows_in};

    ghost Value = { RowsInRoom };

    ghost view = { λ m. record { rows = m.listed.items ++ rows_in m.tree; room = m.room } };

    ghost invariant = { λ m. KeepsRoom m.listed.items (rows_in m.tree) (length m.spare.items) m.room m.forks (vec_capacity m.listed) (vec_capacity m.spare) };
}

impl RowMap {
    /// The map of these rows, with room for no more. It takes no memory.
    pub fn from_rows(alloc: Global, rows: Sequence<StoreRow>) -> RowMap
        requires { AreSoundRows rows }
        ensures { result.rows ≡ rows }
    {
        RowMap {
            alloc,
            listed: rows.into_vec(),
            tree: Tree::Leaf,
            spare: Vec::new(alloc),
            forks: 0,
            room: 0,
        }
    }

    /// A map without rows. It takes no memory.
    pub fn new(alloc: Global) -> RowMap
        ensures { result.rows ≡ [] }
    {
        RowMap::from_rows(alloc, Sequence::new(alloc))
    }

    /// The rows, in the order of their keys. It takes no memory. After a batch they are listed first.
    pub fn as_slice(&mut self) -> &[StoreRow]
        ensures rows { result.now ≡ self.old.rows }
        ensures rise { AreRows self.old.rows }
        ensures fields { HaveRoom self.old.rows }
        ensures* same { sem 𝓛 (StaysAsItWas self.entry) }
    {
        let tree = mem::replace(&mut self.tree, Tree::Leaf);
        list_tree(self.alloc, &mut self.listed, tree, &mut self.spare);
        self.listed.as_slice()
    }

    /// The value of a key, where there is one. It takes no memory.
    #[tactic(auto, using(crate::proofs::Sides::rise_back))]
    pub fn get(&self, key: &[u8]) -> Option<&[u8]>
        ensures { option_map (λ value. value.now) result ≡ value_of key.now self.now.rows }
    {
        if self.listed.is_empty() {
            return value_in(&self.tree, key);
        }
        let rows = self.listed.as_slice();
        value_listed(rows, key)
    }

    /// Reserves room for so many rows more. Want of memory leaves the rows and their room as they were.
    pub fn reserve(&mut self, more: usize) -> Result<(), AllocError>
        ensures rows { self.new.rows ≡ self.old.rows }
        ensures room { OnOk result (length self.old.rows + more ≤ self.new.room) }
        ensures no_less { self.old.room ≤ self.new.room }
        ensures err { OnErr result (self.new ≡ self.old) }
    {
        let Some(wanted) = self.listed.len().checked_add(more) else {
            return Err(AllocError);
        };
        let missing = wanted.saturating_sub(self.spare.len());
        add_forks(
            self.alloc,
            &mut self.listed,
            &mut self.spare,
            &mut self.forks,
            missing,
        )?;
        self.room = self.forks;
        Ok(())
    }

    /// Takes a batch, whose rows are moved in. There is room for it, and it takes no memory.
    pub fn apply(&mut self, batch: Batch)
        requires { length self.old.rows + length batch.changes ≤ self.old.room }
        ensures rows { self.new.rows ≡ applied batch self.old.rows }
        ensures room { self.old.room ≤ self.new.room }
    {
        let tree = mem::replace(&mut self.tree, Tree::Leaf);
        self.tree = apply_batch(self.alloc, &mut self.listed, tree, &mut self.spare, batch);
    }
}
