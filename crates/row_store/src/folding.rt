// The rows that payloads make.
ghost use Rattle.std.specs.Prelude.{◌≡◌, List, [], IfOk, OnOk, IsErrOf, if◌then◌else◌};
ghost use Rattle.row_batches.specs.declared.store_row.StoreRow.{StoreRow};
ghost use Rattle.row_batches.specs.Batch.{applied};
ghost use Rattle.row_batches.specs.Rows.{AreRows, after_change, after_changes};
ghost use Rattle.row_store.specs.Folding.{Fold};
ghost use Rattle.row_store.specs.Listing.{rows_in};

use gate_journal::Payloads;
use row_batches::{Batch, BatchFault, RowChange, RowMap, StoreRow, batch_of};
use sequences::Sequence;
use std::alloc::{AllocError, Global};
use std::collections::BTreeMap;

/// Rows by their keys.
type RowTree = BTreeMap<Vec<u8>, Sequence<u8>>;

/// The rows that the payloads make from none, one after the other.
///
/// A change is a search of an ordered map, and the rows are listed once at the end. Keys and values are moved.
pub(crate) fn fold_rows(alloc: Global, payloads: &Payloads) -> Result<RowMap, BatchFault>
    ensures rows { IfOk result (λ map. Fold payloads.now [] map.rows) }
    ensures none { IsErrOf result BatchFault.NotABatch → (rows : List StoreRow) → Fold payloads.now [] rows → ⊥ }
{
    let mut tree = BTreeMap::new(alloc);
    for place in 0..payloads.len() {
        let Some(payload) = payloads.get(place) else {
            unreachable!()
        };
        let batch = batch_of(alloc, payload)?;
        take_batch(&mut tree, batch)?;
    }
    let rows = listed(alloc, tree)?;
    Ok(RowMap::from_rows(alloc, rows))
}

// Takes a batch.
#[tactic(auto, using(crate::proofs::Listed::rise_cleared))]
fn take_batch(tree: &mut RowTree, batch: Batch) -> Result<(), AllocError>
    requires rise { AreRows (rows_in tree.old.entries) }
    ensures rows { OnOk result (rows_in tree.new.entries ≡ applied batch (rows_in tree.old.entries)) }
    ensures rise { AreRows (rows_in tree.new.entries) }
{
    clear_where(tree, batch.is_clear());
    take_changes(tree, batch.into_changes())
}

// Takes all rows away, or none.
#[tactic(auto, using(crate::proofs::Listed::cleared, crate::proofs::Listed::kept))]
fn clear_where(tree: &mut RowTree, is_clear: bool)
    ensures { rows_in tree.new.entries ≡ (if is_clear then [] else rows_in tree.old.entries) }
{
    if is_clear {
        tree.clear();
    }
}

// Takes the changes, one after the other.
fn take_changes(tree: &mut RowTree, changes: Sequence<RowChange>) -> Result<(), AllocError>
    requires rise { AreRows (rows_in tree.old.entries) }
    ensures rows { OnOk result (rows_in tree.new.entries ≡ after_changes changes (rows_in tree.old.entries)) }
    ensures rise { AreRows (rows_in tree.new.entries) }
{
    for change in changes.into_vec() {
        take_change(tree, change)?;
    }
    Ok(())
}

// Takes one change.
#[tactic(auto, using(crate::proofs::Listed::put_in, crate::proofs::Listed::deleted_in, crate::proofs::Listed::rise_put, crate::proofs::Listed::rise_deleted, crate::proofs::Listed::rise_same))]
fn take_change(tree: &mut RowTree, change: RowChange) -> Result<(), AllocError>
    requires rise { AreRows (rows_in tree.old.entries) }
    ensures rows { OnOk result (rows_in tree.new.entries ≡ after_change change (rows_in tree.old.entries)) }
    ensures rise { AreRows (rows_in tree.new.entries) }
{
    match change {
        RowChange::Put(row) => {
            tree.insert(row.key.into_vec(), row.value)?;
        }
        RowChange::Delete(key) => {
            tree.remove(key.as_slice());
        }
    }
    Ok(())
}

// The rows, in the order of their keys.
fn listed(alloc: Global, tree: RowTree) -> Result<Sequence<StoreRow>, AllocError>
    ensures { IfOk result (λ rows. rows ≡ rows_in tree.entries) }
{
    let mut rows = Vec::with_capacity(alloc, tree.len())?;
    for (key, value) in tree {
        rows.push(StoreRow {
            key: Sequence::from_vec(key),
            value,
        })?;
    }
    Ok(Sequence::from_vec(rows))
}
