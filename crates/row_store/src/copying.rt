// A copy of a batch.
ghost use Rattle.std.specs.Prelude.{◌≡◌, [], IfOk};

use row_batches::{Batch, RowChange, StoreRow};
use std::alloc::{AllocError, Global};

/// A batch of the same changes.
pub(crate) fn copy_of(alloc: Global, batch: &Batch) -> Result<Batch, AllocError>
    ensures { IfOk result (λ copy. copy ≡ batch.now) }
{
    let mut copy = without_changes(alloc, batch.is_clear());
    let changes = batch.changes();
    for change in changes {
        copy.push(copy_of_change(change)?)?;
    }
    Ok(copy)
}

// A batch that has no change yet.
fn without_changes(alloc: Global, is_clear: bool) -> Batch
    ensures { result ≡ record { clear = is_clear; changes = [] } }
{
    if is_clear {
        Batch::clear(alloc)
    } else {
        Batch::new(alloc)
    }
}

// The same change.
fn copy_of_change(change: &RowChange) -> Result<RowChange, AllocError>
    ensures { IfOk result (λ copy. copy ≡ change.now) }
{
    match change {
        RowChange::Put(row) => Ok(RowChange::Put(StoreRow {
            key: row.key.clone()?,
            value: row.value.clone()?,
        })),
        RowChange::Delete(key) => Ok(RowChange::Delete(key.clone()?)),
    }
}
