// The batch of bytes.
ghost use Rattle.std.specs.Prelude.{◌≡◌, ◌∷◌, [], ℕ, List, IfOk, IfSome, IsNone, IsErrOf};
ghost use Rattle.row_batches.specs.declared.change.RowChange.{RowChange};
ghost use Rattle.row_batches.specs.Batch.{ChangeList, IsBatch, batch_text, changes_text};

use crate::batch::Batch;
use crate::change::RowChange;
use crate::fault::BatchFault;
use crate::parts::{Next, next_change};
use crate::store_row::StoreRow;
use crate::writing::CLEAR;
use sequences::Sequence;
use std::alloc::{AllocError, Global};

/// The batch that has these bytes. `NotABatch` comes exactly where there is none.
pub fn batch_of(alloc: Global, bytes: &[u8]) -> Result<Batch, BatchFault>
    ensures batch { IfOk result (λ batch. bytes.now ≡ batch_text batch) }
    ensures rules { IfOk result IsBatch }
    ensures not_a_batch { IsErrOf result BatchFault.NotABatch → (batch : ChangeList) → IsBatch batch → bytes.now ≡ batch_text batch → ⊥ }
{
    match behind_clear(bytes) {
        Some(changes) => with_changes(alloc, Batch::clear(alloc), changes),
        None => with_changes(alloc, Batch::new(alloc), bytes),
    }
}

// The bytes behind a clear, where they begin with one.
fn behind_clear(bytes: &[u8]) -> Option<&[u8]>
    ensures some { IfSome result (λ behind. bytes.now ≡ 0 ∷ behind.now) }
    ensures none { IsNone result → (behind : List ℕ) → bytes.now ≡ 0 ∷ behind → ⊥ }
{
    match bytes {
        [CLEAR, behind @ ..] => Some(behind),
        _ => None,
    }
}

// The batch with the changes that these bytes are.
fn with_changes(alloc: Global, batch: Batch, bytes: &[u8]) -> Result<Batch, BatchFault>
    requires { batch.changes ≡ [] }
    ensures clear { IfOk result (λ found. found.clear ≡ batch.clear) }
    ensures changes { IfOk result (λ found. bytes.now ≡ changes_text found.changes) }
    ensures rules { IfOk result IsBatch }
    ensures none { IsErrOf result BatchFault.NotABatch → (changes : List RowChange) → IsBatch (record { clear = batch.clear; changes = changes })
        → bytes.now ≡ changes_text changes → ⊥ }
{
    let mut batch = batch;
    let mut rest = bytes;
    loop {
        match next_change(rest) {
            Next::End => return Ok(batch),
            Next::NoChange => return Err(BatchFault::NotABatch),
            Next::Put {
                key,
                value,
                rest: behind,
            } => {
                if !batch.comes_next(key) {
                    return Err(BatchFault::NotABatch);
                }
                batch.push(put_of(alloc, key, value)?)?;
                rest = behind;
            }
            Next::Delete { key, rest: behind } => {
                if batch.is_clear() {
                    return Err(BatchFault::NotABatch);
                }
                if !batch.comes_next(key) {
                    return Err(BatchFault::NotABatch);
                }
                batch.push(delete_of(alloc, key)?)?;
                rest = behind;
            }
        }
    }
}

fn put_of(alloc: Global, key: &[u8], value: &[u8]) -> Result<RowChange, AllocError>
    ensures { IfOk result (λ change. change ≡ RowChange.Put (record { key = key.now; value = value.now })) }
{
    Ok(RowChange::Put(StoreRow {
        key: Sequence::from_vec(key.to_vec(alloc)?),
        value: Sequence::from_vec(value.to_vec(alloc)?),
    }))
}

fn delete_of(alloc: Global, key: &[u8]) -> Result<RowChange, AllocError>
    ensures { IfOk result (λ change. change ≡ RowChange.Delete key.now) }
{
    Ok(RowChange::Delete(Sequence::from_vec(key.to_vec(alloc)?)))
}
