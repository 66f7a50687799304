// Batches in bytes.
ghost use Rattle.std.specs.Prelude.{◌≡◌, ◌≤◌, ◌<◌, ◌*◌, ◌+◌, ◌^◌, ◌++◌, ◌∷◌, length, IfOk, OnOk};
ghost use Rattle.row_batches.specs.Batch.{IsBatch, batch_text, change_text, changes_text};
ghost use Rattle.row_batches.specs.Batches.{short_field, long_field, fields};

use crate::batch::Batch;
use crate::change::RowChange;
use crate::store_row::StoreRow;
use std::alloc::{AllocError, Global};

/// The byte that clears all rows.
pub(crate) const CLEAR: u8 = 0;

/// The byte that begins a put.
pub(crate) const PUT: u8 = 1;

/// The byte that begins a delete.
pub(crate) const DELETE: u8 = 2;

impl Batch {
    /// The bytes of the batch: the byte 0 for a clear, and each change. A put is the byte 1, the number of the key's bytes in
    /// two bytes, the key, the number of the value's bytes in four bytes and the value; a delete is the byte 2, the number of
    /// the key's bytes in two bytes and the key. The highest byte of a number stands first. Their memory is taken at once.
    pub fn bytes(&self, alloc: Global) -> Result<Vec<u8>, AllocError>
        ensures bytes { IfOk result (λ bytes. bytes.items ≡ batch_text self.now) }
        ensures rules { IfOk result (λ _. IsBatch self.now) }
    {
        let Ok(size) = usize::try_from(self.size()) else {
            return Err(AllocError);
        };
        let mut bytes = Vec::with_capacity(alloc, size)?;
        self.add_bytes(&mut bytes)?;
        Ok(bytes)
    }

    /// Adds the bytes of the batch to others.
    pub fn add_bytes(&self, bytes: &mut Vec<u8>) -> Result<(), AllocError>
        ensures bytes { OnOk result (bytes.new.items ≡ bytes.old.items ++ batch_text self.now) }
        ensures rules { IfOk result (λ _. IsBatch self.now) }
    {
        if self.is_clear() {
            bytes.push(CLEAR)?;
        }
        put_changes(bytes, self.changes())
    }

    /// How many bytes the batch has. It takes no memory.
    pub fn size(&self) -> u128
        ensures { result ≡ length (batch_text self.now) }
    {
        let changes = changes_size(self.changes());
        if self.is_clear() {
            changes + 1
        } else {
            changes
        }
    }
}

// Adds the changes.
fn put_changes(bytes: &mut Vec<u8>, changes: &[RowChange]) -> Result<(), AllocError>
    ensures { OnOk result (bytes.new.items ≡ bytes.old.items ++ changes_text changes.now) }
{
    for change in changes {
        put_change(bytes, change)?;
    }
    Ok(())
}

// Adds one change.
fn put_change(bytes: &mut Vec<u8>, change: &RowChange) -> Result<(), AllocError>
    ensures { OnOk result (bytes.new.items ≡ bytes.old.items ++ change_text change.now) }
{
    match change {
        RowChange::Put(row) => put_row(bytes, row),
        RowChange::Delete(key) => {
            bytes.push(DELETE)?;
            put_key(bytes, key.as_slice())
        }
    }
}

/// Adds a put of a row.
pub(crate) fn put_row(bytes: &mut Vec<u8>, row: &StoreRow) -> Result<(), AllocError>
    ensures { OnOk result (bytes.new.items ≡ bytes.old.items ++ 1 ∷ fields row.now) }
{
    bytes.push(PUT)?;
    put_key(bytes, row.key.as_slice())?;
    put_value(bytes, row.value.as_slice())
}

// Adds the key behind its number of bytes, which stands in two bytes.
#[tactic(auto, unfolding(crate::specs::Batches::short_field))]
fn put_key(bytes: &mut Vec<u8>, key: &[u8]) -> Result<(), AllocError>
    ensures { OnOk result (bytes.new.items ≡ bytes.old.items ++ short_field key.now) }
{
    bytes.extend_from_slice(&key.len().to_be_bytes()[6..])?;
    bytes.extend_from_slice(key)?;
    Ok(())
}

// Adds the value behind its number of bytes, which stands in four bytes.
#[tactic(auto, unfolding(crate::specs::Batches::long_field))]
fn put_value(bytes: &mut Vec<u8>, value: &[u8]) -> Result<(), AllocError>
    ensures { OnOk result (bytes.new.items ≡ bytes.old.items ++ long_field value.now) }
{
    bytes.extend_from_slice(&value.len().to_be_bytes()[4..])?;
    bytes.extend_from_slice(value)?;
    Ok(())
}

// How many bytes the changes have.
fn changes_size(changes: &[RowChange]) -> u128
    ensures size { result ≡ length (changes_text changes.now) }
    ensures bound { result ≤ 2 ^ 66 * length changes.now }
    ensures count { length changes.now < 2 ^ 64 }
{
    let mut size: u128 = 0;
    for change in changes {
        size += change_size(change);
    }
    size
}

// How many bytes a change has.
#[tactic(auto, using(crate::proofs::Sizes::short_size, crate::proofs::Sizes::fields_size))]
fn change_size(change: &RowChange) -> u128
    ensures size { result ≡ length (change_text change.now) }
    ensures bound { result ≤ 2 ^ 66 }
{
    match change {
        RowChange::Put(row) => 7 + row.key.len() as u128 + row.value.len() as u128,
        RowChange::Delete(key) => 3 + key.len() as u128,
    }
}
