// A batch: changes of rows in the order of their keys.
ghost use Rattle.std.specs.Prelude.{◌≡◌, ◌++◌, ◌∷◌, [], true, false, ◌↔◌, map, IsTrue, IfOk, OnOk, OnErr};
ghost use Rattle.row_batches.specs.declared.change.RowChange.TheVariants.{Put as put_change};
ghost use Rattle.row_batches.specs.Batch.{IsBatch, IsPut, ComesNext, FitsFields, applied, whole_of};
ghost use Rattle.row_batches.specs.Batches.{HaveRoom};
ghost use Rattle.row_batches.specs.Rows.{AreRows, key_cmp, key_in};
ghost use Rattle.std.specs.declared.cmp.Ordering.TheVariants.{Less};

use crate::change::RowChange;
use crate::store_row::StoreRow;
use sequences::Sequence;
use std::alloc::{AllocError, Global};
use std::cmp::Ordering;
use std::marker::Model;

/// A batch of changed rows. It may begin with a clear of all rows; then it has puts alone. The keys of its changes rise
/// strictly by their bytes; a key has at most 65,535 bytes and a value at most 4,294,967,295. A delete of a row that isn't
/// there does nothing.
#[derive(Drop)]
pub struct Batch {
    is_clear: bool,
    changes: Sequence<RowChange>,
}

impl Model for Batch {
    ghost use Rattle.row_batches.specs.Batch.{ChangeList, IsBatch};

    ghost Value = { ChangeList };

    ghost view = { λ b. record { clear = b.is_clear; changes = b.changes } };

    ghost invariant = { λ b. IsBatch (record { clear = b.is_clear; changes = b.changes }) };
}

impl Batch {
    /// A batch without changes. It takes no memory.
    pub fn new(alloc: Global) -> Batch
        ensures { result ≡ record { clear = false; changes = [] } }
    {
        Batch {
            is_clear: false,
            changes: Sequence::new(alloc),
        }
    }

    /// A clear of all rows. It takes no memory.
    pub fn clear(alloc: Global) -> Batch
        ensures { result ≡ record { clear = true; changes = [] } }
    {
        Batch {
            is_clear: true,
            changes: Sequence::new(alloc),
        }
    }

    /// The batch of these changes, without a clear. It takes no memory.
    pub fn of_changes(changes: Sequence<RowChange>) -> Batch
        requires { IsBatch (record { clear = false; changes = changes }) }
        ensures { result ≡ record { clear = false; changes = changes } }
    {
        Batch {
            is_clear: false,
            changes,
        }
    }

    /// A clear of all rows and a put of each of these.
    pub fn whole_of(alloc: Global, rows: Sequence<StoreRow>) -> Result<Batch, AllocError>
        requires rise { AreRows rows }
        requires room { HaveRoom rows }
        ensures batch { IfOk result (λ batch. batch ≡ whole_of rows) }
        ensures gives { IfOk result (λ batch. applied batch [] ≡ rows) }
    {
        let changes = puts_of(alloc, rows)?;
        Ok(Batch {
            is_clear: true,
            changes,
        })
    }

    /// Whether all rows are cleared first. It takes no memory.
    pub fn is_clear(&self) -> bool
        ensures { result ≡ self.now.clear }
    {
        self.is_clear
    }

    /// The changes, in the order of their keys. It takes no memory.
    pub fn changes(&self) -> &[RowChange]
        ensures changes { result.now ≡ self.now.changes }
        ensures rules { IsBatch self.now }
    {
        self.changes.as_slice()
    }

    /// The changes themselves. It takes no memory.
    pub fn into_changes(self) -> Sequence<RowChange>
        ensures changes { result ≡ self.changes }
        ensures rules { IsBatch self }
    {
        self.changes
    }

    /// Whether the key is above those of all changes. It takes no memory.
    pub fn comes_next(&self, key: &[u8]) -> bool
        ensures { IsTrue result ↔ ComesNext key.now self.now.changes }
    {
        match self.changes.as_slice().last() {
            Some(change) => is_below(change.key(), key),
            None => true,
        }
    }

    /// Adds a change at the end. Want of memory leaves the batch as it was.
    pub fn push(&mut self, change: RowChange) -> Result<(), AllocError>
        requires next { ComesNext (key_in change) self.old.changes }
        requires room { FitsFields change }
        requires puts { IsTrue self.old.clear → IsPut change }
        ensures ok { OnOk result (self.new ≡ record self.old { changes = self.old.changes ++ change ∷ [] }) }
        ensures err { OnErr result (self.new ≡ self.old) }
        ensures rules { IsBatch self.new }
    {
        self.changes.push(change)?;
        Ok(())
    }
}

// A put of each of the rows.
fn puts_of(alloc: Global, rows: Sequence<StoreRow>) -> Result<Sequence<RowChange>, AllocError>
    ensures { IfOk result (λ changes. changes ≡ map put_change rows) }
{
    let mut changes = Sequence::new(alloc);
    for row in rows.into_vec() {
        changes.push(RowChange::Put(row))?;
    }
    Ok(changes)
}

// Whether a key is below another.
fn is_below(key: &[u8], other: &[u8]) -> bool
    ensures { IsTrue result ↔ (key_cmp key.now other.now ≡ Less) }
{
    match key.cmp(other) {
        Ordering::Less => true,
        Ordering::Equal => false,
        Ordering::Greater => false,
    }
}
