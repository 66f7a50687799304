// The bytes of all rows after a batch.
ghost use Rattle.std.specs.Prelude.{◌≡◌, ◌++◌, ◌∷◌, [], IfOk, IfSome, IfNone, OnOk, if◌then◌else◌, map};
ghost use Rattle.row_batches.specs.declared.change.RowChange.TheVariants.{Put as put_change};
ghost use Rattle.row_batches.specs.Batch.{applied, batch_text, changes_text, whole_of};
ghost use Rattle.row_batches.specs.Merging.{IsMerge, AreInOrder, ComesBefore};
ghost use Rattle.row_batches.specs.Rows.{AreRows, after_changes};

use crate::batch::Batch;
use crate::change::RowChange;
use crate::store_row::StoreRow;
use crate::writing::{CLEAR, put_row};
use std::alloc::{AllocError, Global};
use std::cmp::Ordering;

impl Batch {
    /// The bytes of a clear and a put of each row that stands after the batch, where these stood before it. Both lists are
    /// walked once, and no row is copied but into the bytes.
    pub fn whole_after(&self, alloc: Global, rows: &[StoreRow]) -> Result<Vec<u8>, AllocError>
        requires { AreRows rows.now }
        ensures { IfOk result (λ bytes. bytes.items ≡ batch_text (whole_of (applied self.now rows.now))) }
    {
        let kept = rows_kept(rows, self.is_clear());
        let mut bytes = Vec::new(alloc);
        bytes.push(CLEAR)?;
        put_merged(&mut bytes, self.changes(), kept)?;
        Ok(bytes)
    }
}

// The rows that a batch begins with: none after a clear.
#[tactic(auto, using(crate::proofs::Found::no_rows))]
fn rows_kept(rows: &[StoreRow], is_clear: bool) -> &[StoreRow]
    requires { AreRows rows.now }
    ensures rows { result.now ≡ (if is_clear then [] else rows.now) }
    ensures rise { AreRows result.now }
{
    if is_clear { &[] } else { rows }
}

// Adds a put of each row after the changes.
fn put_merged(
    bytes: &mut Vec<u8>,
    changes: &[RowChange],
    rows: &[StoreRow],
) -> Result<(), AllocError>
    requires { AreInOrder changes.now rows.now }
    ensures { OnOk result (bytes.new.items ≡ bytes.old.items ++ changes_text (map put_change (after_changes changes.now rows.now))) }
{
    let mut changes = changes;
    let mut rows = rows;
    loop {
        match next_merge(changes, rows) {
            Merge::End => return Ok(()),
            Merge::Row {
                row,
                changes: changes_left,
                rows: rows_left,
            } => {
                put_row(bytes, row)?;
                changes = changes_left;
                rows = rows_left;
            }
            Merge::Skip {
                changes: changes_left,
                rows: rows_left,
            } => {
                changes = changes_left;
                rows = rows_left;
            }
        }
    }
}

/// One step of a walk over changes and the rows that they change, and what is left.
pub(crate) enum Merge<'a> {
    /// Nothing is left.
    End,
    /// The first row after the changes.
    Row {
        row: &'a StoreRow,
        changes: &'a [RowChange],
        rows: &'a [StoreRow],
    },
    /// A row is deleted, or one that isn't there.
    Skip {
        changes: &'a [RowChange],
        rows: &'a [StoreRow],
    },
}

// The next step.
fn next_merge<'a>(changes: &'a [RowChange], rows: &'a [StoreRow]) -> Merge<'a>
    requires { AreInOrder changes.now rows.now }
    ensures { IsMerge changes.now rows.now result }
{
    match first_change(changes) {
        None => match first_row(rows) {
            None => Merge::End,
            Some((row, rows_left)) => Merge::Row {
                row,
                changes,
                rows: rows_left,
            },
        },
        Some((change, changes_left)) => match first_row(rows) {
            None => change_merge(change, changes_left, rows),
            Some((row, rows_left)) => match change.key().cmp(row.key.as_slice()) {
                Ordering::Less => change_merge(change, changes_left, rows),
                Ordering::Equal => change_merge(change, changes_left, rows_left),
                Ordering::Greater => Merge::Row {
                    row,
                    changes,
                    rows: rows_left,
                },
            },
        },
    }
}

// The first change, and those behind it.
fn first_change(changes: &[RowChange]) -> Option<(&RowChange, &[RowChange])>
    ensures some { IfSome result (λ p. changes.now ≡ p.0.now ∷ p.1.now) }
    ensures none { IfNone result (changes.now ≡ []) }
{
    match changes {
        [] => None,
        [change, behind @ ..] => Some((change, behind)),
    }
}

// The first row, and those behind it.
fn first_row(rows: &[StoreRow]) -> Option<(&StoreRow, &[StoreRow])>
    ensures some { IfSome result (λ p. rows.now ≡ p.0.now ∷ p.1.now) }
    ensures none { IfNone result (rows.now ≡ []) }
{
    match rows {
        [] => None,
        [row, behind @ ..] => Some((row, behind)),
    }
}

// The step of a change that comes before these rows.
#[tactic(auto, using(crate::proofs::Merged::put_before, crate::proofs::Merged::delete_before))]
fn change_merge<'a>(
    change: &'a RowChange,
    changes: &'a [RowChange],
    rows: &'a [StoreRow],
) -> Merge<'a>
    requires { ComesBefore change.now changes.now rows.now }
    ensures { IsMerge (change.now ∷ changes.now) rows.now result }
{
    match change {
        RowChange::Put(row) => Merge::Row { row, changes, rows },
        RowChange::Delete(_) => Merge::Skip { changes, rows },
    }
}
