// The rows of an outbox.
ghost use Rattle.std.specs.Prelude.{◌≡◌, ◌↔◌, ◌++◌, map, refl, true, IfOk, IsTrue, OnOk, ⊤};
ghost use Rattle.row_batches.specs.Rows.{AreRows, key_cmp};
ghost use Rattle.change_outbox.specs.Contents.{IsSound};
ghost use Rattle.change_outbox.specs.Rows.{change_key, change_row, change_text, kind_letter, next_row, next_rows, number_text, rows_of};

use crate::change::{Change, ChangeKind};
use crate::outbox::Outbox;
use row_batches::{RowForm, StoreRow, add_rows};
use sequences::Sequence;
use std::alloc::{AllocError, Global};
use std::cmp::Ordering;

/// The letter that begins the key of each row.
pub(crate) const OUTBOX: u8 = b'x';

/// The letter of a join.
pub(crate) const JOIN: u8 = b'J';

/// The letter of a leave.
pub(crate) const LEAVE: u8 = b'L';

impl Outbox {
    /// The rows of the outbox, in the order of their keys. The next number, where it is above 1, stands in 8 bytes under the key
    /// `x`. Each entry stands under `x` and its number in 8 bytes, as `J` or `L`, the length of the slug in one byte, the slug
    /// and the branch. The highest byte of a number stands first.
    pub fn rows(&self, alloc: Global) -> Result<Sequence<StoreRow>, AllocError>
        ensures rows { IfOk result (λ rows. rows ≡ rows_of self.now) }
        ensures order { IfOk result AreRows }
        ensures sound { IfOk result (λ _. IsSound self.now) }
    {
        let mut rows = Sequence::new(alloc);
        add_next_row(alloc, &mut rows, self.next())?;
        add_rows(alloc, &mut rows, &EntryRows, self.entries())?;
        Ok(rows)
    }
}

// Adds the row of the next number, where it is above 1.
fn add_next_row(alloc: Global, rows: &mut Sequence<StoreRow>, next: u64) -> Result<(), AllocError>
    ensures { OnOk result (rows.new ≡ rows.old ++ next_rows next) }
{
    if next > 1 {
        rows.push(next_row(alloc, next)?)?;
    }
    Ok(())
}

/// The row of the next number.
pub(crate) fn next_row(alloc: Global, next: u64) -> Result<StoreRow, AllocError>
    ensures { IfOk result (λ row. row ≡ next_row next) }
{
    Ok(StoreRow {
        key: Sequence::from_vec([OUTBOX].to_vec(alloc)?),
        value: Sequence::from_vec(number_bytes(next).to_vec(alloc)?),
    })
}

/// How entries stand as rows.
pub(crate) struct EntryRows;

impl RowForm<Change> for EntryRows {
    ghost has_row = { λ form _. true };

    ghost key = { λ form entry. change_key entry.number };

    ghost value = { λ form entry. change_text entry.kind entry.slug entry.branch };

    ghost rows = { λ form entries. map change_row entries };

    ghost fits = { λ _. ⊤ };

    ghost none = { λ form. refl };

    ghost each = { λ form entry entries. refl };

    fn has_row(&self, _item: &Change) -> bool {
        true
    }

    fn key_order(&self, old: &Change, new: &Change) -> Ordering {
        key_order(old.number, new.number)
    }

    fn has_same_value(&self, old: &Change, new: &Change) -> bool {
        is_same(old, new)
    }

    fn key(&self, alloc: Global, item: &Change) -> Result<Sequence<u8>, AllocError> {
        key_of(alloc, item.number)
    }

    fn value(&self, alloc: Global, item: &Change) -> Result<Sequence<u8>, AllocError> {
        value_of(alloc, item)
    }
}

// How the keys of the rows of two numbers compare.
#[tactic(auto, using(crate::proofs::EntryOrder::key_order_is))]
fn key_order(old: u64, new: u64) -> Ordering
    ensures { result ≡ key_cmp (change_key old) (change_key new) }
{
    old.cmp(&new)
}

// Whether changes have the same kind, slug and branch.
fn is_same(old: &Change, new: &Change) -> bool
    ensures { IsTrue result ↔ (change_text old.now.kind old.now.slug old.now.branch ≡ change_text new.now.kind new.now.slug new.now.branch) }
{
    if !is_same_kind(old.kind, new.kind) {
        return false;
    }
    if old.slug != new.slug {
        return false;
    }
    old.branch == new.branch
}

fn is_same_kind(old: ChangeKind, new: ChangeKind) -> bool
    ensures { IsTrue result ↔ (old ≡ new) }
{
    old == new
}

// The letter and the number.
fn key_of(alloc: Global, number: u64) -> Result<Sequence<u8>, AllocError>
    ensures { IfOk result (λ key. key ≡ change_key number) }
{
    let mut key = Vec::with_capacity(alloc, 9)?;
    key.push(OUTBOX)?;
    key.extend_from_slice(&number_bytes(number))?;
    Ok(Sequence::from_vec(key))
}

// The letter of the kind, the length of the slug, the slug and the branch.
fn value_of(alloc: Global, change: &Change) -> Result<Sequence<u8>, AllocError>
    ensures { IfOk result (λ value. value ≡ change_text change.now.kind change.now.slug change.now.branch) }
{
    let slug = change.slug.text().as_bytes();
    let branch = change.branch.text().as_bytes();
    let mut value = Vec::with_capacity(alloc, 2 + slug.len() + branch.len())?;
    value.push(kind_letter(change.kind))?;
    value.push(slug.len() as u8)?;
    value.extend_from_slice(slug)?;
    value.extend_from_slice(branch)?;
    Ok(Sequence::from_vec(value))
}

fn kind_letter(kind: ChangeKind) -> u8
    ensures { result ≡ kind_letter kind }
{
    match kind {
        ChangeKind::Join => JOIN,
        ChangeKind::Leave => LEAVE,
    }
}

/// A number in eight bytes, the highest first.
#[tactic(auto, unfolding(crate::specs::Rows::number_text))]
pub(crate) fn number_bytes(number: u64) -> [u8; 8]
    ensures { result ≡ number_text number }
{
    number.to_be_bytes()
}
