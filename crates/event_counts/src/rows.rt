// The rows that keep counts in a store.
ghost use Rattle.std.specs.Prelude.{◌≡◌, ◌↔◌, ◌++◌, codes, refl, true, IfOk, IsTrue, OnOk};
ghost use Rattle.row_batches.specs.Rows.{AreRows};
ghost use Rattle.event_counts.specs.Rows.{list_bytes, rows_of, value_of};
ghost use Rattle.event_counts.specs.Sound.{AreInOrder, HaveCounts, IsSoundName};

use crate::counts::Counts;
use crate::name_counts::NameCounts;
use crate::number_bytes::add_numbers;
use crate::ring::Ring;
use crate::shared_counts::SharedCounts;
use row_batches::{RowForm, StoreRow, add_rows};
use sequences::Sequence;
use std::alloc::{AllocError, Global};
use std::cmp::Ordering;

/// What the key of each row begins with.
pub(crate) const TAG: u8 = b'e';

/// How many bytes the value of each row has.
pub(crate) const VALUE_LEN: usize = 728;

impl Counts {
    /// The rows, in the order of their keys: for each name one whose key is `e` and the name. Its value has 728 bytes: the latest
    /// moment in eight, and the counts of the hours, the days and the weeks in four each, the newest first. The highest byte of
    /// a number is its first.
    pub fn rows(&self, alloc: Global) -> Result<Sequence<StoreRow>, AllocError>
        ensures rows { IfOk result (λ rows. rows ≡ rows_of self.now) }
        ensures order { IfOk result AreRows }
    {
        rows_of(alloc, self.names())
    }
}

fn rows_of(alloc: Global, names: &[SharedCounts]) -> Result<Sequence<StoreRow>, AllocError>
    requires { AreInOrder names.now }
    ensures rows { IfOk result (λ rows. rows ≡ rows_of names.now) }
    ensures order { IfOk result AreRows }
{
    let mut rows = Sequence::new(alloc);
    add_rows(alloc, &mut rows, &CountRows, names)?;
    Ok(rows)
}

/// How the counts of names stand as rows.
pub(crate) struct CountRows;

impl RowForm<SharedCounts> for CountRows {
    ghost has_row = { λ form _. true };

    ghost key = { λ form counts. codes "e" ++ counts.name };

    ghost value = { λ form counts. value_of counts };

    ghost rows = { λ form names. rows_of names };

    ghost fits = { λ counts. IsSoundName counts };

    ghost none = { λ form. refl };

    ghost each = { λ form counts names. refl };

    fn has_row(&self, _item: &SharedCounts) -> bool {
        true
    }

    fn key_order(&self, old: &SharedCounts, new: &SharedCounts) -> Ordering {
        old.get().name.cmp(&new.get().name)
    }

    fn has_same_value(&self, old: &SharedCounts, new: &SharedCounts) -> bool {
        is_same(old.get(), new.get())
    }

    fn key(&self, alloc: Global, item: &SharedCounts) -> Result<Sequence<u8>, AllocError> {
        key_of(alloc, item.get())
    }

    fn value(&self, alloc: Global, item: &SharedCounts) -> Result<Sequence<u8>, AllocError> {
        Ok(Sequence::from_vec(value_of(alloc, item.get())?))
    }
}

// Whether the counts are the same, of whichever names.
#[tactic(auto, using(crate::proofs::SameRows::fields_same, crate::proofs::SameRows::same_value))]
fn is_same(old: &NameCounts, new: &NameCounts) -> bool
    requires old_counts { HaveCounts old.now }
    requires new_counts { HaveCounts new.now }
    ensures { IsTrue result ↔ (value_of old.now ≡ value_of new.now) }
{
    old.latest == new.latest
        && old.hours.is_same(&new.hours)
        && old.days.is_same(&new.days)
        && old.weeks.is_same(&new.weeks)
}

// The key of the row of the counts of a name.
fn key_of(alloc: Global, counts: &NameCounts) -> Result<Sequence<u8>, AllocError>
    ensures { IfOk result (λ key. key ≡ codes "e" ++ counts.now.name) }
{
    let name = counts.name.as_str().as_bytes();
    let mut key = Vec::with_capacity(alloc, name.len() + 1)?;
    key.push(TAG)?;
    key.extend_from_slice(name)?;
    Ok(Sequence::from_vec(key))
}

#[tactic(auto, unfolding(crate::specs::Rows::moment_bytes))]
fn value_of(alloc: Global, counts: &NameCounts) -> Result<Vec<u8>, AllocError>
    ensures { IfOk result (λ v. v.items ≡ value_of counts.now) }
{
    let mut value = Vec::with_capacity(alloc, VALUE_LEN)?;
    value.extend_from_slice(&counts.latest.to_be_bytes())?;
    add_counts(&mut value, &counts.hours)?;
    add_counts(&mut value, &counts.days)?;
    add_counts(&mut value, &counts.weeks)?;
    Ok(value)
}

// Adds the bytes of the counts, the newest first.
fn add_counts(bytes: &mut Vec<u8>, ring: &Ring) -> Result<(), AllocError>
    ensures { OnOk result (bytes.new.items ≡ bytes.old.items ++ list_bytes ring.now) }
{
    let (front, back) = ring.as_slices();
    add_numbers(bytes, front)?;
    add_numbers(bytes, back)
}
