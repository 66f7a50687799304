// The rows of a list's items, and the changes from them to the rows of another's.
ghost use Rattle.std.specs.Prelude.{◌≡◌, ◌++◌, ◌∷◌, [], All, map, IfOk, IfSome, IfNone, OnOk};
ghost use Rattle.row_batches.specs.Between.{changes_between};
ghost use Rattle.row_batches.specs.ItemRows.{IsFirst, IsStep, item_row, item_rows};
ghost use Rattle.row_batches.specs.declared.change.RowChange.TheVariants.{Put as put_change, Delete as delete_change};

use crate::change::RowChange;
use crate::row_form::RowForm;
use crate::store_row::StoreRow;
use sequences::Sequence;
use std::alloc::{AllocError, Global};
use std::cmp::Ordering;

/// Adds the row of each item that has one.
pub fn add_rows<T, F: RowForm<T>>(
    alloc: Global,
    rows: &mut Sequence<StoreRow>,
    form: &F,
    items: &[T],
) -> Result<(), AllocError>
    ensures { OnOk result (rows.new ≡ rows.old ++ F.rows form.now items.now) }
{
    add_each(alloc, rows, form, items)
}

/// Adds the changes from the rows of the old items to those of the new ones: a put for each row that is new or differs, a delete
/// for each that is gone, and nothing else. Both lists are walked once, and a row is made only where it changes.
pub fn add_changes<T, F: RowForm<T>>(
    alloc: Global,
    changes: &mut Sequence<RowChange>,
    form: &F,
    olds: &[T],
    news: &[T],
) -> Result<(), AllocError>
    requires old_items { All F.fits olds.now }
    requires new_items { All F.fits news.now }
    ensures { OnOk result (changes.new ≡ changes.old ++ changes_between (F.rows form.now olds.now) (F.rows form.now news.now)) }
{
    walk(alloc, changes, form, olds, news)
}

// Adds the row of each item that has one.
fn add_each<T, F: RowForm<T>>(
    alloc: Global,
    rows: &mut Sequence<StoreRow>,
    form: &F,
    items: &[T],
) -> Result<(), AllocError>
    ensures { OnOk result (rows.new ≡ rows.old ++ item_rows (F.has_row form.now) (F.key form.now) (F.value form.now) items.now) }
{
    for item in items {
        add_row(alloc, rows, form, item)?;
    }
    Ok(())
}

// Adds the changes, item by item.
fn walk<T, F: RowForm<T>>(
    alloc: Global,
    changes: &mut Sequence<RowChange>,
    form: &F,
    olds: &[T],
    news: &[T],
) -> Result<(), AllocError>
    requires old_items { All F.fits olds.now }
    requires new_items { All F.fits news.now }
    ensures { OnOk result (changes.new ≡ changes.old ++ changes_between
        (item_rows (F.has_row form.now) (F.key form.now) (F.value form.now) olds.now)
        (item_rows (F.has_row form.now) (F.key form.now) (F.value form.now) news.now)) }
{
    let mut olds = olds;
    let mut news = news;
    loop {
        let Some((old, olds_behind)) = first_of(form, olds) else {
            return add_puts(alloc, changes, form, news);
        };
        let Some((new, news_behind)) = first_of(form, news) else {
            return add_deletes(alloc, changes, form, olds);
        };
        match step_of(form, old, new) {
            Step::Gone => {
                changes.push(delete_of(alloc, form, old)?)?;
                olds = olds_behind;
            }
            Step::New => {
                changes.push(put_of(alloc, form, new)?)?;
                news = news_behind;
            }
            Step::Differs => {
                changes.push(put_of(alloc, form, new)?)?;
                olds = olds_behind;
                news = news_behind;
            }
            Step::Same => {
                olds = olds_behind;
                news = news_behind;
            }
        }
    }
}

// The first item that has a row, and those behind it.
fn first_of<'a, T, F: RowForm<T>>(form: &F, items: &'a [T]) -> Option<(&'a T, &'a [T])>
    requires { All F.fits items.now }
    ensures some { IfSome result (λ p. IsFirst (F.has_row form.now) (F.key form.now) (F.value form.now) F.fits items.now p.0.now p.1.now) }
    ensures none { IfNone result (item_rows (F.has_row form.now) (F.key form.now) (F.value form.now) items.now ≡ []) }
{
    let mut left = items;
    loop {
        match left {
            [] => return None,
            [item, behind @ ..] => {
                if form.has_row(item) {
                    return Some((item, behind));
                }
                left = behind;
            }
        }
    }
}

/// What the first rows of two lists are to each other.
#[derive(Clone, Copy)]
pub(crate) enum Step {
    /// The old one is gone.
    Gone,
    /// The new one wasn't there.
    New,
    /// They have one key and two values.
    Differs,
    /// They are the same.
    Same,
}

fn step_of<T, F: RowForm<T>>(form: &F, old: &T, new: &T) -> Step
    requires old_item { F.fits old.now }
    requires new_item { F.fits new.now }
    ensures { IsStep (F.key form.now old.now) (F.value form.now old.now) (F.key form.now new.now) (F.value form.now new.now) result }
{
    match form.key_order(old, new) {
        Ordering::Less => Step::Gone,
        Ordering::Greater => Step::New,
        Ordering::Equal => {
            if form.has_same_value(old, new) {
                Step::Same
            } else {
                Step::Differs
            }
        }
    }
}

// The item's row.
fn row_of<T, F: RowForm<T>>(alloc: Global, form: &F, item: &T) -> Result<StoreRow, AllocError>
    ensures { IfOk result (λ row. row ≡ item_row (F.key form.now) (F.value form.now) item.now) }
{
    Ok(StoreRow {
        key: form.key(alloc, item)?,
        value: form.value(alloc, item)?,
    })
}

// A put of the item's row.
fn put_of<T, F: RowForm<T>>(alloc: Global, form: &F, item: &T) -> Result<RowChange, AllocError>
    ensures { IfOk result (λ put. put ≡ put_change (item_row (F.key form.now) (F.value form.now) item.now)) }
{
    Ok(RowChange::Put(row_of(alloc, form, item)?))
}

// A delete of the item's row.
fn delete_of<T, F: RowForm<T>>(alloc: Global, form: &F, item: &T) -> Result<RowChange, AllocError>
    ensures { IfOk result (λ delete. delete ≡ delete_change (F.key form.now item.now)) }
{
    Ok(RowChange::Delete(form.key(alloc, item)?))
}

// Adds the row of the item, where it has one.
fn add_row<T, F: RowForm<T>>(
    alloc: Global,
    rows: &mut Sequence<StoreRow>,
    form: &F,
    item: &T,
) -> Result<(), AllocError>
    ensures { OnOk result (rows.new ≡ rows.old ++ item_rows (F.has_row form.now) (F.key form.now) (F.value form.now) (item.now ∷ [])) }
{
    if !form.has_row(item) {
        return Ok(());
    }
    rows.push(row_of(alloc, form, item)?)
}

// Adds a put of each item's row.
fn add_puts<T, F: RowForm<T>>(
    alloc: Global,
    changes: &mut Sequence<RowChange>,
    form: &F,
    items: &[T],
) -> Result<(), AllocError>
    ensures { OnOk result (changes.new ≡ changes.old ++ changes_between [] (item_rows (F.has_row form.now) (F.key form.now) (F.value form.now) items.now)) }
{
    for item in items {
        add_put(alloc, changes, form, item)?;
    }
    Ok(())
}

// Adds a put of the item's row, where it has one.
fn add_put<T, F: RowForm<T>>(
    alloc: Global,
    changes: &mut Sequence<RowChange>,
    form: &F,
    item: &T,
) -> Result<(), AllocError>
    ensures { OnOk result (changes.new ≡ changes.old ++ changes_between [] (item_rows (F.has_row form.now) (F.key form.now) (F.value form.now) (item.now ∷ []))) }
{
    if !form.has_row(item) {
        return Ok(());
    }
    changes.push(put_of(alloc, form, item)?)
}

// Adds a delete of each item's row.
fn add_deletes<T, F: RowForm<T>>(
    alloc: Global,
    changes: &mut Sequence<RowChange>,
    form: &F,
    items: &[T],
) -> Result<(), AllocError>
    ensures { OnOk result (changes.new ≡ changes.old ++ changes_between (item_rows (F.has_row form.now) (F.key form.now) (F.value form.now) items.now) []) }
{
    for item in items {
        add_delete(alloc, changes, form, item)?;
    }
    Ok(())
}

// Adds a delete of the item's row, where it has one.
fn add_delete<T, F: RowForm<T>>(
    alloc: Global,
    changes: &mut Sequence<RowChange>,
    form: &F,
    item: &T,
) -> Result<(), AllocError>
    ensures { OnOk result (changes.new ≡ changes.old ++ changes_between (item_rows (F.has_row form.now) (F.key form.now) (F.value form.now) (item.now ∷ [])) []) }
{
    if !form.has_row(item) {
        return Ok(());
    }
    changes.push(delete_of(alloc, form, item)?)
}
