//! Rows on the rows that keep preferences.
ghost use Rattle.std.specs.Prelude.{◌≡◌, length};

use super::steps::do_all;
use crate::store_rows::{add_changes, add_rows, add_rows_again, add_size, read_rows};
use pref_bindings::{Prefs, PrefsFault, prefs_of};
use row_batches::StoreRow;
use row_tables::{Fault, Found, parts};
use sequences::{ListPart, Sequence};
use std::alloc::{AllocError, Global};

/// The rows of the preferences after steps, or `none`. Row: the steps.
pub(crate) fn find_rows(
    alloc: Global,
    prefs: &mut Prefs,
    steps: &str,
    found: &mut Found,
) -> Result<(), Fault> {
    do_all(alloc, prefs, steps)?;
    Ok(add_rows_of(alloc, prefs, found)?)
}

fn add_rows_of(alloc: Global, prefs: &Prefs, found: &mut Found) -> Result<(), AllocError> {
    let rows = prefs.rows(alloc)?;
    add_rows(rows.as_slice(), found);
    found.none();
    Ok(())
}

/// Whether rows keep preferences, and are written again as they were. Row: the rows.
pub(crate) fn find_reading(alloc: Global, input: &str, found: &mut Found) -> Result<(), Fault> {
    let mut rows = Vec::new(alloc);
    read_rows(alloc, input, &mut rows)?;
    add_reading(alloc, &rows, found)
}

fn add_reading(alloc: Global, rows: &[StoreRow], found: &mut Found) -> Result<(), Fault> {
    match prefs_of(alloc, rows) {
        Ok(prefs) => Ok(add_again(alloc, &prefs, rows, found)?),
        Err(PrefsFault::NotPrefs) => Ok(found.text("NotPrefs")),
        Err(PrefsFault::OutOfMemory) => Err(Fault::OutOfMemory),
    }
}

fn add_again(
    alloc: Global,
    prefs: &Prefs,
    rows: &[StoreRow],
    found: &mut Found,
) -> Result<(), AllocError> {
    let again = prefs.rows(alloc)?;
    add_rows_again(again.as_slice(), rows, found);
    Ok(())
}

/// The rows that are put and the keys of those that are deleted, or `none`, and how many bytes the puts of the new rows have. Row:
/// the steps to the old preferences, and behind ` | ` those to the new ones.
pub(crate) fn find_changes(
    alloc: Global,
    prefs: &mut Prefs,
    input: &str,
    found: &mut Found,
) -> Result<(), Fault> {
    let (old, new) = parts(input)?;
    do_all(alloc, prefs, old)?;
    find_changes_from(alloc, prefs, new, found)
}

fn find_changes_from(
    alloc: Global,
    old: &Prefs,
    steps: &str,
    found: &mut Found,
) -> Result<(), Fault> {
    let mut new = Prefs::new(alloc);
    let outcome = find_changes_to(alloc, old, &mut new, steps, found);
    drop(new);
    outcome
}

fn find_changes_to(
    alloc: Global,
    old: &Prefs,
    new: &mut Prefs,
    steps: &str,
    found: &mut Found,
) -> Result<(), Fault> {
    do_all(alloc, new, steps)?;
    add_hold_changes(alloc, old, new, found)?;
    Ok(add_value_changes(alloc, old, new, found)?)
}

fn add_hold_changes(
    alloc: Global,
    old: &Prefs,
    new: &Prefs,
    found: &mut Found,
) -> Result<(), AllocError> {
    let mut changes = Sequence::new(alloc);
    old.add_hold_changes_in(alloc, &mut changes, new, whole(old, new))?;
    add_changes(changes.as_slice(), found);
    Ok(())
}

fn add_value_changes(
    alloc: Global,
    old: &Prefs,
    new: &Prefs,
    found: &mut Found,
) -> Result<(), AllocError> {
    let mut changes = Sequence::new(alloc);
    old.add_value_changes_in(alloc, &mut changes, new, whole(old, new))?;
    add_changes(changes.as_slice(), found);
    add_size(new.size(), found);
    Ok(())
}

// All preferences of both.
fn whole(old: &Prefs, new: &Prefs) -> ListPart
    ensures { result ≡ record { start = 0; removed = length old.now; added = length new.now } }
{
    ListPart::whole(old.as_slice().len(), new.as_slice().len())
}
