//! Rows on the changes from one list of enrolment rows to another.
use super::shown::add_changes;
use crate::enrolment_rows::{add_rows, rise};
use change_outbox::changes_of;
use enrol_states::Row;
use row_tables::{Fault, Found, parts};
use sequences::SharedList;
use std::alloc::Global;

/// The changes between rows. Row: the old and the new rows of enrolments.
pub(crate) fn find_changes(alloc: Global, input: &str, found: &mut Found) -> Result<(), Fault> {
    let (old, new) = parts(input)?;
    let mut rows = SharedList::new(alloc);
    add_rows(alloc, old, &mut rows)?;
    find_changes_from(alloc, rows.as_slice(), new, found)
}

fn find_changes_from(
    alloc: Global,
    old: &[Row],
    new: &str,
    found: &mut Found,
) -> Result<(), Fault> {
    let mut rows = SharedList::new(alloc);
    add_rows(alloc, new, &mut rows)?;
    find_changes_between(alloc, old, rows.as_slice(), found)
}

fn find_changes_between(
    alloc: Global,
    old: &[Row],
    new: &[Row],
    found: &mut Found,
) -> Result<(), Fault> {
    if !rise(old) || !rise(new) {
        return Err(Fault::NoRow);
    }
    let changes = changes_of(alloc, old, new)?;
    Ok(add_changes(changes.as_slice(), found))
}
