//! Rows on the changes from the rows that keep some counts to those that keep others.
use super::histories::{count_all, count_given};
use crate::store_rows::{add_changes, add_size};
use event_counts::Counts;
use row_tables::{Fault, Found, parts};
use sequences::{ListPart, Sequence};
use std::alloc::{AllocError, Global};

/// The rows that are put and the keys of those that are deleted, or `none`, and how many bytes the puts of the new rows have. Row:
/// the events of the old counts, and behind ` | ` those of the new ones.
pub(crate) fn find_changes(
    alloc: Global,
    counts: &mut Counts,
    given: &str,
    input: &str,
    found: &mut Found,
) -> Result<(), Fault> {
    let (old, new) = parts(input)?;
    count_all(alloc, counts, old)?;
    find_changes_from(alloc, counts, given, new, found)
}

fn find_changes_from(
    alloc: Global,
    old: &Counts,
    given: &str,
    events: &str,
    found: &mut Found,
) -> Result<(), Fault> {
    let mut new = Counts::new(alloc);
    let outcome = find_changes_to(alloc, old, &mut new, given, events, found);
    drop(new);
    outcome
}

fn find_changes_to(
    alloc: Global,
    old: &Counts,
    new: &mut Counts,
    given: &str,
    events: &str,
    found: &mut Found,
) -> Result<(), Fault> {
    count_given(alloc, new, given)?;
    count_all(alloc, new, events)?;
    Ok(add_changes_between(alloc, old, new, found)?)
}

fn add_changes_between(
    alloc: Global,
    old: &Counts,
    new: &Counts,
    found: &mut Found,
) -> Result<(), AllocError> {
    let part = ListPart::whole(old.len(), new.len());
    let mut changes = Sequence::new(alloc);
    old.add_changes_in(alloc, &mut changes, new, part)?;
    add_changes(changes.as_slice(), found);
    add_size(new.size(), found);
    Ok(())
}
