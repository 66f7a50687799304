//! Rows on the rows of a store that are an outbox's.
ghost use Rattle.change_outbox.specs.Contents.{IsMadeOf};

use super::actions::{act_all, changes_of};
use super::shown::add_outbox;
use crate::inputs::number;
use crate::store_rows::{add_changes, add_rows, add_size, read_rows};
use change_outbox::{Outbox, OutboxFault, outbox_of};
use row_batches::StoreRow;
use row_tables::{Fault, Found, parts};
use sequences::Sequence;
use std::alloc::{AllocError, Global};

/// The outbox of a store's rows, or `NotAnOutbox`. Row: the store's rows.
pub(crate) fn find_outbox(
    alloc: Global,
    outbox: &mut Outbox,
    input: &str,
    found: &mut Found,
) -> Result<(), Fault> {
    if reopen(alloc, outbox, input)? {
        return Ok(add_outbox(outbox, found));
    }
    Ok(found.text("NotAnOutbox"))
}

/// The rows of an outbox after actions. Row: the actions, with semicolons between them.
pub(crate) fn find_rows(
    alloc: Global,
    outbox: &mut Outbox,
    input: &str,
    found: &mut Found,
) -> Result<(), Fault> {
    act_all(alloc, outbox, input, found)?;
    found.clear();
    Ok(add_rows_of(alloc, outbox, found)?)
}

fn add_rows_of(alloc: Global, outbox: &Outbox, found: &mut Found) -> Result<(), AllocError> {
    let rows = outbox.rows(alloc)?;
    add_rows(rows.as_slice(), found);
    found.none();
    Ok(())
}

/// The changes of rows from the outbox after actions to that after a confirmation and an append more, and how many bytes the puts of
/// its rows have. Row: the actions with semicolons between them, and behind ` | ` the number that is confirmed and the changes, with
/// a semicolon between them.
pub(crate) fn find_row_changes(
    alloc: Global,
    outbox: &mut Outbox,
    input: &str,
    found: &mut Found,
) -> Result<(), Fault> {
    let (actions, further) = parts(input)?;
    let (confirmed, changes) = further.split_once("; ").ok_or(Fault::NoRow)?;
    act_all(alloc, outbox, actions, found)?;
    found.clear();
    find_from(alloc, outbox, number(confirmed)?, changes, found)
}

#[tactic(auto, using(change_outbox::proofs::Made::confirmed_made))]
fn find_from(
    alloc: Global,
    outbox: &Outbox,
    number: u64,
    changes: &str,
    found: &mut Found,
) -> Result<(), Fault> {
    match outbox.confirm(number) {
        Ok(left) => find_after(alloc, outbox, left, changes, found),
        Err(_) => Err(Fault::NoRow),
    }
}

#[tactic(auto, using(change_outbox::proofs::Made::appended_made))]
fn find_after(
    alloc: Global,
    outbox: &Outbox,
    left: Outbox,
    changes: &str,
    found: &mut Found,
) -> Result<(), Fault>
    requires { IsMadeOf outbox.now left }
{
    let mut left = left;
    let changes = changes_of(alloc, changes)?;
    match left.append(changes) {
        Ok(next) => Ok(add_changes_to(alloc, outbox, &next, found)?),
        Err(_) => Err(Fault::NoRow),
    }
}

fn add_changes_to(
    alloc: Global,
    outbox: &Outbox,
    next: &Outbox,
    found: &mut Found,
) -> Result<(), AllocError>
    requires { IsMadeOf outbox.now next.now }
{
    let mut changes = Sequence::new(alloc);
    outbox.add_changes_to(alloc, &mut changes, next)?;
    add_changes(changes.as_slice(), found);
    add_size(next.size(), found);
    Ok(())
}

/// Takes the outbox of the rows that are given, if any are.
pub(crate) fn take_given(alloc: Global, outbox: &mut Outbox, given: &str) -> Result<(), Fault> {
    if given.is_empty() || reopen(alloc, outbox, given)? {
        return Ok(());
    }
    Err(Fault::NoRow)
}

// Takes the outbox of rows; whether they are one's.
fn reopen(alloc: Global, outbox: &mut Outbox, text: &str) -> Result<bool, Fault> {
    let mut rows = Vec::new(alloc);
    read_rows(alloc, text, &mut rows)?;
    take(alloc, outbox, &rows)
}

fn take(alloc: Global, outbox: &mut Outbox, rows: &[StoreRow]) -> Result<bool, Fault> {
    match outbox_of(alloc, rows) {
        Ok(kept) => {
            *outbox = kept;
            Ok(true)
        }
        Err(OutboxFault::NotAnOutbox) => Ok(false),
        Err(OutboxFault::OutOfMemory) => Err(Fault::OutOfMemory),
    }
}
