//! Rows on the outbox of enrolment changes: the changes between rows of enrolments, what appended changes and confirmations leave,
//! the rows of a store that are an outbox's, and how they change.
mod actions;
mod shown;
mod slug_changes;
mod stored;

use change_outbox::Outbox;
use row_tables::{Fault, Found};
use std::alloc::Global;
use stored::take_given;

/// What is found of a row.
pub(crate) fn find(
    alloc: Global,
    kind: &str,
    given: &str,
    input: &str,
    found: &mut Found,
) -> Result<(), Fault> {
    let mut outbox = Outbox::new(alloc);
    let outcome = find_over(alloc, &mut outbox, kind, given, input, found);
    drop(outbox);
    outcome
}

// What is found of a row over a new outbox, or over that of the rows that are given.
fn find_over(
    alloc: Global,
    outbox: &mut Outbox,
    kind: &str,
    given: &str,
    input: &str,
    found: &mut Found,
) -> Result<(), Fault> {
    take_given(alloc, outbox, given)?;
    match kind {
        "changes" => slug_changes::find_changes(alloc, input, found),
        "actions" => actions::find_left(alloc, outbox, input, found),
        "both" => actions::find_both(alloc, outbox, input, found),
        "rows" => stored::find_outbox(alloc, outbox, input, found),
        "row_changes" => stored::find_row_changes(alloc, outbox, input, found),
        "spelled" => stored::find_rows(alloc, outbox, input, found),
        _ => Err(Fault::NoRow),
    }
}
