//! Rows on counts of events: what a moment sees of them, the limit of names, the rows that keep them, and how these change.
mod changes;
mod histories;
mod kept;
mod seen;

use event_counts::Counts;
use histories::count_given;
use row_tables::{Fault, Found};
use std::alloc::Global;

/// What is found of a row.
pub(crate) fn find(
    alloc: Global,
    kind: &str,
    given: &str,
    input: &str,
    found: &mut Found,
) -> Result<(), Fault> {
    let mut counts = Counts::new(alloc);
    let outcome = find_over(alloc, &mut counts, kind, given, input, found);
    drop(counts);
    outcome
}

// What is found of a row over counts without names.
fn find_over(
    alloc: Global,
    counts: &mut Counts,
    kind: &str,
    given: &str,
    input: &str,
    found: &mut Found,
) -> Result<(), Fault> {
    count_given(alloc, counts, given)?;
    match kind {
        "entries" => seen::find_entries(alloc, counts, input, found),
        "lists" => seen::find_lists(alloc, counts, input, found),
        "event" => histories::find_answer(alloc, counts, input, found),
        "rows" => kept::find_rows(alloc, counts, input, found),
        "read" => kept::find_reading(alloc, input, found),
        "changes" => changes::find_changes(alloc, counts, given, input, found),
        "many" => kept::find_reading_of_many(alloc, input, found),
        _ => Err(Fault::NoRow),
    }
}
