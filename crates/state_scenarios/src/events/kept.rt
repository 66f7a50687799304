//! Rows on the rows that keep counts.
use super::histories::count_all;
use crate::inputs::number;
use crate::store_rows::{add_rows, add_rows_again, read_rows};
use event_counts::{Counts, CountsFault, StoreRow, counts_of};
use row_tables::{Fault, Found, add_between};
use std::alloc::{AllocError, Global};

/// How many rows keep the counts after events, and the rows. Row: the events.
pub(crate) fn find_rows(
    alloc: Global,
    counts: &mut Counts,
    events: &str,
    found: &mut Found,
) -> Result<(), Fault> {
    count_all(alloc, counts, events)?;
    Ok(add_count_and_rows(alloc, counts, found)?)
}

fn add_count_and_rows(alloc: Global, counts: &Counts, found: &mut Found) -> Result<(), AllocError> {
    let rows = counts.rows(alloc)?;
    found.displayed(&rows.len());
    found.text(" rows");
    add_rows(rows.as_slice(), found);
    Ok(())
}

/// Whether rows keep counts, and are written again as they were. Row: the rows.
pub(crate) fn find_reading(alloc: Global, input: &str, found: &mut Found) -> Result<(), Fault> {
    let mut rows = Vec::new(alloc);
    read_rows(alloc, input, &mut rows)?;
    add_reading(alloc, &rows, found)
}

/// The same of so many rows, whose names are `n10`, `n11` and so on and whose values have 728 bytes 0. Row: how many.
pub(crate) fn find_reading_of_many(
    alloc: Global,
    input: &str,
    found: &mut Found,
) -> Result<(), Fault> {
    let mut text = String::new(alloc);
    add_named_rows(number(input)?, &mut text)?;
    find_reading(alloc, text.as_str(), found)
}

fn add_named_rows(count: u64, text: &mut String) -> Result<(), Fault> {
    if count > 90 {
        return Err(Fault::NoRow);
    }
    for place in 10..count + 10 {
        add_named_row(place, text)?;
    }
    Ok(())
}

fn add_named_row(place: u64, text: &mut String) -> Result<(), AllocError> {
    add_between(text, ", ")?;
    write!(text, "en{place} 728")
}

fn add_reading(alloc: Global, rows: &[StoreRow], found: &mut Found) -> Result<(), Fault> {
    match counts_of(alloc, rows) {
        Ok(counts) => Ok(add_again(alloc, &counts, rows, found)?),
        Err(CountsFault::NotCounts) => Ok(found.text("NotCounts")),
        Err(CountsFault::OutOfMemory) => Err(Fault::OutOfMemory),
    }
}

fn add_again(
    alloc: Global,
    counts: &Counts,
    rows: &[StoreRow],
    found: &mut Found,
) -> Result<(), AllocError> {
    let again = counts.rows(alloc)?;
    add_rows_again(again.as_slice(), rows, found);
    Ok(())
}
