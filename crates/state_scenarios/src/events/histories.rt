//! Events that are counted one after the other. An event is a name, how often it came, and the moment at which it is handed in;
//! a comma stands between two. Where a number is given, so many names come first, `n0`, `n1` and so on, each once and at the
//! moment 0.
use crate::inputs::number;
use event_counts::{CountFault, Counts};
use plain_text::{LAST_MOMENT, is_name};
use row_tables::{Fault, Found, cut};
use std::alloc::Global;

/// How many names there are after an event, or why it isn't counted. Row: the event.
pub(crate) fn find_answer(
    alloc: Global,
    counts: &mut Counts,
    event: &str,
    found: &mut Found,
) -> Result<(), Fault> {
    match count_event(alloc, counts, event)? {
        None => Ok(add_size(counts, found)),
        Some(fault) => Ok(found.debugged(&fault)),
    }
}

fn add_size(counts: &Counts, found: &mut Found) {
    found.displayed(&counts.len());
    found.text(" names");
}

/// Counts the names that are given, which may be no text.
pub(crate) fn count_given(alloc: Global, counts: &mut Counts, given: &str) -> Result<(), Fault> {
    if given.is_empty() {
        return Ok(());
    }
    count_names(alloc, counts, number(given)?)
}

fn count_names(alloc: Global, counts: &mut Counts, names: u64) -> Result<(), Fault> {
    for place in 0..names {
        count_name(alloc, counts, place)?;
    }
    Ok(())
}

fn count_name(alloc: Global, counts: &mut Counts, place: u64) -> Result<(), Fault> {
    let event = format!(in alloc; "n{place} 1 0")?;
    count_one(alloc, counts, event.as_str())
}

/// Counts events.
pub(crate) fn count_all(alloc: Global, counts: &mut Counts, events: &str) -> Result<(), Fault> {
    for event in events.split(", ") {
        count_one(alloc, counts, event)?;
    }
    Ok(())
}

fn count_one(alloc: Global, counts: &mut Counts, event: &str) -> Result<(), Fault> {
    if event.is_empty() {
        return Ok(());
    }
    match count_event(alloc, counts, event)? {
        None => Ok(()),
        Some(_) => Err(Fault::NoRow),
    }
}

// Counts an event, or says why it isn't counted.
fn count_event(
    alloc: Global,
    counts: &mut Counts,
    event: &str,
) -> Result<Option<CountFault>, Fault> {
    let (name, rest) = cut(event);
    let (spelled, now) = cut(rest);
    let count = times(spelled)?;
    let now = number(now)?;
    if now > LAST_MOMENT || !is_name(name.as_bytes()) {
        return Err(Fault::NoRow);
    }
    match counts.count_in(alloc, name, count, now) {
        Ok(counted) => {
            *counts = counted.counts;
            Ok(None)
        }
        Err(fault) => Ok(Some(fault)),
    }
}

// How often an event came.
fn times(text: &str) -> Result<u32, Fault> {
    u32::try_from(number(text)?).ok().ok_or(Fault::NoRow)
}
