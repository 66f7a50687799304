//! Rows on what a moment sees of counts.
use super::histories::count_all;
use crate::inputs::number;
use event_counts::Counts;
use json_tree::Tree;
use row_tables::{Fault, Found, cut, parts};
use std::alloc::Global;

/// The entries above 0 of a list, each with its place before it, and how many entries there are. Row: events, then a moment,
/// a name and an interval.
pub(crate) fn find_entries(
    alloc: Global,
    counts: &mut Counts,
    input: &str,
    found: &mut Found,
) -> Result<(), Fault> {
    let (events, asked) = parts(input)?;
    let (now, asked) = cut(asked);
    count_all(alloc, counts, events)?;
    find_at(alloc, counts, now, asked, found)
}

/// How many names there are, and of each the keys of its lists with how many entries they have. Row: events, then a moment.
pub(crate) fn find_lists(
    alloc: Global,
    counts: &mut Counts,
    input: &str,
    found: &mut Found,
) -> Result<(), Fault> {
    let (events, now) = parts(input)?;
    count_all(alloc, counts, events)?;
    find_at(alloc, counts, now, "", found)
}

// What a moment sees of a name and an interval, or of all where none is asked for.
fn find_at(
    alloc: Global,
    counts: &Counts,
    now: &str,
    asked: &str,
    found: &mut Found,
) -> Result<(), Fault> {
    let view = counts.view(alloc, number(now)?)?;
    let outcome = add_seen(&view, asked, found);
    drop(view);
    outcome
}

fn add_seen(view: &Tree, asked: &str, found: &mut Found) -> Result<(), Fault> {
    if asked.is_empty() {
        return add_names(view, found);
    }
    let (name, interval) = cut(asked);
    match view.get(name) {
        Some(lists) => add_list(lists, interval, found),
        None => Ok(found.text("no such name")),
    }
}

fn add_list(lists: &Tree, interval: &str, found: &mut Found) -> Result<(), Fault> {
    match lists.get(interval) {
        Some(Tree::List(items)) => add_entries(items.as_slice(), found),
        _ => Err(Fault::NoRow),
    }
}

fn add_entries(entries: &[Tree], found: &mut Found) -> Result<(), Fault> {
    for (place, entry) in entries.iter().enumerate() {
        add_entry(place, entry, found)?;
    }
    found.text("of ");
    Ok(found.displayed(&entries.len()))
}

fn add_entry(place: usize, entry: &Tree, found: &mut Found) -> Result<(), Fault> {
    match entry {
        Tree::Whole(0) => Ok(()),
        Tree::Whole(count) => Ok(add_count(place, *count, found)),
        _ => Err(Fault::NoRow),
    }
}

fn add_count(place: usize, count: i64, found: &mut Found) {
    found.displayed(&place);
    found.text(":");
    found.displayed(&count);
    found.text(" ");
}

fn add_names(view: &Tree, found: &mut Found) -> Result<(), Fault> {
    let Tree::Object(names) = view else {
        return Err(Fault::NoRow);
    };
    found.displayed(&names.as_slice().len());
    found.text(" names");
    for (name, lists) in names.as_slice() {
        found.texts(&[", ", name.as_str()]);
        add_lengths(lists, found)?;
    }
    Ok(())
}

fn add_lengths(lists: &Tree, found: &mut Found) -> Result<(), Fault> {
    let Tree::Object(lists) = lists else {
        return Err(Fault::NoRow);
    };
    for (interval, list) in lists.as_slice() {
        add_length(interval.as_str(), list, found)?;
    }
    Ok(())
}

fn add_length(interval: &str, list: &Tree, found: &mut Found) -> Result<(), Fault> {
    match list {
        Tree::List(items) => Ok(add_key_and_length(interval, items.as_slice().len(), found)),
        _ => Err(Fault::NoRow),
    }
}

fn add_key_and_length(key: &str, length: usize, found: &mut Found) {
    found.texts(&[" ", key, " "]);
    found.displayed(&length);
}
