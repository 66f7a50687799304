//! Rows on lines, words, slugs, names, numbers and moments of plain text, from bytes.
use plain_text::{Slug, SlugFault, lines, read_moment, read_number, slug_of, words};
use row_tables::{Fault, Found, cut};
use std::alloc::Global;

/// Where the lines begin and end. Row: the bytes.
pub(crate) fn find_lines(alloc: Global, input: &[u8], found: &mut Found) -> Result<(), Fault> {
    let lines = lines(alloc, input)?;
    Ok(found.debugged(&lines.as_slice()))
}

/// Where the words begin and end. Row: the bytes of a line.
pub(crate) fn find_words(alloc: Global, input: &[u8], found: &mut Found) -> Result<(), Fault> {
    let words = words(alloc, input)?;
    Ok(found.debugged(&words.as_slice()))
}

/// The text of a slug and of its copy, or the place where the bytes fail to be one. Row: the bytes.
pub(crate) fn find_slug(alloc: Global, input: &[u8], found: &mut Found) -> Result<(), Fault> {
    match slug_of(alloc, input) {
        Ok(slug) => Ok(add_copy(&slug, found)),
        Err(SlugFault::BadSlug(place)) => Ok(add_bad(place, found)),
        Err(SlugFault::OutOfMemory) => Err(Fault::OutOfMemory),
    }
}

fn add_bad(place: usize, found: &mut Found) {
    found.text("BadSlug ");
    found.displayed(&place);
}

// Adds the text of the copy of a slug.
fn add_copy(slug: &Slug, found: &mut Found) {
    let Ok(copy) = slug.clone() else {
        return found.lack_memory();
    };
    found.text(if copy == *slug {
        copy.text()
    } else {
        "a copy differs"
    })
}

/// Whether the first of two slugs is below the second. Row: the slugs.
pub(crate) fn find_order(alloc: Global, input: &str, found: &mut Found) -> Result<(), Fault> {
    let (first, second) = cut(input);
    let first = slug_of(alloc, first.as_bytes());
    let second = slug_of(alloc, second.as_bytes());
    match (&first, &second) {
        (Ok(first), Ok(second)) => Ok(found.displayed(&(first < second))),
        _ => Err(Fault::NoRow),
    }
}

/// Adds the number that the bytes are read as.
pub(crate) fn add_number(input: &[u8], found: &mut Found) {
    match read_number(input) {
        Some(number) => found.displayed(&number),
        None => found.text("none"),
    }
}

/// Adds the moment that the bytes are read as.
pub(crate) fn add_moment(input: &[u8], found: &mut Found) {
    match read_moment(input) {
        Some(moment) => found.displayed(&moment),
        None => found.text("none"),
    }
}
