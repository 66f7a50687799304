//! Rows on drills, whose draws were worked out from the generator's rule, and on the summary of a state.
ghost use Rattle.std.specs.Prelude.{◌≤◌};

use crate::enrolment_rows::add_row;
use enrol_states::{Row, State};
use recipe_drill::{Drill, MAX_RECIPES, summary};
use row_tables::{Fault, Found, count, cut, number};
use sequences::SharedList;
use std::alloc::Global;
use std::str::from_utf8;

/// The length of the recipes of the drill from 7 on, and their last bytes. Row: the number of recipes and of bytes.
pub(crate) fn find_recipes(alloc: Global, input: &str, found: &mut Found) -> Result<(), Fault> {
    let (number, length) = cut(input);
    let length = count(length).ok_or(Fault::NoRow)?;
    let drill = drill(alloc, number)?;
    add_end(drill.recipes.as_slice(), length, found)
}

// The drill from 7 on with so many recipes.
fn drill(alloc: Global, recipes: &str) -> Result<Drill, Fault> {
    match number(recipes).and_then(|number| u32::try_from(number).ok()) {
        Some(count) if 1 <= count && count <= MAX_RECIPES => Ok(Drill::new(alloc, 7, count)?),
        _ => Err(Fault::NoRow),
    }
}

// Adds the number of bytes, and so many of the last ones.
fn add_end(bytes: &[u8], length: usize, found: &mut Found) -> Result<(), Fault> {
    found.displayed(&bytes.len());
    found.text(" ");
    match from_utf8(last(bytes, length)) {
        Ok(end) => Ok(found.text(end)),
        Err(_) => Err(Fault::NoRow),
    }
}

/// A part of the drill from 7 on with one recipe: of the manifest its length, its first bytes or its last ones. Row: the
/// name of the part, and of these the number of bytes.
pub(crate) fn find_part(alloc: Global, input: &str, found: &mut Found) -> Result<(), Fault> {
    let drill = drill(alloc, "1")?;
    add_part(&drill, input, found)
}

fn add_part(drill: &Drill, input: &str, found: &mut Found) -> Result<(), Fault> {
    let (part, length) = cut(input);
    match part {
        "id" => add_text(drill.id.as_str().as_bytes(), found),
        "script" => add_text(drill.script.as_slice(), found),
        "context" => add_text(drill.context.as_slice(), found),
        _ => add_part_of_manifest(drill.manifest.as_slice(), part, length, found),
    }
}

fn add_part_of_manifest(
    manifest: &[u8],
    part: &str,
    length: &str,
    found: &mut Found,
) -> Result<(), Fault> {
    match (part, count(length)) {
        ("length", _) => Ok(found.displayed(&manifest.len())),
        ("first", Some(length)) => add_text(first(manifest, length), found),
        ("last", Some(length)) => add_text(last(manifest, length), found),
        _ => Err(Fault::NoRow),
    }
}

// Adds the lines of these bytes in one.
fn add_text(bytes: &[u8], found: &mut Found) -> Result<(), Fault> {
    match from_utf8(bytes) {
        Ok(text) => Ok(add_lines(text, found)),
        Err(_) => Err(Fault::NoRow),
    }
}

fn first(bytes: &[u8], length: usize) -> &[u8] {
    &bytes[..length.min(bytes.len())]
}

fn last(bytes: &[u8], length: usize) -> &[u8] {
    &bytes[bytes.len().saturating_sub(length)..]
}

/// The summary of a state of 20 rows. Row: a letter for each row, which begins the name of its status; `F` is an error.
pub(crate) fn find_summary(
    alloc: Global,
    state: &mut State,
    letters: &str,
    found: &mut Found,
) -> Result<(), Fault> {
    add_rows(alloc, letters, &mut state.rows)?;
    let summary = summary(alloc, u64::MAX, 20, state)?;
    Ok(add_lines(summary.as_str(), found))
}

// Adds a row for each letter.
fn add_rows(alloc: Global, letters: &str, rows: &mut SharedList<Row>) -> Result<(), Fault> {
    for letter in letters.as_bytes() {
        add_row(alloc, "drill-0000", status_text(*letter), rows)?;
    }
    Ok(())
}

fn status_text(letter: u8) -> &'static str {
    match letter {
        b'E' => "Enrolled treatment",
        b'N' => "NotEnrolled",
        b'D' => "Disqualified OptOut treatment",
        b'W' => "WasEnrolled treatment",
        _ => "Error",
    }
}

// Adds the lines of a text in one, with a bar between them.
fn add_lines(text: &str, found: &mut Found) {
    for line in text.lines() {
        add_line(line, found);
    }
}

fn add_line(line: &str, found: &mut Found) {
    found.between(" | ");
    found.text(line)
}
