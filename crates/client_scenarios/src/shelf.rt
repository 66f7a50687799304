//! The files of scenarios.
use crate::line::Line;
use crate::part::{Part, add_text};
use host_model::MemShelf;
use row_tables::{Bytes, Words, cut};
use std::alloc::Global;

/// What stands before the records of a payload.
const PAYLOAD_HEAD: &str = "{\"data\":[";

/// What stands between the slug of a record and its branches.
const RECORD_MIDDLE: &str =
    "\",\"schemaVersion\":\"1.12.0\",\"appName\":\"fenix\",\"channel\":\"release\",\"isEnrollmentPaused\":false,\"isRollout\":false,\"bucketConfig\":{\"randomizationUnit\":\"nimbus_id\",\"namespace\":\"ns\",\"start\":0,\"count\":10000,\"total\":10000},\"branches\":[";

/// A file as a scenario writes it down.
#[derive(Clone, Copy)]
pub(crate) struct File<'a> {
    name: &'a str,
    /// The text with which it begins, or none where it is a payload.
    head: Option<&'a str>,
    /// The lines of its text or of its records.
    lines: &'a str,
}

impl<'a> File<'a> {
    /// The file that a line writes down, if it does.
    pub(crate) fn of(line: Line<'a>) -> Option<File<'a>> {
        let mut words = Words::new(line.text);
        let (name, head) = match words.word() {
            "file" => (words.word(), Some(words.rest())),
            "payload" => (words.rest(), None),
            _ => return None,
        };
        Some(File {
            name,
            head,
            lines: line.behind,
        })
    }
}

/// Adds the file that a line writes down, if it does. Whether memory is found for it.
pub(crate) fn add_file<'a>(files: &mut Vec<File<'a>>, line: Line<'a>) -> bool {
    match File::of(line) {
        Some(file) => files.push(file).is_ok(),
        None => true,
    }
}

/// Puts these files on a shelf. Of two files with one name the last counts. Whether memory is found for them.
pub(crate) fn put_files(alloc: Global, shelf: &mut MemShelf, files: &[File<'_>]) -> bool {
    let mut bytes = Bytes::new(alloc);
    let mut all = true;
    for file in files {
        all = all && put_file(alloc, shelf, *file, &mut bytes);
    }
    all
}

fn put_file(alloc: Global, shelf: &mut MemShelf, file: File<'_>, bytes: &mut Bytes) -> bool {
    bytes.clear();
    match file.head {
        Some(head) => {
            bytes.text(head);
            add_text(file.lines, bytes);
        }
        None => add_payload(alloc, file.lines, bytes),
    }
    bytes.are_whole() && shelf.add(alloc, file.name, bytes.as_slice()).is_ok()
}

// Adds the payload of the records at the head of these lines.
fn add_payload(alloc: Global, lines: &str, payload: &mut Bytes) {
    payload.text(PAYLOAD_HEAD);
    let mut line = Line::before(lines);
    for text in lines.lines() {
        line = line.next();
        match Part::of(text) {
            Some(part) => add_records(alloc, part, line.behind, payload),
            None => break,
        }
    }
    payload.text("]}");
}

// Adds the records of a line.
fn add_records(alloc: Global, part: Part<'_>, behind: &str, payload: &mut Bytes) {
    match part {
        Part::Json(text) => {
            add_comma(payload);
            payload.text(text);
        }
        Part::Record(words) => add_record(words, payload),
        Part::Records(count, words) => add_numbered_records(alloc, count, words, behind, payload),
        _ => {}
    }
}

// Adds what stands before a record, where one is there.
fn add_comma(payload: &mut Bytes) {
    let is_first = payload.as_slice().len() <= PAYLOAD_HEAD.len();
    payload.text(if is_first { "" } else { "," });
}

// A record whose members stand at its end. Of two members with one key the last counts, so these may stand for others.
fn add_record(words: &str, payload: &mut Bytes) {
    let (slug, rest) = cut(words);
    let (feature, rest) = cut(rest);
    let (value, members) = cut(rest);
    add_comma(payload);
    payload.texts(&["{\"slug\":\"", slug]);
    add_branches(feature, value.as_bytes(), payload);
    payload.texts(&["]", members, "}"]);
}

fn add_numbered_records(
    alloc: Global,
    count: usize,
    words: &str,
    behind: &str,
    payload: &mut Bytes,
) {
    let (slug, feature) = cut(words);
    let mut value = Bytes::new(alloc);
    add_value(behind, &mut value);
    for number in 0..count {
        add_comma(payload);
        add_numbered_record(slug, number, feature, value.as_slice(), payload);
    }
}

// Adds the text of the parts that stand directly behind a line.
fn add_value(behind: &str, value: &mut Bytes) {
    for line in behind.lines() {
        match Part::of(line) {
            Some(part) if part.is_text() => part.add_to(value),
            _ => break,
        }
    }
}

fn add_numbered_record(
    slug: &str,
    number: usize,
    feature: &str,
    value: &[u8],
    payload: &mut Bytes,
) {
    payload.texts(&["{\"slug\":\"", slug]);
    payload.shown(&number);
    add_branches(feature, value, payload);
    payload.text("]}");
}

// What stands behind the slug, up to the end of the two branches.
fn add_branches(feature: &str, value: &[u8], payload: &mut Bytes) {
    payload.text(RECORD_MIDDLE);
    add_branch("control", "0", feature, b"{}", payload);
    payload.text(",");
    add_branch("treatment", "1", feature, value, payload);
}

// A branch with this slug and this ratio, which lays this value over the feature.
fn add_branch(slug: &str, ratio: &str, feature: &str, value: &[u8], payload: &mut Bytes) {
    payload.texts(&["{\"slug\":\"", slug, "\",\"ratio\":", ratio]);
    payload.texts(&[",\"features\":[{\"featureId\":\"", feature, "\",\"value\":"]);
    payload.add(value);
    payload.text("}]}");
}
