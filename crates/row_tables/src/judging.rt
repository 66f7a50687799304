// The rows of a text, each judged by what is found of it.
use crate::fault::Fault;
use crate::found::Found;
use crate::line::Line;
use std::alloc::{AllocError, Global};
use std::str::from_utf8;

/// A row, without what is wanted of it.
#[derive(Clone, Copy)]
pub struct Question<'a> {
    pub kind: &'a str,
    pub given: &'a str,
    pub input: &'a [u8],
}

impl<'a> Question<'a> {
    /// The input as a text.
    pub fn text(self) -> Result<&'a str, Fault> {
        match from_utf8(self.input) {
            Ok(text) => Ok(text),
            Err(_) => Err(Fault::NoRow),
        }
    }
}

/// The kinds of rows that a program of tests has.
pub trait Kinds {
    /// Adds what is found of a row to nothing.
    fn find(&self, alloc: Global, row: Question<'_>, found: &mut Found) -> Result<(), Fault>;
}

/// Judges the rows of a text, and reports on them: a line for each table, one for each row that differs, and how many rows have
/// passed.
pub fn report_on<K: Kinds>(
    alloc: Global,
    kinds: &K,
    text: &str,
    report: &mut String,
) -> Result<(), AllocError> {
    let mut table = Table::new(alloc);
    judge_lines(alloc, kinds, text, &mut table, report)?;
    write!(report, "{} rows passed\n", table.passed)
}

fn judge_lines<K: Kinds>(
    alloc: Global,
    kinds: &K,
    text: &str,
    table: &mut Table,
    report: &mut String,
) -> Result<(), AllocError> {
    let mut input = Vec::new(alloc);
    let mut found = Found::new(alloc);
    for line in text.lines() {
        judge_line(alloc, kinds, line, table, &mut input, &mut found, report)?;
    }
    end(table, report)
}

// A table as far as it is read, and how many rows of those before it have passed.
#[derive(Drop)]
struct Table {
    kind: String,
    title: String,
    given: String,
    rows: u64,
    differing: u64,
    passed: u64,
}

impl Table {
    fn new(alloc: Global) -> Table {
        Table {
            kind: String::new(alloc),
            title: String::new(alloc),
            given: String::new(alloc),
            rows: 0,
            differing: 0,
            passed: 0,
        }
    }
}

// The input of the next row is as far as the lines before have written it.
fn judge_line<K: Kinds>(
    alloc: Global,
    kinds: &K,
    line: &str,
    table: &mut Table,
    input: &mut Vec<u8>,
    found: &mut Found,
    report: &mut String,
) -> Result<(), AllocError> {
    match Line::of(line) {
        Line::Nothing => Ok(()),
        Line::Table(kind, title) => {
            input.clear();
            end(table, report)?;
            begin(table, kind, title)
        }
        Line::Given(given) => set(&mut table.given, given),
        Line::Piece(piece) => piece.add_to(input),
        Line::Row(rest, wanted) => {
            input.extend_from_slice(rest.as_bytes())?;
            let passes = judge(alloc, kinds, table, input, wanted, found, report)?;
            count_row(table, passes);
            input.clear();
            Ok(())
        }
        Line::Other => {
            count_row(table, false);
            write!(report, "{}: no row: {line}\n", table.title)
        }
    }
}

// Reports on the table, where there is one.
fn end(table: &mut Table, report: &mut String) -> Result<(), AllocError> {
    table.passed = table.passed.saturating_add(table.rows);
    match table.differing {
        _ if table.title.is_empty() => Ok(()),
        0 => write!(report, "{}: {} rows passed\n", table.title, table.rows),
        differing => write!(report, "{}: {differing} rows differ\n", table.title),
    }
}

fn begin(table: &mut Table, kind: &str, title: &str) -> Result<(), AllocError> {
    table.given.clear();
    table.rows = 0;
    table.differing = 0;
    set(&mut table.kind, kind)?;
    set(&mut table.title, title)
}

fn set(there: &mut String, text: &str) -> Result<(), AllocError> {
    there.clear();
    there.push_str(text)
}

fn count_row(table: &mut Table, passes: bool) {
    if passes {
        table.rows = table.rows.saturating_add(1);
    } else {
        table.differing = table.differing.saturating_add(1);
    }
}

// Whether what is found of a row of this input is what is wanted. Else it is reported.
fn judge<'a, K: Kinds>(
    alloc: Global,
    kinds: &K,
    table: &'a Table,
    input: &'a [u8],
    wanted: &str,
    found: &mut Found,
    report: &mut String,
) -> Result<bool, AllocError> {
    found.clear();
    let row = Question {
        kind: table.kind.as_str(),
        given: table.given.as_str(),
        input,
    };
    match kinds.find(alloc, row, found) {
        Ok(()) if !found.is_whole() => differs(table, input, wanted, "no memory", report),
        Ok(()) if found.as_str() == wanted => Ok(true),
        Ok(()) => differs(table, input, wanted, found.as_str(), report),
        Err(Fault::NoRow) => differs(table, input, wanted, "no row of its kind", report),
        Err(Fault::OutOfMemory) => differs(table, input, wanted, "no memory", report),
    }
}

fn differs(
    table: &Table,
    input: &[u8],
    wanted: &str,
    found: &str,
    report: &mut String,
) -> Result<bool, AllocError> {
    let input = input.escape_ascii();
    write!(
        report,
        "{}: found {found}, wanted {wanted}, at {input}\n",
        table.title
    )?;
    Ok(false)
}
