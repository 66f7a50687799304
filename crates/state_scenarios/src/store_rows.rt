//! Rows of a store and their changes in words. A row is `KEY=VALUE`, in which `\x` and two hexadecimal digits are one byte; or, for
//! a long value, `KEY LENGTH` and those of its bytes that aren't 0, each with its place before it. A comma stands between two.
use row_batches::{RowChange, StoreRow};
use row_tables::{Fault, Found, byte, count, cut};
use sequences::Sequence;
use std::alloc::{AllocError, Global};

// The longest value that is told in full, and the longest that is read by its length.
const MAX_TOLD: usize = 256;

const MAX_LEN: usize = 1_000;

/// Adds the rows of a text, which may be empty.
pub(crate) fn read_rows(alloc: Global, text: &str, rows: &mut Vec<StoreRow>) -> Result<(), Fault> {
    for row in text.split(", ") {
        read_row(alloc, row, rows)?;
    }
    Ok(())
}

fn read_row(alloc: Global, text: &str, rows: &mut Vec<StoreRow>) -> Result<(), Fault> {
    match text.split_once('=') {
        Some((key, value)) => read_short(alloc, key, value, rows),
        None if text.is_empty() => Ok(()),
        None => read_long(alloc, text, rows),
    }
}

fn read_short(
    alloc: Global,
    key: &str,
    value: &str,
    rows: &mut Vec<StoreRow>,
) -> Result<(), Fault> {
    let value = bytes_of(alloc, value)?;
    add_row_of(alloc, key, value, rows)
}

fn read_long(alloc: Global, text: &str, rows: &mut Vec<StoreRow>) -> Result<(), Fault> {
    let (key, rest) = cut(text);
    let (len, bytes) = cut(rest);
    let mut value = zeros(alloc, len)?;
    set_bytes(&mut value, bytes)?;
    add_row_of(alloc, key, value, rows)
}

fn zeros(alloc: Global, len: &str) -> Result<Vec<u8>, Fault> {
    match count(len) {
        Some(len) if len <= MAX_LEN => Ok(vec![in alloc; 0; len]?),
        _ => Err(Fault::NoRow),
    }
}

fn set_bytes(value: &mut [u8], bytes: &str) -> Result<(), Fault> {
    for text in bytes.split(' ') {
        set_byte(value, text)?;
    }
    Ok(())
}

// Sets a byte of a value. The text is its place and the byte, or nothing.
fn set_byte(value: &mut [u8], text: &str) -> Result<(), Fault> {
    if text.is_empty() {
        return Ok(());
    }
    let (place, number) = text.split_once(':').ok_or(Fault::NoRow)?;
    match (count(place), byte(number)) {
        (Some(place), Some(byte)) if place < value.len() => {
            value[place] = byte;
            Ok(())
        }
        _ => Err(Fault::NoRow),
    }
}

fn add_row_of(
    alloc: Global,
    key: &str,
    value: Vec<u8>,
    rows: &mut Vec<StoreRow>,
) -> Result<(), Fault> {
    let key = bytes_of(alloc, key)?;
    let row = StoreRow {
        key: Sequence::from_vec(key),
        value: Sequence::from_vec(value),
    };
    Ok(rows.push(row)?)
}

// The bytes that a text spells: `\x` and two hexadecimal digits are one byte, and each other byte is itself.
fn bytes_of(alloc: Global, text: &str) -> Result<Vec<u8>, AllocError> {
    let mut bytes = Vec::new(alloc);
    add_spelled(text, &mut bytes)?;
    Ok(bytes)
}

fn add_spelled(text: &str, bytes: &mut Vec<u8>) -> Result<(), AllocError> {
    for (place, part) in text.split("\\x").enumerate() {
        add_part(place, part.as_bytes(), bytes)?;
    }
    Ok(())
}

fn add_part(place: usize, part: &[u8], bytes: &mut Vec<u8>) -> Result<(), AllocError> {
    match part {
        [high, low, rest @ ..] if place > 0 => {
            bytes.push((digit(*high) << 4) | digit(*low))?;
            bytes.extend_from_slice(rest)
        }
        rest => bytes.extend_from_slice(rest),
    }
}

// What a hexadecimal digit is worth; 0 for any other byte.
fn digit(byte: u8) -> u8 {
    match byte {
        b'0'..=b'9' => byte - b'0',
        b'a'..=b'f' => byte - b'a' + 10,
        _ => 0,
    }
}

/// Adds how many rows there are where they are the same as those before, and else the rows.
pub(crate) fn add_rows_again(rows: &[StoreRow], before: &[StoreRow], found: &mut Found) {
    if are_same(rows, before) {
        found.displayed(&rows.len());
        return found.text(" kept");
    }
    add_rows(rows, found)
}

fn are_same(first: &[StoreRow], second: &[StoreRow]) -> bool {
    first.len() == second.len()
        && first.iter().zip(second).all(|(first, second)| first.key == second.key
            && first.value == second.value)
}

/// Adds the rows.
pub(crate) fn add_rows(rows: &[StoreRow], found: &mut Found) {
    for row in rows {
        found.between(", ");
        add_row(row, found);
    }
}

fn add_row(row: &StoreRow, found: &mut Found) {
    let value = row.value.as_slice();
    found.bytes(row.key.as_slice());
    if value.len() > MAX_TOLD {
        return add_long(value, found);
    }
    found.text("=");
    found.bytes(value)
}

fn add_long(value: &[u8], found: &mut Found) {
    found.text(" ");
    found.displayed(&value.len());
    for (place, byte) in value.iter().enumerate() {
        if *byte > 0 {
            add_byte(place, *byte, found);
        }
    }
}

fn add_byte(place: usize, byte: u8, found: &mut Found) {
    found.text(" ");
    found.displayed(&place);
    found.text(":");
    found.displayed(&byte);
}

/// Adds the changes as `put` and the row, or `delete` and the key.
pub(crate) fn add_changes(changes: &[RowChange], found: &mut Found) {
    for change in changes {
        found.between(", ");
        add_change(change, found);
    }
}

fn add_change(change: &RowChange, found: &mut Found) {
    match change {
        RowChange::Put(row) => {
            found.text("put ");
            add_row(row, found)
        }
        RowChange::Delete(key) => {
            found.text("delete ");
            found.bytes(key.as_slice())
        }
    }
}

/// Adds `none` where there are no changes, and how many bytes the puts of the new rows have.
pub(crate) fn add_size(size: u128, found: &mut Found) {
    found.none();
    found.text("; ");
    found.displayed(&size);
    found.text(" bytes");
}
