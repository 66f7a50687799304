//! Rows of states, and bytes that are a state's or no state's.
ghost use Rattle.state_codec.specs.Sound.{IsSound};

use crate::batches::add_batch;
use enrol_states::State;
use row_tables::{Bytes, cut};
use sequences::Sequence;
use state_codec::{
    CodecFault, StoreRow, change_between, migration, needs_migration, read_state, rows_of,
    state_of, state_size, write_state,
};
use std::alloc::{AllocError, Global};
use uuid::Uuid;

/// The moment 1700000000 in eight bytes, for which `@` stands in a value.
const NOW_BYTES: &[u8] = b"\x00\x00\x00\x00\x65\x53\xf1\x00";

/// The moment of new states.
const NOW: u64 = 1_700_000_000;

/// The rows of lines, each a key, a space and a value, where those that begin with a prefix have become others:
/// `PREFIX => LINES`, in which ` | ` stands between two lines and which are none where nothing stands there, and ` ; ` between
/// two of these.
pub(crate) fn changed_rows(
    alloc: Global,
    lines: &[&str],
    changes: &str,
    answer: &mut Bytes,
) -> Vec<StoreRow> {
    let mut rows = Vec::new(alloc);
    for line in lines {
        match replacement(line, changes) {
            None => add_row(alloc, line, &mut rows, answer),
            Some(others) => add_rows(alloc, others, &mut rows, answer),
        }
    }
    rows
}

// What stands in place of a line, where something does.
fn replacement<'a>(line: &str, changes: &'a str) -> Option<&'a str> {
    for change in changes.split(" ; ") {
        let (prefix, others) = change.split_once(" => ").unwrap_or((change, ""));
        if !prefix.is_empty() && line.starts_with(prefix) {
            return Some(others);
        }
    }
    None
}

fn add_rows(alloc: Global, lines: &str, rows: &mut Vec<StoreRow>, answer: &mut Bytes) {
    for line in lines.split(" | ") {
        add_row(alloc, line, rows, answer);
    }
}

// Adds the row of a line, if it isn't empty.
fn add_row(alloc: Global, line: &str, rows: &mut Vec<StoreRow>, answer: &mut Bytes) {
    if line.is_empty() {
        return;
    }
    let (key, text) = cut(line);
    let key = Sequence::from_vec(Bytes::spelled(alloc, key).into_vec(answer));
    let value = Sequence::from_vec(value_of(alloc, text).into_vec(answer));
    if rows.push(StoreRow { key, value }).is_err() {
        answer.lack_memory();
    }
}

fn value_of(alloc: Global, text: &str) -> Bytes {
    let mut value = Bytes::new(alloc);
    add_value(text, &mut value);
    value
}

fn add_value(text: &str, value: &mut Bytes) {
    for (place, part) in text.split('@').enumerate() {
        add_value_part(place, part, value);
    }
}

// Adds what stands between two moments, behind the first of these, where there is one.
fn add_value_part(place: usize, part: &str, value: &mut Bytes) {
    if place > 0 {
        value.add(NOW_BYTES);
    }
    value.spell(part);
}

/// The batch of a clear and a put of each row.
pub(crate) fn batch_of_rows(alloc: Global, rows: &[StoreRow]) -> Bytes {
    let mut bytes = Bytes::new(alloc);
    bytes.add(&[0]);
    for row in rows {
        add_put(row.key.as_slice(), row.value.as_slice(), &mut bytes);
    }
    bytes
}

fn add_put(key: &[u8], value: &[u8], bytes: &mut Bytes) {
    let key_length = u16::try_from(key.len()).unwrap_or(u16::MAX);
    let value_length = u32::try_from(value.len()).unwrap_or(u32::MAX);
    bytes.add(&[1]);
    bytes.add(&key_length.to_be_bytes());
    bytes.add(key);
    bytes.add(&value_length.to_be_bytes());
    bytes.add(value);
}

fn add_fault(fault: CodecFault, answer: &mut Bytes) {
    match fault {
        CodecFault::NotAState => answer.text("NotAState"),
        CodecFault::OutOfMemory => answer.lack_memory(),
    }
}

fn add_state(is_same: bool, answer: &mut Bytes) {
    answer.text(if is_same { "state" } else { "another state" });
}

/// Adds what bytes are: `state`, where the state that they spell has this encoding and its size, or `NotAState`.
pub(crate) fn add_form_of(alloc: Global, bytes: &[u8], encoding: &[u8], answer: &mut Bytes) {
    match read_state(alloc, bytes) {
        Ok(state) => {
            add_encoded(alloc, &state, encoding, answer);
            drop(state);
        }
        Err(fault) => add_fault(fault, answer),
    }
}

fn add_encoded(alloc: Global, state: &State, encoding: &[u8], answer: &mut Bytes)
    requires { IsSound state.now }
{
    let mut again = Bytes::new(alloc);
    again.set(write_state(alloc, state));
    answer.needs(&again);
    let has_size = state_size(state) == encoding.len() as u128;
    add_state(has_size && again.as_slice() == encoding, answer);
}

/// What is asked of the state of rows.
#[derive(Clone, Copy)]
pub(crate) enum Question<'a> {
    /// Whether there is one: `state`, or `NotAState`.
    Form,
    /// Whether it has these rows: `state`, or `another state`.
    Rows(&'a [StoreRow]),
    /// The bytes of the batch from it to the state of these rows.
    Change(&'a [StoreRow]),
    /// The bytes of the batch that gives the rows their present form, or `none`, where they have it.
    Migration,
}

/// Adds what is asked of the state of rows, or `NotAState`.
pub(crate) fn answer_of_rows(
    alloc: Global,
    rows: &[StoreRow],
    question: Question<'_>,
    answer: &mut Bytes,
) {
    match state_of(alloc, rows) {
        Ok(state) => {
            add_answer(alloc, &state, needs_migration(rows), question, answer);
            drop(state);
        }
        Err(fault) => add_fault(fault, answer),
    }
}

fn add_answer(
    alloc: Global,
    state: &State,
    needs_migration: bool,
    question: Question<'_>,
    answer: &mut Bytes,
)
    requires { IsSound state.now }
{
    match question {
        Question::Form => add_state(true, answer),
        Question::Rows(rows) => add_same_rows(alloc, rows_of(alloc, state), rows, answer),
        Question::Change(rows) => add_change(alloc, state, rows, answer),
        Question::Migration if needs_migration => {
            add_batch(alloc, migration(alloc, state), answer)
        }
        Question::Migration => answer.text("none"),
    }
}

// Adds whether rows, where memory was found for them, have the same batch as others.
fn add_same_rows(
    alloc: Global,
    rows: Result<Sequence<StoreRow>, AllocError>,
    others: &[StoreRow],
    answer: &mut Bytes,
) {
    match rows {
        Ok(rows) => add_same_batch(alloc, rows.as_slice(), others, answer),
        Err(AllocError) => answer.lack_memory(),
    }
}

fn add_same_batch(alloc: Global, rows: &[StoreRow], others: &[StoreRow], answer: &mut Bytes) {
    let (batch, other) = (batch_of_rows(alloc, rows), batch_of_rows(alloc, others));
    answer.needs(&batch);
    answer.needs(&other);
    add_state(batch.as_slice() == other.as_slice(), answer);
}

fn add_change(alloc: Global, old: &State, rows: &[StoreRow], answer: &mut Bytes)
    requires { IsSound old.now }
{
    match state_of(alloc, rows) {
        Ok(new) => {
            add_batch(alloc, change_between(alloc, old, &new), answer);
            drop(new);
        }
        Err(fault) => add_fault(fault, answer),
    }
}

/// Adds the encoding of the state of a new store with this id, where the text is one.
#[tactic(auto, using(state_codec::proofs::Fresh::fresh_is_sound))]
pub(crate) fn add_fresh(alloc: Global, id: &str, answer: &mut Bytes) {
    let Ok(id) = Uuid::parse_str(id) else {
        return answer.text("no id");
    };
    let state = State::new(alloc, id, NOW);
    answer.set(write_state(alloc, &state));
    drop(state);
}
