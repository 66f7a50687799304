//! Calls on row stores.
ghost use Rattle.std.specs.Prelude.{◌≡◌, ◌≤◌, length, IfSome, IsTrue};
ghost use Rattle.gate_journal.specs.declared.frame.TheConstants.{MAX_PAYLOAD};
ghost use Rattle.pair_store.specs.declared.mark.TheConstants.{MAX_WHOLE};
ghost use Rattle.row_batches.specs.Batch.{applied, batch_text, whole_of};
ghost use Rattle.row_store.specs.Ready.{IsReadyFor};

use crate::batches::{add_rows, read_batch};
use crate::states::{Question, answer_of_rows};
use gate_journal::MAX_PAYLOAD;
use pair_store::MAX_WHOLE;
use row_batches::Batch;
use row_store::{Ready, RowStore};
use row_tables::{Bytes, CountingHost, Words};
use std::alloc::{AllocError, Global};

/// Makes the call on a row store that a line names, and adds its answer.
pub(crate) fn call_rows(
    alloc: Global,
    rows: &mut Option<RowStore>,
    host: &mut CountingHost,
    words: &mut Words<'_>,
    answer: &mut Bytes,
) {
    match words.word() {
        "make" => make_rows(alloc, host, words.rest(), answer),
        "open" => open_rows(alloc, rows, host, "all", answer),
        "state" => open_rows(alloc, rows, host, "state", answer),
        word => match rows {
            Some(rows) => call_open_rows(alloc, rows, host, word, words, answer),
            None => answer.text("no rows"),
        },
    }
}

// Makes a row store of the puts behind a clear.
fn make_rows(alloc: Global, host: &mut CountingHost, changes: &str, answer: &mut Bytes) {
    match read_batch(alloc, changes, answer) {
        Some(whole) if whole.is_clear() && whole.size() <= MAX_WHOLE as u128 => {
            match RowStore::make(alloc, host, &whole) {
                Ok(()) => answer.done(true),
                Err(fault) => answer.shown(&fault),
            }
        }
        Some(_) => answer.text("no such making"),
        None => {}
    }
}

// Opens the rows, and adds all of them, or whether they are a state's.
fn open_rows(
    alloc: Global,
    rows: &mut Option<RowStore>,
    host: &mut CountingHost,
    asked: &str,
    answer: &mut Bytes,
) {
    match RowStore::open(alloc, host) {
        Ok(opened) => add_opened(alloc, rows.insert(opened), asked, answer),
        Err(fault) => answer.shown(&fault),
    }
}

fn add_opened(alloc: Global, rows: &mut RowStore, asked: &str, answer: &mut Bytes) {
    match asked {
        "state" => answer_of_rows(alloc, rows.rows(), Question::Form, answer),
        _ => add_rows(rows.rows(), answer),
    }
}

fn call_open_rows(
    alloc: Global,
    rows: &mut RowStore,
    host: &mut CountingHost,
    word: &str,
    words: &mut Words<'_>,
    answer: &mut Bytes,
) {
    match word {
        "prepare" => prepare(alloc, rows, words.rest(), answer),
        "commit" => commit(alloc, rows, host, words.rest(), answer),
        "get" => add_value(alloc, rows, words.rest(), answer),
        "all" => add_rows(rows.rows(), answer),
        _ => words.refuse(),
    }
}

// Adds the value under a key, or `none`.
fn add_value(alloc: Global, rows: &RowStore, key: &str, answer: &mut Bytes) {
    let key = Bytes::spelled(alloc, key);
    answer.needs(&key);
    answer.add(rows.get(key.as_slice()).unwrap_or(b"none"));
}

// Makes a batch ready, and lets it go.
fn prepare(alloc: Global, rows: &mut RowStore, changes: &str, answer: &mut Bytes) {
    if ready_in(alloc, rows, changes, answer).is_some() {
        answer.done(true);
    }
}

// Makes a batch ready, and commits it.
fn commit(
    alloc: Global,
    rows: &mut RowStore,
    host: &mut CountingHost,
    changes: &str,
    answer: &mut Bytes,
) {
    if let Some(ready) = ready_in(alloc, rows, changes, answer) {
        answer.done(rows.commit(host, ready).is_ok());
    }
}

// The batch of words made ready, or `None` after the reason was added.
fn ready_in(alloc: Global, rows: &mut RowStore, changes: &str, answer: &mut Bytes) -> Option<Ready>
    ensures { IfSome result (λ ready. IsReadyFor rows.new ready) }
{
    match read_batch(alloc, changes, answer) {
        Some(batch) => ready_of(alloc, rows, &batch, answer),
        None => None,
    }
}

fn ready_of(alloc: Global, rows: &mut RowStore, batch: &Batch, answer: &mut Bytes) -> Option<Ready>
    ensures { IfSome result (λ ready. IsReadyFor rows.new ready) }
{
    if !fits(alloc, rows, batch, answer) {
        answer.text("TooLong");
        return None;
    }
    let ready = rows.prepare(alloc, batch).ok();
    answer.text(if ready.is_some() { "" } else { "OutOfMemory" });
    ready
}

// Whether a batch and the whole of the rows behind it are short enough.
fn fits(alloc: Global, rows: &mut RowStore, batch: &Batch, answer: &mut Bytes) -> bool
    ensures same { rows.new ≡ rows.old }
    ensures size { IsTrue result → length (batch_text batch.now) ≤ MAX_PAYLOAD }
    ensures whole_size { IsTrue result → length (batch_text (whole_of (applied batch.now rows.old.rows))) ≤ MAX_WHOLE }
{
    match batch.whole_after(alloc, rows.rows()) {
        Ok(whole) => batch.size() <= MAX_PAYLOAD as u128 && whole.len() <= MAX_WHOLE,
        Err(AllocError) => {
            answer.lack_memory();
            false
        }
    }
}
