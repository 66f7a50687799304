//! Batches and rows in words.
use row_batches::{Batch, BatchFault, RowChange, StoreRow, batch_of};
use row_tables::{Bytes, cut};
use sequences::Sequence;
use std::alloc::{AllocError, Global};

/// The batch of words, or `None` after `no batch` was added, if they are none: `clear` first or not at all, and then, each behind
/// a comma and a space, `put KEY VALUE` and `delete KEY`, in the order of their keys.
pub(crate) fn read_batch(alloc: Global, text: &str, answer: &mut Bytes) -> Option<Batch> {
    let (first, rest) = text.split_once(", ").unwrap_or((text, ""));
    let is_clear = first == "clear";
    let mut batch = if is_clear {
        Batch::clear(alloc)
    } else {
        Batch::new(alloc)
    };
    if add_changes(
        alloc,
        &mut batch,
        if is_clear { rest } else { text },
        answer,
    ) {
        return Some(batch);
    }
    answer.text("no batch");
    None
}

// Adds changes to a batch; whether all may stand there.
fn add_changes(alloc: Global, batch: &mut Batch, text: &str, answer: &mut Bytes) -> bool {
    let mut all = true;
    for words in text.split(", ") {
        all = all && add_change(alloc, batch, words, answer);
    }
    all
}

// Adds a change to a batch, where one is there; whether it may stand there.
fn add_change(alloc: Global, batch: &mut Batch, words: &str, answer: &mut Bytes) -> bool {
    let (word, rest) = cut(words);
    let (key, value) = cut(rest);
    let key = Bytes::spelled(alloc, key).into_vec(answer);
    match word {
        "put" => {
            let value = Bytes::payload(alloc, value).into_vec(answer);
            add_put(batch, key, value, answer)
        }
        "delete" => add_delete(batch, key, answer),
        _ => words.is_empty(),
    }
}

fn add_put(batch: &mut Batch, key: Vec<u8>, value: Vec<u8>, answer: &mut Bytes) -> bool {
    if key.len() > 65_535 || value.len() > 16_777_216 || !batch.comes_next(&key) {
        return false;
    }
    let (key, value) = (Sequence::from_vec(key), Sequence::from_vec(value));
    if batch.push(RowChange::Put(StoreRow { key, value })).is_err() {
        answer.lack_memory();
    }
    true
}

fn add_delete(batch: &mut Batch, key: Vec<u8>, answer: &mut Bytes) -> bool {
    if key.len() > 65_535 || batch.is_clear() || !batch.comes_next(&key) {
        return false;
    }
    if batch
        .push(RowChange::Delete(Sequence::from_vec(key)))
        .is_err()
    {
        answer.lack_memory();
    }
    true
}

/// Adds rows as text: each key, `=` and a value, with a space before each but the first.
pub(crate) fn add_rows(rows: &[StoreRow], answer: &mut Bytes) {
    for (place, row) in rows.iter().enumerate() {
        answer.text(if place > 0 { " " } else { "" });
        answer.add(row.key.as_slice());
        answer.text("=");
        answer.add(row.value.as_slice());
    }
}

/// Adds the bytes of the batch that the bytes of a text are.
pub(crate) fn add_batch_again(alloc: Global, text: &str, answer: &mut Bytes) {
    let bytes = Bytes::spelled(alloc, text);
    answer.needs(&bytes);
    match batch_of(alloc, bytes.as_slice()) {
        Ok(batch) => answer.set(batch.bytes(alloc)),
        Err(fault) => answer.shown(&fault),
    }
}

/// Adds the bytes of a batch, where memory was found for it.
pub(crate) fn add_batch(alloc: Global, batch: Result<Batch, AllocError>, answer: &mut Bytes) {
    match batch {
        Ok(batch) => answer.set(batch.bytes(alloc)),
        Err(AllocError) => answer.lack_memory(),
    }
}
