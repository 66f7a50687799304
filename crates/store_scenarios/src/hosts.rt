//! Calls on hosts.
use host_model::{DiskFailed, Host};
use row_tables::{Bytes, CountingHost, Words};
use std::alloc::Global;

/// Makes the call on a host that a line names, and adds its answer.
pub(crate) fn call_host(
    alloc: Global,
    host: &mut CountingHost,
    words: &mut Words<'_>,
    answer: &mut Bytes,
) {
    match words.word() {
        "length" => add_length(host.len(words.side()), answer),
        "read" => read(alloc, host, words, answer),
        "write" => write(alloc, host, words, answer),
        "sync" => answer.done(host.sync(words.side()).is_ok()),
        "say" => say(alloc, host, words.rest(), answer),
        _ => words.refuse(),
    }
}

fn add_length(length: Result<u64, DiskFailed>, answer: &mut Bytes) {
    match length {
        Ok(length) => answer.shown(&length),
        Err(DiskFailed) => answer.done(false),
    }
}

fn read(alloc: Global, host: &mut CountingHost, words: &mut Words<'_>, answer: &mut Bytes) {
    let (side, at, room) = (words.side(), words.number(), words.count());
    let mut piece = Bytes::new(alloc);
    piece.fill(b'-', room.min(64));
    let placed = host.read(side, at, piece.as_mut_slice()).ok();
    add_read(placed, &piece, answer);
}

/// Adds how many bytes a read has placed, and the whole piece.
pub(crate) fn add_read(placed: Option<usize>, piece: &Bytes, answer: &mut Bytes) {
    match placed {
        Some(count) => answer.shown(&count),
        None => answer.done(false),
    }
    answer.text(" ");
    answer.add_all(piece);
}

fn write(alloc: Global, host: &mut CountingHost, words: &mut Words<'_>, answer: &mut Bytes) {
    let (side, at) = (words.side(), words.number());
    let bytes = Bytes::spelled(alloc, words.rest());
    answer.needs(&bytes);
    answer.done(host.write_at(side, at, bytes.as_slice()).is_ok());
}

fn say(alloc: Global, host: &mut CountingHost, text: &str, answer: &mut Bytes) {
    let bytes = Bytes::spelled(alloc, text);
    answer.needs(&bytes);
    answer.done(host.say(bytes.as_slice()).is_ok());
}
