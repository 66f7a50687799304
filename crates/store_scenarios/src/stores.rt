//! Calls on journals, on pairs and on row stores.
use crate::hosts::call_host;
use crate::row_stores::call_rows;
use gate_journal::{AppendFault, Frame, FrameFault, Journal, Payloads};
use host_model::Side;
use pair_store::{MAX_WHOLE, PairStore};
use row_store::RowStore;
use row_tables::{Bytes, CountingHost, Sides, Words, cut};
use std::alloc::{AllocError, Global};

/// The journal, the pair and the row store of a scenario, where it has them.
#[derive(Drop)]
pub(crate) struct Stores {
    journal: Option<Journal>,
    pair: Option<PairStore>,
    rows: Option<RowStore>,
}

impl Stores {
    /// None is there.
    pub(crate) fn new() -> Stores {
        Stores {
            journal: None,
            pair: None,
            rows: None,
        }
    }
}

/// The call that opens the layer on which a call is made, or the other one, where it is made on a host.
pub(crate) fn opening_of(layer: &str, call: &str, other: &'static str) -> &'static str {
    match layer {
        "journal" => "journal open left",
        "pair" => "pair open",
        "rows" if call == "state" => "rows state",
        "rows" => "rows open",
        _ => other,
    }
}

/// Makes an opening of what stands on sides, and adds its answer.
pub(crate) fn open_over(
    alloc: Global,
    sides: &Sides,
    room: usize,
    opening: &str,
    stores: &mut Stores,
    answer: &mut Bytes,
) {
    let (layer, call) = cut(opening);
    match sides.host(alloc, room, 0) {
        Ok(mut host) => {
            call_store(
                alloc,
                stores,
                &mut host,
                layer,
                &mut Words::new(call),
                answer,
            );
        }
        Err(AllocError) => answer.lack_memory(),
    }
}

/// Makes the call on a layer that a line names, and adds its answer.
pub(crate) fn call_store(
    alloc: Global,
    stores: &mut Stores,
    host: &mut CountingHost,
    layer: &str,
    words: &mut Words<'_>,
    answer: &mut Bytes,
) {
    match layer {
        "host" => call_host(alloc, host, words, answer),
        "journal" => call_journal(alloc, &mut stores.journal, host, words, answer),
        "pair" => call_pair(alloc, &mut stores.pair, host, words, answer),
        "rows" => call_rows(alloc, &mut stores.rows, host, words, answer),
        _ => words.refuse(),
    }
}

// The frame of a payload, or `None` after the reason was added.
fn frame_of(alloc: Global, payload: &str, answer: &mut Bytes) -> Option<Frame> {
    let payload = Bytes::payload(alloc, payload);
    answer.needs(&payload);
    match Frame::new(alloc, payload.as_slice()) {
        Ok(frame) => Some(frame),
        Err(FrameFault::TooLong) => {
            answer.text("TooLong");
            None
        }
        Err(FrameFault::OutOfMemory) => {
            answer.lack_memory();
            None
        }
    }
}

fn call_journal(
    alloc: Global,
    journal: &mut Option<Journal>,
    host: &mut CountingHost,
    words: &mut Words<'_>,
    answer: &mut Bytes,
) {
    match words.word() {
        "make" => make_journal(alloc, journal, host, words, answer),
        "open" => open_journal(alloc, journal, host, words.side(), answer),
        "close" => answer.done(Journal::close(host, words.side()).is_ok()),
        word => match journal {
            Some(journal) => call_open_journal(alloc, journal, host, word, words, answer),
            None => answer.text("no journal"),
        },
    }
}

fn make_journal(
    alloc: Global,
    journal: &mut Option<Journal>,
    host: &mut CountingHost,
    words: &mut Words<'_>,
    answer: &mut Bytes,
) {
    let (side, generation) = (words.side(), words.byte());
    match frame_of(alloc, words.rest(), answer) {
        Some(first) if generation <= 2 && first.bytes() <= MAX_WHOLE as u64 => {
            *journal = Journal::make(host, side, generation, &first).ok();
            answer.done(journal.is_some());
        }
        Some(_) => answer.text("no such making"),
        None => {}
    }
}

fn open_journal(
    alloc: Global,
    journal: &mut Option<Journal>,
    host: &mut CountingHost,
    side: Side,
    answer: &mut Bytes,
) {
    match Journal::open(alloc, host, side) {
        Ok((opened, payloads)) => {
            answer.shown(&opened.generation());
            add_payloads(&payloads, answer);
            *journal = Some(opened);
        }
        Err(fault) => answer.shown(&fault),
    }
}

fn call_open_journal(
    alloc: Global,
    journal: &mut Journal,
    host: &mut CountingHost,
    word: &str,
    words: &mut Words<'_>,
    answer: &mut Bytes,
) {
    match (word, frame_of(alloc, words.rest(), answer)) {
        ("append", Some(frame)) => add_appended(journal.append(host, &frame), answer),
        ("end", Some(frame)) => answer.shown(&journal.end_after(&frame)),
        ("generation", Some(_)) => answer.shown(&journal.generation()),
        (_, Some(_)) => words.refuse(),
        (_, None) => {}
    }
}

fn add_appended(appended: Result<(), AppendFault>, answer: &mut Bytes) {
    match appended {
        Err(AppendFault::SideFull) => answer.text("SideFull"),
        appended => answer.done(appended.is_ok()),
    }
}

fn call_pair(
    alloc: Global,
    pair: &mut Option<PairStore>,
    host: &mut CountingHost,
    words: &mut Words<'_>,
    answer: &mut Bytes,
) {
    match words.word() {
        "make" => make_pair(alloc, pair, host, words.rest(), answer),
        "open" => open_pair(alloc, pair, host, answer),
        word => match pair {
            Some(pair) => call_open_pair(alloc, pair, host, word, words, answer),
            None => answer.text("no pair"),
        },
    }
}

fn make_pair(
    alloc: Global,
    pair: &mut Option<PairStore>,
    host: &mut CountingHost,
    first: &str,
    answer: &mut Bytes,
) {
    match frame_of(alloc, first, answer) {
        Some(first) if first.bytes() <= MAX_WHOLE as u64 => {
            *pair = PairStore::make(host, &first).ok();
            answer.done(pair.is_some());
        }
        Some(_) => answer.text("TooLong"),
        None => {}
    }
}

fn open_pair(
    alloc: Global,
    pair: &mut Option<PairStore>,
    host: &mut CountingHost,
    answer: &mut Bytes,
) {
    match PairStore::open(alloc, host) {
        Ok((opened, payloads)) => {
            answer.text("has");
            add_payloads(&payloads, answer);
            *pair = Some(opened);
        }
        Err(fault) => answer.shown(&fault),
    }
}

fn call_open_pair(
    alloc: Global,
    pair: &mut PairStore,
    host: &mut CountingHost,
    word: &str,
    words: &mut Words<'_>,
    answer: &mut Bytes,
) {
    if let Some(frame) = frame_of(alloc, words.rest(), answer) {
        match word {
            "append" => append_to_pair(pair, host, &frame, answer),
            "checkpoint" => checkpoint_pair(pair, host, &frame, answer),
            "wants" if pair.wants_checkpoint(frame.bytes()) => answer.text("yes"),
            "wants" => answer.text("no"),
            _ => words.refuse(),
        }
    }
}

fn append_to_pair(
    pair: &mut PairStore,
    host: &mut CountingHost,
    frame: &Frame,
    answer: &mut Bytes,
) {
    if pair.wants_checkpoint(frame.bytes()) {
        answer.text("past the mark");
    } else {
        answer.done(pair.append(host, frame).is_ok());
    }
}

fn checkpoint_pair(
    pair: &mut PairStore,
    host: &mut CountingHost,
    frame: &Frame,
    answer: &mut Bytes,
) {
    if frame.bytes() > MAX_WHOLE as u64 {
        answer.text("TooLong");
    } else {
        answer.done(pair.checkpoint(host, frame).is_ok());
    }
}

// Adds the payloads, each behind a space.
fn add_payloads(payloads: &Payloads, answer: &mut Bytes) {
    for place in 0..payloads.len() {
        answer.text(" ");
        answer.add(payloads.get(place).unwrap_or(b""));
    }
}
