//! Calls on sources and on shelves.
use crate::hosts::add_read;
use host_model::{MemShelf, MemSource, Shelf, ShelfAnswer, Source};
use row_tables::{Bytes, Words};
use std::alloc::Global;

/// The source and the shelf of a scenario, where it has them.
#[derive(Drop)]
pub(crate) struct Inputs {
    source: Option<MemSource>,
    shelf: Option<MemShelf>,
}

impl Inputs {
    /// None is there.
    pub(crate) fn new() -> Inputs {
        Inputs {
            source: None,
            shelf: None,
        }
    }
}

/// Makes the call on the source or the shelf that a line names, or makes one of them, and adds the answer.
pub(crate) fn call_inputs(
    alloc: Global,
    inputs: &mut Inputs,
    word: &str,
    words: &mut Words<'_>,
    answer: &mut Bytes,
) {
    match word {
        "source" => make_source(alloc, &mut inputs.source, words, answer),
        "shelf" => make_shelf(alloc, &mut inputs.shelf, words.number(), answer),
        "pull" => match &mut inputs.source {
            Some(source) => pull(alloc, source, words.count(), answer),
            None => words.refuse(),
        },
        _ => match &mut inputs.shelf {
            Some(shelf) => call_shelf(alloc, shelf, word, words, answer),
            None => words.refuse(),
        },
    }
}

fn make_source(
    alloc: Global,
    source: &mut Option<MemSource>,
    words: &mut Words<'_>,
    answer: &mut Bytes,
) {
    let (piece, failing) = (words.count().max(1), words.number());
    let bytes = Bytes::spelled(alloc, words.rest());
    answer.needs(&bytes);
    *source = MemSource::new(alloc, bytes.as_slice(), piece, &[failing]).ok();
    answer.done(source.is_some());
}

fn make_shelf(alloc: Global, shelf: &mut Option<MemShelf>, failing: u64, answer: &mut Bytes) {
    *shelf = MemShelf::new(alloc, &[failing]).ok();
    answer.done(shelf.is_some());
}

fn pull(alloc: Global, source: &mut MemSource, room: usize, answer: &mut Bytes) {
    let mut piece = Bytes::new(alloc);
    piece.fill(b'-', room.min(64));
    let placed = source.read(piece.as_mut_slice()).ok();
    add_read(placed, &piece, answer);
}

fn call_shelf(
    alloc: Global,
    shelf: &mut MemShelf,
    word: &str,
    words: &mut Words<'_>,
    answer: &mut Bytes,
) {
    match word {
        "file" => add_file(alloc, shelf, words, answer),
        _ => add_taken(shelf.take(alloc, words.rest()), answer),
    }
}

fn add_file(alloc: Global, shelf: &mut MemShelf, words: &mut Words<'_>, answer: &mut Bytes) {
    let name = words.word();
    let bytes = Bytes::spelled(alloc, words.rest());
    answer.needs(&bytes);
    answer.done(shelf.add(alloc, name, bytes.as_slice()).is_ok());
}

fn add_taken(taken: ShelfAnswer, answer: &mut Bytes) {
    match taken {
        ShelfAnswer::Bytes(file) => answer.add(file.as_slice()),
        ShelfAnswer::Absent => answer.text("Absent"),
        ShelfAnswer::TooLarge(_) => answer.text("TooLarge"),
        ShelfAnswer::Failed => answer.text("Failed"),
        ShelfAnswer::OutOfMemory => answer.text("OutOfMemory"),
    }
}
