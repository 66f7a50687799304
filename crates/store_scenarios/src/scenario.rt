//! A scenario as far as it is done.
use crate::batches::add_batch_again;
use crate::inputs::{Inputs, call_inputs};
use crate::judging::judge;
use crate::states::{Question, answer_of_rows, changed_rows};
use crate::stores::{Stores, call_store, open_over, opening_of};
use host_model::{Choice, Side};
use row_tables::{Bytes, CountingHost, HostFaults, Sides, Words};
use state_codec::StoreRow;
use std::alloc::{AllocError, Global};

/// How many bytes a side may have, unless a scenario says another number.
const ROOM: usize = 4096;

/// What the lines of a scenario have made so far.
#[derive(Drop)]
pub(crate) struct Scenario<'a> {
    host: CountingHost,
    /// How many bytes a side may have.
    pub(crate) room: usize,
    stores: Stores,
    inputs: Inputs,
    /// The host on which a call was stopped last, if no call followed it.
    stopped: Option<CountingHost>,
    /// The call that opens the layer that was called last.
    pub(crate) opening: &'static str,
    /// What the last call has answered. It is whole where memory was found for all that was done.
    pub(crate) answer: Bytes,
    /// The rows of a state.
    pub(crate) rows: Vec<&'a str>,
}

impl<'a> Scenario<'a> {
    /// Nothing is done.
    pub(crate) fn new(alloc: Global) -> Result<Scenario<'a>, AllocError> {
        Ok(Scenario {
            host: CountingHost::new(alloc, b"", b"", ROOM, 0)?,
            room: ROOM,
            stores: Stores::new(),
            inputs: Inputs::new(),
            stopped: None,
            opening: "rows open",
            answer: Bytes::new(alloc),
            rows: Vec::new(alloc),
        })
    }

    /// The host that was called last.
    pub(crate) fn last_host(&self) -> &CountingHost {
        self.stopped.as_ref().unwrap_or(&self.host)
    }
}

/// Does what a line says. Whether it is as it is wanted, where something is; else it adds what is found.
pub(crate) fn play<'a>(
    alloc: Global,
    scenario: &mut Scenario<'a>,
    words: &mut Words<'a>,
    found: &mut Bytes,
) -> bool {
    let word = words.word();
    match word {
        "host" | "journal" | "pair" | "rows" => call_last(alloc, scenario, word, words),
        "stop" => stop(alloc, scenario, words),
        "room" | "anew" | "fails" | "left" | "right" => change_host(alloc, scenario, word, words),
        "endless" => scenario.host.be_endless(),
        "row" => add_row(words.rest(), scenario),
        "no" => scenario.rows.clear(),
        "source" | "pull" | "shelf" | "file" | "take" | "batch" | "change" | "migration" => {
            give_answer(alloc, scenario, word, words);
        }
        _ => return judge(alloc, scenario, word, words, found),
    }
    true
}

fn add_row<'a>(line: &'a str, scenario: &mut Scenario<'a>) {
    if scenario.rows.push(line).is_err() {
        scenario.answer.lack_memory();
    }
}

fn call_last(alloc: Global, scenario: &mut Scenario<'_>, layer: &str, words: &mut Words<'_>) {
    scenario.stopped = None;
    scenario.opening = opening_of(layer, words.rest(), scenario.opening);
    scenario.host.count_anew(HostFaults::none());
    scenario.answer.clear();
    call_store(
        alloc,
        &mut scenario.stores,
        &mut scenario.host,
        layer,
        words,
        &mut scenario.answer,
    );
}

// Makes a call on a copy, where the host's call of this number fails.
fn stop(alloc: Global, scenario: &mut Scenario<'_>, words: &mut Words<'_>) {
    let (number, layer) = (words.number(), words.word());
    scenario.opening = opening_of(layer, words.rest(), scenario.opening);
    let sides = Sides::of(alloc, &scenario.host, Choice::New, Choice::New);
    scenario.stopped = sides.host(alloc, scenario.room, number).ok();
    stop_over(alloc, scenario, &sides, layer, words);
}

fn stop_over(
    alloc: Global,
    scenario: &mut Scenario<'_>,
    sides: &Sides,
    layer: &str,
    words: &mut Words<'_>,
) {
    let mut stores = Stores::new();
    let answer = &mut scenario.answer;
    open_over(
        alloc,
        sides,
        scenario.room,
        scenario.opening,
        &mut stores,
        answer,
    );
    answer.clear();
    match &mut scenario.stopped {
        Some(copy) => call_store(alloc, &mut stores, copy, layer, words, answer),
        None => answer.lack_memory(),
    }
}

fn change_host(alloc: Global, scenario: &mut Scenario<'_>, word: &str, words: &mut Words<'_>) {
    let mut sides = Sides::of(alloc, &scenario.host, Choice::New, Choice::New);
    let failing = change_sides(&mut sides, &mut scenario.room, word, words);
    scenario.stopped = None;
    match sides.host(alloc, scenario.room, failing) {
        Ok(host) => scenario.host = host,
        Err(AllocError) => scenario.answer.lack_memory(),
    }
}

// Changes the sides or their room; gives the number of the call that fails, or 0 where none does.
fn change_sides(sides: &mut Sides, room: &mut usize, word: &str, words: &mut Words<'_>) -> u64 {
    match word {
        "left" => write(sides.side(Side::Left), words.rest()),
        "right" => write(sides.side(Side::Right), words.rest()),
        "room" => {
            *room = words.count();
            sides.clear();
        }
        "fails" => return words.number(),
        _ => {}
    }
    0
}

// Makes bytes those that a text spells.
fn write(bytes: &mut Bytes, text: &str) {
    bytes.clear();
    bytes.spell(text);
}

// Gives the answer of a call on the inputs, a batch, a change or a migration.
fn give_answer(alloc: Global, scenario: &mut Scenario<'_>, word: &str, words: &mut Words<'_>) {
    scenario.answer.clear();
    let (lines, answer) = (scenario.rows.as_slice(), &mut scenario.answer);
    match word {
        "batch" => add_batch_again(alloc, words.rest(), answer),
        "change" => add_change(alloc, lines, words.rest(), answer),
        "migration" => add_migration(alloc, lines, words.rest(), answer),
        _ => call_inputs(alloc, &mut scenario.inputs, word, words, answer),
    }
}

fn add_change(alloc: Global, lines: &[&str], changes: &str, answer: &mut Bytes) {
    let new = changed_rows(alloc, lines, changes, answer);
    add_change_to(alloc, lines, &new, answer);
}

fn add_change_to(alloc: Global, lines: &[&str], new: &[StoreRow], answer: &mut Bytes) {
    let old = changed_rows(alloc, lines, "", answer);
    answer_of_rows(alloc, &old, Question::Change(new), answer);
}

fn add_migration(alloc: Global, lines: &[&str], changes: &str, answer: &mut Bytes) {
    let rows = changed_rows(alloc, lines, changes, answer);
    answer_of_rows(alloc, &rows, Question::Migration, answer);
}
