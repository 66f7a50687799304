//! What is found where something is wanted.
use crate::scenario::Scenario;
use crate::states::{
    Question, add_form_of, add_fresh, answer_of_rows, batch_of_rows, changed_rows,
};
use crate::stores::{Stores, open_over};
use host_model::Choice;
use row_tables::{Alteration, Bytes, Sides, Words};
use state_codec::StoreRow;
use std::alloc::Global;

/// Whether it is as a line wants it. Else it adds what is found.
pub(crate) fn judge(
    alloc: Global,
    scenario: &Scenario<'_>,
    word: &str,
    words: &mut Words<'_>,
    found: &mut Bytes,
) -> bool {
    let host = scenario.last_host();
    match word {
        "gives" => found.add_all(&scenario.answer),
        "wrote" => found.shown(&host.written()),
        "ends" => found.shown(&host.end()),
        "said" => found.add(host.said()),
        "old" => host.set_image(alloc, words.side(), Choice::Old, found),
        "new" => host.set_image(alloc, words.side(), Choice::New, found),
        "torn" => host.set_image(alloc, words.side(), Choice::Torn, found),
        "leaves" => return judge_images(alloc, scenario, words, found),
        "cut" | "byte" => return judge_altered(alloc, scenario, word, words, found),
        _ => return judge_state(alloc, &scenario.rows, word, words, found),
    }
    found.are(words.rest())
}

// Whether each pair of images opens so.
fn judge_images(
    alloc: Global,
    scenario: &Scenario<'_>,
    words: &mut Words<'_>,
    found: &mut Bytes,
) -> bool {
    let (left, right) = (words.choices(), words.choices());
    let mut all = true;
    for of_left in left {
        for of_right in right {
            all = all && judge_image(alloc, scenario, *of_left, *of_right, words.rest(), found);
        }
    }
    all
}

fn judge_image(
    alloc: Global,
    scenario: &Scenario<'_>,
    left: Choice,
    right: Choice,
    wanted: &str,
    found: &mut Bytes,
) -> bool {
    let sides = Sides::of(alloc, scenario.last_host(), left, right);
    judge_opening(alloc, scenario, &sides, wanted, found)
}

// Whether sides open so.
fn judge_opening(
    alloc: Global,
    scenario: &Scenario<'_>,
    sides: &Sides,
    wanted: &str,
    found: &mut Bytes,
) -> bool {
    let mut stores = Stores::new();
    found.clear();
    open_over(
        alloc,
        sides,
        scenario.room,
        scenario.opening,
        &mut stores,
        found,
    );
    found.are(wanted)
}

// Whether the sides, one of which is altered, open so, for each number of a range. Else it adds the first number at which they
// don't.
fn judge_altered(
    alloc: Global,
    scenario: &Scenario<'_>,
    word: &str,
    words: &mut Words<'_>,
    found: &mut Bytes,
) -> bool {
    let (side, (first, last)) = (words.side(), words.range());
    let byte = if word == "byte" {
        Some(words.byte())
    } else {
        None
    };
    for number in first..=last {
        let alteration = Alteration { side, number, byte };
        if !judge_altered_at(alloc, scenario, alteration, words.rest(), found) {
            return false;
        }
    }
    true
}

fn judge_altered_at(
    alloc: Global,
    scenario: &Scenario<'_>,
    alteration: Alteration,
    wanted: &str,
    found: &mut Bytes,
) -> bool {
    let mut sides = Sides::of(alloc, scenario.last_host(), Choice::New, Choice::New);
    sides.alter(alteration);
    if judge_opening(alloc, scenario, &sides, wanted, found) {
        return true;
    }
    found.text(" at ");
    found.shown(&alteration.number);
    false
}

// Whether the rows of a state are as a line wants it.
fn judge_state(
    alloc: Global,
    lines: &[&str],
    word: &str,
    words: &mut Words<'_>,
    found: &mut Bytes,
) -> bool {
    match word {
        "state" | "none" | "former" => {
            find_forms(alloc, lines, word, words.rest(), found);
            found.are(if word == "none" {
                "NotAState NotAState"
            } else {
                "state state"
            })
        }
        "altered" | "shortened" | "lengthened" => {
            find_damaged(alloc, lines, word, words, found);
            found.are("NotAState")
        }
        "fresh" => {
            find_fresh(alloc, lines, words.word(), found);
            found.are(words.rest())
        }
        _ => {
            words.refuse();
            false
        }
    }
}

// Adds what the batch of the changed rows is, and what the rows are.
fn find_forms(alloc: Global, lines: &[&str], word: &str, changes: &str, found: &mut Bytes) {
    let rows = changed_rows(alloc, lines, changes, found);
    match word {
        "former" => find_former(alloc, lines, &rows, found),
        _ => add_forms(alloc, &rows, &rows, found),
    }
}

// The state of the rows has the rows of the lines as they are.
fn find_former(alloc: Global, lines: &[&str], rows: &[StoreRow], found: &mut Bytes) {
    let present = changed_rows(alloc, lines, "", found);
    add_forms(alloc, rows, &present, found);
}

fn add_forms(alloc: Global, rows: &[StoreRow], present: &[StoreRow], found: &mut Bytes) {
    let bytes = batch_of_rows(alloc, rows);
    found.needs(&bytes);
    add_form_of_batch(alloc, bytes.as_slice(), present, found);
    found.text(" ");
    answer_of_rows(alloc, rows, Question::Rows(present), found);
}

fn add_form_of_batch(alloc: Global, bytes: &[u8], present: &[StoreRow], found: &mut Bytes) {
    let encoding = batch_of_rows(alloc, present);
    found.needs(&encoding);
    add_form_of(alloc, bytes, encoding.as_slice(), found);
}

// Adds what the rows' batch is to which this was done.
fn find_damaged(
    alloc: Global,
    lines: &[&str],
    word: &str,
    words: &mut Words<'_>,
    found: &mut Bytes,
) {
    let rows = changed_rows(alloc, lines, "", found);
    let mut bytes = batch_of_rows(alloc, &rows);
    damage(&mut bytes, word, words);
    found.needs(&bytes);
    add_form_of(alloc, bytes.as_slice(), bytes.as_slice(), found);
}

fn damage(bytes: &mut Bytes, word: &str, words: &mut Words<'_>) {
    match word {
        "altered" => bytes.put(words.count(), words.byte()),
        "shortened" => bytes.cut(words.count()),
        _ => bytes.spell(words.rest()),
    }
}

// Adds how many bytes the rows' batch has, if it is that of a new store with this id.
fn find_fresh(alloc: Global, lines: &[&str], id: &str, found: &mut Bytes) {
    let rows = changed_rows(alloc, lines, "", found);
    let bytes = batch_of_rows(alloc, &rows);
    found.needs(&bytes);
    add_fresh(alloc, id, found);
    if found.as_slice() == bytes.as_slice() {
        found.clear();
        found.shown(&bytes.as_slice().len());
    }
}
