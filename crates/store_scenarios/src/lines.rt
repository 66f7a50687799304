//! The scenarios of a text, line by line, and what is told of them.
//!
//! BYTES are text in which a backslash and two hexadecimal digits are one byte. A PAYLOAD is BYTES, or `COUNT*BYTES`, which are so
//! many times these bytes. CHANGES are `clear`, `put KEY PAYLOAD` and `delete KEY`, with a comma and a space between them.
//!
//! | Line | Meaning |
//! |---|---|
//! | an empty one, or one that begins with `#` | nothing |
//! | `== NAME` | a scenario begins, and what stands before the first one isn't read: both sides are empty with room for 4,096 bytes, and no store is there |
//! | `room COUNT` | both sides are empty and have room for so many bytes |
//! | `endless` | the host keeps nothing that is written, and no write or sync fails |
//! | `left BYTES`, `right BYTES` | a side has these bytes; both are synced |
//! | `anew` | both sides are synced, and the host has all its room again |
//! | `fails CALL` | the host's call of this number from here on fails; both sides are synced |
//! | `stop CALL CALLED` | on a copy of the sides the store is opened, and then the call `CALLED` is made, in which the host's call of this number fails; what follows on images is about this copy, up to the next call |
//! | `host length SIDE`, `host read SIDE PLACE COUNT`, `host write SIDE PLACE BYTES`, `host sync SIDE`, `host say BYTES` | a call on the host |
//! | `source PIECE CALL BYTES`, `pull COUNT` | a source that gives so many bytes at once and fails at this call; a read of it |
//! | `shelf CALL`, `file NAME BYTES`, `take NAME` | a shelf that fails at this call; a file of it; a call on it |
//! | `journal make SIDE GENERATION PAYLOAD`, `journal open SIDE`, `journal append PAYLOAD`, `journal close SIDE`, `journal generation`, `journal end PAYLOAD` | a call on a journal; an opening answers with the generation and the payloads |
//! | `pair make PAYLOAD`, `pair open`, `pair append PAYLOAD`, `pair checkpoint PAYLOAD`, `pair wants PAYLOAD` | a call on a pair; an opening answers `has` and the payloads |
//! | `rows make CHANGES`, `rows open`, `rows prepare CHANGES`, `rows commit CHANGES`, `rows get KEY`, `rows all` | a call on a row store; an opening answers with the rows, and a commit begins with `prepare` |
//! | `rows state` | an opening of a row store that answers `state` where the rows are a state's, and `NotAState` where they are none |
//! | `batch BYTES` | the batch of the bytes answers with its bytes |
//! | `migration PREFIX => ROWS` | the batch that gives the rows, with these in place of those that begin so, their present form answers with its bytes, or `none` where they have it |
//! | `change PREFIX => ROWS` | the batch from the state of the rows to that of the rows with these in place of those that begin so answers with its bytes |
//! | `gives BYTES` | the last call has answered this |
//! | `wrote COUNT` | the last call has written so many bytes |
//! | `ends PLACE` | the furthest byte that the last call has written stands before this place |
//! | `old SIDE BYTES`, `new SIDE BYTES`, `torn SIDE BYTES` | a crash may leave this: what was synced, what reads give, and this with 255 for each byte that was written since |
//! | `leaves LEFT RIGHT BYTES` | where a crash leaves these images (`old`, `new`, `torn`, or each of them by `any`), an opening of the layer that was called last answers this |
//! | `cut SIDE FIRST..LAST BYTES` | where the side has so many bytes only, from the first number to the last, an opening of the layer that was called last answers this |
//! | `byte SIDE FIRST..LAST BYTE BYTES` | where this byte stands in one place of the side, from the first place to the last, such an opening answers this |
//! | `said BYTES` | the host has said this |
//! | `row KEY VALUE` | the next row of a state; in its value `@` is the moment 1700000000 in eight bytes |
//! | `no rows` | the state has no rows yet |
//! | `state PREFIX => ROWS` | the rows, with these in place of those that begin so, are a state's, and so is their batch; between two rows ` \| ` stands, and between two prefixes with their rows ` ; ` |
//! | `former PREFIX => ROWS` | they are the old form of the state of the rows, and so is their batch |
//! | `none PREFIX => ROWS` | they are no state's |
//! | `altered PLACE BYTE` | the rows' batch with another byte at a place is no state's |
//! | `shortened COUNT` | the first so many bytes of the rows' batch are no state's |
//! | `lengthened BYTES` | the rows' batch with these bytes behind it is no state's |
//! | `fresh ID COUNT` | the rows' batch has so many bytes, and is that of a new store with this id |
use crate::scenario::{Scenario, play};
use row_tables::{Bytes, Found, Words};
use std::alloc::Global;

/// Plays the scenarios of a text, and tells of each that it passes, or what is found where something else is wanted.
pub(crate) fn tell_all(alloc: Global, text: &str, report: &mut Found) {
    let (_, scenarios) = text.split_once("== ").unwrap_or(("", ""));
    for scenario in scenarios.split("\n== ") {
        let (name, lines) = scenario.split_once('\n').unwrap_or((scenario, ""));
        tell(alloc, name, lines, report);
    }
}

fn tell(alloc: Global, name: &str, lines: &str, report: &mut Found) {
    match Scenario::new(alloc) {
        Ok(mut scenario) => play_lines(alloc, &mut scenario, name, lines, report),
        Err(_) => report.lack_memory(),
    }
}

fn play_lines<'a>(
    alloc: Global,
    scenario: &mut Scenario<'a>,
    name: &str,
    lines: &'a str,
    report: &mut Found,
) {
    let mut passes = true;
    for line in lines.lines() {
        passes = play_line(alloc, scenario, name, line, report) && passes;
    }
    if passes {
        report.texts(&[name, ": passed\n"]);
    }
}

// Does what a line says, and tells where it isn't as it is wanted.
fn play_line<'a>(
    alloc: Global,
    scenario: &mut Scenario<'a>,
    name: &str,
    line: &'a str,
    report: &mut Found,
) -> bool {
    if line.is_empty() || line.starts_with('#') {
        return true;
    }
    let mut words = Words::new(line);
    let mut found = Bytes::new(alloc);
    let is_as_wanted = play(alloc, scenario, &mut words, &mut found);
    let has_memory = found.are_whole() && scenario.answer.are_whole();
    let passes = is_as_wanted && has_memory && words.are_known();
    if !passes {
        report.texts(&[name, ": ", line, ": found "]);
        tell_found(words.are_known(), has_memory, &found, report);
    }
    passes
}

fn tell_found(is_known: bool, has_memory: bool, found: &Bytes, report: &mut Found) {
    match (is_known, has_memory) {
        (false, _) => report.text("no line of a scenario"),
        (_, false) => report.text("no memory"),
        _ => report.bytes(found.as_slice()),
    }
    report.text("\n");
}
