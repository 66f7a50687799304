//! The headings of a theme.
//!
//! | Line | Meaning |
//! |---|---|
//! | `== NAME` | a scenario begins, over the usual store: `init 5a8f0b1e-7c3d-4e2a-9b6c-0123456789ab` was called at the moment 1700000000 over two empty sides; the files are those that stand before the first theme |
//!
//! What is written down. The text that parts make stands behind these lines:
//!
//! | Line | Meaning |
//! |---|---|
//! | `file NAME TEXT` | a file that begins with this text and goes on with that of the parts |
//! | `payload NAME` | a file that is a payload of the records that stand behind this line |
//!
//! What stands outside the program:
//!
//! | Line | Meaning |
//! |---|---|
//! | `empty` | both sides become empty |
//! | `at MOMENT` | calls from here on are made at this moment |
//! | `room COUNT` | calls from here on have room for so many bytes |
//! | `pieces COUNT` | the source gives at most so many bytes at once |
//! | `side SIDE DIGITS` | a side becomes the bytes of these hexadecimal digits and the text of the parts |
//! | `put SIDE PLACE BYTE` | a byte of a side becomes this one |
//! | `cut SIDE LENGTH` | a side loses what stands behind so many bytes |
//! | `fail CALLS NUMBER` | in the next call of the program the call with this number fails, among those of the `source`, the `shelf` or the `host`, or among the host's of one kind: `write`, `sync` or `say` |
//! | `stay` | the next call of the program finds the host that the last one has left, with the bytes that it hasn't synced |
//!
//! Calls. The script, the answers and the status stand behind these lines, each line of the script with its answers:
//!
//! | Line | Meaning |
//! |---|---|
//! | `run` | the program is called with the word `run` |
//! | `call WORDS` | the program is called with these words |
//! | `again WORDS` | the program is called with these words over the source that the last call has left |
//!
//! What is wanted, of the last call where none is named:
//!
//! | Line | Meaning |
//! |---|---|
//! | `exit NUMBER` | the number of its status is this one |
//! | `same` | it has said what the call before it has said |
//! | `sum NUMBER TEXT` | the numbers at the ends of the lines that it has said behind the last one that is this text have this sum |
//! | `unchanged` | the sides are as they were before it, and none of them was written |
//! | `grown` | the left side is longer than before it |
//! | `wrote COUNT` | it has written so many bytes |
//! | `holds LEFT RIGHT` | the sides have so many bytes |
//! | `bytes SIDE DIGITS` | the side has the bytes of these hexadecimal digits and the text of the parts |
//! | `images LEFT RIGHT` | a run over what a crash then leaves of the sides (`old`, `new` or `torn`, or each of these at `each`) is as the parts say |
//! | `faults CALLS COUNT WORDS` | the program, called with these words as the parts say, makes so many calls of the `source` or the `shelf`, or at most so many of the `host`; where one of them fails, for each of them in turn, it ends with the fault of this call, after the answers that it has said before, and the next `state` holds |
//! | `state COUNT` | from the answer with this number on, or from the start at 0, a run over what a crash leaves of the sides is as the parts say: where a call of the disk fails after so many answers it is as after them or as after one more, where a `say` fails it is as after one more, and else as after so many |
//! | `cuts SIDE FIRST LAST STATUS` | a run of no line ends so where a side has only so many bytes, for each number from the first to the last |
//! | `puts SIDE FIRST LAST BYTE STATUS` | a run of no line ends so where a byte of a side is this one, for each place from the first to the last |
use crate::checks::judge;
use crate::outside::Outside;
use crate::part::{Part, add_text};
use crate::shelf::add_file;
use crate::tally::{Place, Tally};
use crate::world::World;
use row_tables::{Sides, Words};

/// Whether a part may stand behind a heading that begins with this word.
pub(crate) fn takes(heading: &str, part: Part<'_>) -> bool {
    match (heading, part) {
        (_, Part::Nothing) => true,
        ("file" | "side" | "bytes", part) => part.is_text(),
        ("payload", part) => part.is_text() || part.is_record(),
        ("run" | "call" | "again" | "state" | "images" | "faults", part) => !part.is_record(),
        _ => false,
    }
}

/// Does what a heading says, or tells what differs from what it wants.
pub(crate) fn play<'a>(
    world: &mut World<'a>,
    tally: &mut Tally,
    place: Place<'a>,
    words: &mut Words<'a>,
) {
    let word = words.word();
    match word {
        "file" | "payload" => tally.needs(add_file(&mut world.files, place.line)),
        "empty" | "side" | "put" | "cut" => {
            change_sides(&mut world.sides, place, word, words);
        }
        "at" | "room" | "pieces" | "fail" | "stay" => {
            change_outside(&mut world.outside, word, words);
        }
        "run" => world.call(tally, place, place.line.text),
        "call" => world.call(tally, place, words.rest()),
        "again" => world.call_again(tally, place, words.rest()),
        "state" => {
            words.number();
        }
        _ => judge(world, tally, place, word, words),
    }
}

fn change_sides(sides: &mut Sides, place: Place<'_>, word: &str, words: &mut Words<'_>) {
    match word {
        "side" => {
            let bytes = sides.side(words.side());
            bytes.clear();
            bytes.hex(words.rest());
            add_text(place.line.behind, bytes);
        }
        "put" => sides.side(words.side()).put(words.count(), words.byte()),
        "cut" => sides.side(words.side()).cut(words.count()),
        _ => sides.clear(),
    }
}

fn change_outside(outside: &mut Outside, word: &str, words: &mut Words<'_>) {
    match word {
        "at" => outside.moment = words.number(),
        "room" => outside.room = words.count(),
        "pieces" => outside.piece = words.count(),
        "fail" => {
            let (calls, number) = (words.word(), words.number());
            outside.faults.add(calls, number, words);
        }
        _ => outside.stays = true,
    }
}
