//! The lines that stand behind a heading: a text, answers, and the records of a payload.
//!
//! | Line | Meaning |
//! |---|---|
//! | an empty one, or one that begins with `#` | nothing |
//! | `> TEXT` | the text goes on with this one and a line feed |
//! | `>> TEXT` | the text goes on with this one |
//! | `repeat COUNT TEXT` | the text goes on with this one, so many times |
//! | `byte NUMBER COUNT` | the text goes on with this byte, so many times |
//! | `lines COUNT TEXT` | the text goes on with so many lines, each of which is this one |
//! | `numbered COUNT TEXT` | the text goes on with so many lines, each of which is this one with its number from 0 on behind it |
//! | `hex DIGITS` | the text goes on with the bytes of these hexadecimal digits |
//! | `< TEXT` | this line is said next |
//! | `answers COUNT TEXT` | this line is said next, so many times |
//! | `tail TEXT` | this line is said, and what is said before the last such line isn't looked at |
//! | `any` | what is said from here on isn't looked at |
//! | `ends STATUS` | the call ends so, where it doesn't end with `Done` |
//! | `record SLUG FEATURE VALUE MEMBERS` | the next record, all of whose clients are in its branch `treatment`, which lays the value over the feature; the members, each with a comma before it, stand at its end |
//! | `records COUNT SLUG FEATURE` | so many such records, each with its number from 0 on behind its slug; the text behind this line is the value |
//! | `json TEXT` | the next record is this text |
use row_tables::{Bytes, Piece, Words};

#[derive(Clone, Copy)]
pub(crate) enum Part<'a> {
    Nothing,
    Piece(Piece<'a>),
    Lines(usize, &'a str),
    NumberedLines(usize, &'a str),
    Hex(&'a str),
    Answers(usize, &'a str),
    Tail(&'a str),
    Any,
    Ends(&'a str),
    Record(&'a str),
    Records(usize, &'a str),
    Json(&'a str),
}

impl<'a> Part<'a> {
    /// What the line says, or `None` where it is a heading or no line of a scenario.
    pub(crate) fn of(line: &'a str) -> Option<Part<'a>> {
        if line.is_empty() || line.starts_with('#') {
            return Some(Part::Nothing);
        }
        let mut words = Words::new(line);
        let part = Part::read(&mut words)?;
        if words.are_known() { Some(part) } else { None }
    }

    fn read(words: &mut Words<'a>) -> Option<Part<'a>> {
        Some(match words.word() {
            "lines" => Part::Lines(words.count(), words.rest()),
            "numbered" => Part::NumberedLines(words.count(), words.rest()),
            "hex" => Part::Hex(words.rest()),
            "<" => Part::Answers(1, words.rest()),
            "answers" => Part::Answers(words.count(), words.rest()),
            "tail" => Part::Tail(words.rest()),
            "any" => Part::Any,
            "ends" => Part::Ends(words.rest()),
            "record" => Part::Record(words.rest()),
            "records" => Part::Records(words.count(), words.rest()),
            "json" => Part::Json(words.rest()),
            word => Part::Piece(Piece::of(word, words.rest())?),
        })
    }

    /// Whether it is part of a text.
    pub(crate) fn is_text(self) -> bool {
        matches!(
            self,
            Part::Piece(_) | Part::Lines(_, _) | Part::NumberedLines(_, _) | Part::Hex(_)
        )
    }

    /// Whether it says what is said.
    pub(crate) fn is_answer(self) -> bool {
        matches!(self, Part::Answers(_, _) | Part::Tail(_) | Part::Any)
    }

    /// The line that is said, if it says one.
    pub(crate) fn answer(self) -> Option<&'a str> {
        match self {
            Part::Answers(_, answer) | Part::Tail(answer) => Some(answer),
            _ => None,
        }
    }

    /// Whether it is part of a payload alone.
    pub(crate) fn is_record(self) -> bool {
        matches!(self, Part::Record(_) | Part::Records(_, _) | Part::Json(_))
    }

    /// Adds it to a text, where it is part of one.
    pub(crate) fn add_to(self, text: &mut Bytes) {
        match self {
            Part::Piece(piece) => text.piece(piece),
            Part::Lines(count, line) => add_lines(count, line, text),
            Part::NumberedLines(count, line) => add_numbered_lines(count, line, text),
            Part::Hex(digits) => text.hex(digits),
            _ => {}
        }
    }
}

fn add_lines(count: usize, line: &str, text: &mut Bytes) {
    for _ in 0..count {
        text.texts(&[line, "\n"]);
    }
}

fn add_numbered_lines(count: usize, line: &str, text: &mut Bytes) {
    for number in 0..count {
        text.text(line);
        text.shown(&number);
        text.text("\n");
    }
}

/// Adds the text that the parts at the head of these lines make.
pub(crate) fn add_text(lines: &str, text: &mut Bytes) {
    for line in lines.lines() {
        match Part::of(line) {
            Some(part) => part.add_to(text),
            None => break,
        }
    }
}
