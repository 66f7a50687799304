//! How a call ends and what it says, beside what is wanted.
use crate::line::Line;
use crate::part::Part;
use crate::tally::{Place, Tally};
use session_run::RunStatus;

/// The status with which a call is to end as the parts behind a line say.
pub(crate) fn status_of<'a>(line: Line<'a>) -> &'a str {
    for text in line.behind.lines() {
        match Part::of(text) {
            Some(Part::Ends(status)) => return status,
            Some(_) => {}
            None => break,
        }
    }
    "Done"
}

/// Tells where a call ends otherwise or says something else than the parts behind the line of a place want.
pub(crate) fn judge_call(tally: &mut Tally, place: Place<'_>, status: RunStatus, said: &[u8]) {
    tally.judge_status(place, status, status_of(place.line));
    judge_answers(tally, place, said, u64::MAX);
}

/// Tells where what was said first differs from the answers behind the line of a place, of which there are so many at
/// most. Those that follow one another directly are one answer.
pub(crate) fn judge_answers(tally: &mut Tally, place: Place<'_>, said: &[u8], most: u64) {
    let mut reading = Reading {
        left: said,
        line: place.line,
        answers: 0,
        follows: false,
    };
    match reading.missing(most) {
        Some(wanted) => tally.differ(place.at(reading.line), reading.found(), wanted.as_bytes()),
        None if reading.left.is_empty() => {}
        None => tally.differ(place.at(reading.line), reading.found(), b"no more"),
    }
}

/// What was said, read line by line beside the parts that want it.
#[derive(Clone, Copy)]
struct Reading<'a> {
    /// What isn't read yet.
    left: &'a [u8],
    /// The line of the last part.
    line: Line<'a>,
    /// How many answers the parts up to it are, and whether it is of one.
    answers: u64,
    follows: bool,
}

impl<'a> Reading<'a> {
    // The first answer of the parts behind the line that isn't said, of so many at most.
    fn missing(&mut self, most: u64) -> Option<&'a str> {
        for text in self.line.behind.lines() {
            self.line = self.line.next();
            match Part::of(text) {
                Some(part) if self.number(part) <= most => {
                    if !self.reads(part) {
                        return part.answer();
                    }
                }
                _ => break,
            }
        }
        None
    }

    // The number of the answer that the next part is of, or else of the last one.
    fn number(&mut self, part: Part<'_>) -> u64 {
        let begins = part.is_answer() && !self.follows;
        self.follows = part.is_answer();
        self.answers = self.answers.saturating_add(u64::from(begins));
        self.answers
    }

    // Reads the answers of a part. Whether all of them are said.
    fn reads(&mut self, part: Part<'_>) -> bool {
        match part {
            Part::Answers(count, answer) => self.reads_lines(count, answer),
            Part::Tail(answer) => {
                self.left = tail(self.left, answer);
                self.reads_line(answer)
            }
            Part::Any => {
                self.left = b"";
                true
            }
            _ => true,
        }
    }

    fn reads_lines(&mut self, count: usize, line: &str) -> bool {
        let mut all = true;
        for _ in 0..count {
            all = all && self.reads_line(line);
        }
        all
    }

    // Reads this line, where it comes next.
    fn reads_line(&mut self, line: &str) -> bool {
        match behind_line(self.left, line.as_bytes()) {
            Some(behind) => {
                self.left = behind;
                true
            }
            None => false,
        }
    }

    // The line that comes next.
    fn found(&self) -> &'a [u8] {
        if self.left.is_empty() {
            return b"no more";
        }
        first_line(self.left)
    }
}

// What stands behind this line, where the text begins with it.
fn behind_line<'a>(text: &'a [u8], line: &[u8]) -> Option<&'a [u8]> {
    match text.strip_prefix(line)? {
        [b'\n', behind @ ..] => Some(behind),
        _ => None,
    }
}

fn first_line(text: &[u8]) -> &[u8] {
    match text.iter().position(|byte| *byte == b'\n') {
        Some(end) => text.get(..end).unwrap_or(text),
        None => text,
    }
}

/// What stands from the last line on that is this one, or the whole where there is none.
pub(crate) fn tail<'a>(text: &'a [u8], line: &str) -> &'a [u8] {
    let line = line.as_bytes();
    let place = text
        .windows(line.len().max(1))
        .rposition(|window| window == line);
    match place {
        Some(place) => text.get(place..).unwrap_or(text),
        None => text,
    }
}
