// The words of a line.
use crate::cutting::{byte, count, cut, number};
use host_model::{Choice, Side};

/// What is still to be read of a line, and whether each word before it may stand where it does.
#[derive(Clone, Copy)]
pub struct Words<'a> {
    rest: &'a str,
    are_known: bool,
}

impl<'a> Words<'a> {
    /// A line of which nothing is read.
    pub fn new(line: &'a str) -> Words<'a> {
        Words {
            rest: line,
            are_known: true,
        }
    }

    /// Whether each word that was read may stand where it does.
    pub fn are_known(&self) -> bool {
        self.are_known
    }

    /// Says that a word may not stand where it does.
    pub fn refuse(&mut self) {
        self.are_known = false;
    }

    /// What is still to be read.
    pub fn rest(&self) -> &'a str {
        self.rest
    }

    /// The next word.
    pub fn word(&mut self) -> &'a str {
        let (word, rest) = cut(self.rest);
        self.rest = rest;
        word
    }

    // What a word spells, or another value, with which the word may not stand there.
    fn known<T: Copy>(&mut self, spelled: Option<T>, other: T) -> T {
        self.are_known = self.are_known && spelled.is_some();
        spelled.unwrap_or(other)
    }

    /// The number that the next word spells.
    pub fn number(&mut self) -> u64 {
        let word = self.word();
        self.known(number(word), 0)
    }

    /// The count, or the place, that the next word spells.
    pub fn count(&mut self) -> usize {
        let word = self.word();
        self.known(count(word), 0)
    }

    /// The byte that the next word spells.
    pub fn byte(&mut self) -> u8 {
        let word = self.word();
        self.known(byte(word), 0)
    }

    /// The first and the last of the numbers `FIRST..LAST` that the next word spells.
    pub fn range(&mut self) -> (usize, usize) {
        let (first, last) = self.word().split_once("..").unwrap_or(("", ""));
        (self.known(count(first), 0), self.known(count(last), 0))
    }

    /// The side that the next word names.
    pub fn side(&mut self) -> Side {
        let side = match self.word() {
            "left" => Some(Side::Left),
            "right" => Some(Side::Right),
            _ => None,
        };
        self.known(side, Side::Left)
    }

    /// The images that the next word names; `any` and `each` name all of them.
    pub fn choices(&mut self) -> &'static [Choice] {
        match self.word() {
            "old" => &[Choice::Old],
            "new" => &[Choice::New],
            "torn" => &[Choice::Torn],
            "any" | "each" => &[Choice::Old, Choice::New, Choice::Torn],
            _ => {
                self.refuse();
                &[]
            }
        }
    }
}
