// What a line adds to a text that is written down line by line.
use crate::cutting::{byte, count, cut};
use std::alloc::AllocError;

/// What a line adds to a text.
#[derive(Clone, Copy)]
pub enum Piece<'a> {
    /// This text and a line feed.
    Line(&'a str),
    /// This text.
    Part(&'a str),
    /// This text, so many times.
    Repeat(usize, &'a str),
    /// This byte, so many times.
    Byte(u8, usize),
}

impl<'a> Piece<'a> {
    /// What a line adds that has this word first and this rest behind it, if the word is one of `>`, `>>`, `repeat` and `byte` and
    /// the rest has the numbers that it wants.
    pub fn of(word: &str, rest: &'a str) -> Option<Piece<'a>> {
        match word {
            ">" => Some(Piece::Line(rest)),
            ">>" => Some(Piece::Part(rest)),
            "repeat" => repeated(rest),
            "byte" => filled(rest),
            _ => None,
        }
    }

    /// Adds it to a text.
    pub fn add_to(self, text: &mut Vec<u8>) -> Result<(), AllocError> {
        match self {
            Piece::Line(line) => add_line(text, line),
            Piece::Part(part) => text.extend_from_slice(part.as_bytes()),
            Piece::Repeat(count, part) => add_repeated(text, count, part.as_bytes()),
            Piece::Byte(byte, count) => add_filled(text, byte, count),
        }
    }
}

fn repeated<'a>(rest: &'a str) -> Option<Piece<'a>> {
    let (number, text) = cut(rest);
    Some(Piece::Repeat(count(number)?, text))
}

fn filled<'a>(rest: &'a str) -> Option<Piece<'a>> {
    let (number, times) = cut(rest);
    Some(Piece::Byte(byte(number)?, count(times)?))
}

fn add_line(text: &mut Vec<u8>, line: &str) -> Result<(), AllocError> {
    text.extend_from_slice(line.as_bytes())?;
    text.extend_from_slice(b"\n")
}

fn add_repeated(text: &mut Vec<u8>, count: usize, part: &[u8]) -> Result<(), AllocError> {
    for _ in 0..count {
        text.extend_from_slice(part)?;
    }
    Ok(())
}

fn add_filled(text: &mut Vec<u8>, byte: u8, count: usize) -> Result<(), AllocError> {
    for _ in 0..count {
        text.extend_from_slice(&[byte])?;
    }
    Ok(())
}
