// What a line says.
use crate::cutting::cut;
use crate::pieces::Piece;

#[derive(Clone, Copy)]
pub(crate) enum Line<'a> {
    Nothing,
    Table(&'a str, &'a str),
    Given(&'a str),
    Piece(Piece<'a>),
    Row(&'a str, &'a str),
    Other,
}

impl<'a> Line<'a> {
    pub(crate) fn of(line: &'a str) -> Line<'a> {
        if line.is_empty() || line.starts_with('#') {
            return Line::Nothing;
        }
        let (word, rest) = cut(line);
        match word {
            "==" => table(rest),
            "given" => Line::Given(rest),
            ">" | ">>" | "repeat" | "byte" => piece(word, rest),
            _ => row(line),
        }
    }
}

fn table<'a>(rest: &'a str) -> Line<'a> {
    let (kind, title) = cut(rest);
    Line::Table(kind, title)
}

fn piece<'a>(word: &str, rest: &'a str) -> Line<'a> {
    match Piece::of(word, rest) {
        Some(piece) => Line::Piece(piece),
        None => Line::Other,
    }
}

fn row<'a>(line: &'a str) -> Line<'a> {
    match line.split_once(" => ") {
        Some((input, wanted)) => Line::Row(input, wanted),
        None => Line::Other,
    }
}
