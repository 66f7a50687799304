//! Tables of rows that a program of tests reads, and what it tells of them; and what programs of scenarios share: the words of
//! lines, bytes to which parts are added, the sides of a store, and a host in memory that counts calls.
//!
//! A table is written so:
//!
//! | Line | Meaning |
//! |---|---|
//! | an empty one, or one that begins with `#` | nothing |
//! | `== KIND TITLE` | a table begins, whose rows are of this kind; nothing is given |
//! | `given TEXT` | this text is given for the rows from here on |
//! | `> TEXT` | the input of the next row begins with this text and a line feed, behind those of earlier lines |
//! | `>> TEXT` | so it does with this text |
//! | `repeat COUNT TEXT` | so it does with this text, so many times |
//! | `byte NUMBER COUNT` | so it does with this byte, so many times |
//! | `INPUT => WANTED` | a row |
//!
//! Any other line is no row, and counts as one that differs.
#![tactic(auto)]

mod bytes;
mod counting_host;
mod cutting;
mod fault;
mod found;
mod judging;
mod line;
mod pieces;
mod sides;
mod words;

pub use bytes::Bytes;
pub use counting_host::{CountingHost, Failed, HostFaults};
pub use cutting::{
    add_all_displayed, add_between, add_bytes, add_debugged, add_displayed, add_none, add_texts,
    byte, count, cut, number, parts,
};
pub use fault::Fault;
pub use found::Found;
pub use judging::{Kinds, Question, report_on};
pub use pieces::Piece;
pub use sides::{Alteration, Sides};
pub use words::Words;
