//! What a scenario's lines do.
//!
//! | Line | Meaning |
//! |---|---|
//! | an empty one, or one that begins with `#` | nothing |
//! | `== NAME` | a scenario begins, with no text and no file |
//! | `> TEXT` | the text goes on with this one and a line feed |
//! | `>> TEXT` | the text goes on with this one |
//! | `repeat COUNT TEXT` | the text goes on with this one, so many times |
//! | `byte NUMBER COUNT` | the text goes on with this byte, so many times |
//! | `chain START END FIELD` | the text goes on with the objects `oSTART` up to before `oEND`, of which each has the field `f`; in its type and its default each `*` stands for the next object's name |
//! | `clear` | the text becomes empty |
//! | `file NAME` | the text becomes a file, and is empty then |
//! | `fails NUMBER` | the files are those of a shelf whose call of this number, from 1 on, fails; there are none yet |
//! | `ROW = WANTED` | a row of one of the kinds below, and what is wanted of it |
//!
//! In these the table is that of the text: each line is `OBJECT/FIELD/TYPE/DEFAULT`, the fields of one object one after the
//! other, with no default where nothing stands there. It has the enum `Side` of `left` and `right` besides.
//!
//! | Row | What is found |
//! |---|---|
//! | `type TEXT` | the text of the type that is read, without spaces |
//! | `spaces TEXT` | what stands between the spaces around it, with a stroke on each side |
//! | `grounded` | `ok`, or what the table is refused for |
//! | `height NAME NUMBER` | whether the object has this height, of which 33 stands for each that is too high |
//! | `weight NAME NUMBER` | whether the object has this weight |
//! | `tree TYPE: TREE` | whether the type takes the tree, and whether the tree fits it |
//! | `value TYPE: TREE` | the kind of the value whose tree this is, or `none` |
//! | `lay TYPE: BASE: PATCH` | the tree that comes of it where the patch is laid over the value of the base, or over the type's zero |
//! | `module TEXT` | `ok`, or what the module is refused for; where no text stands here it is the scenario's |
//! | `channels ENTRY` | the channels of this default of a feature, each with a stroke before it |
//! | `parts` | the names in each part of the module that the text is |
//! | `link NAME CHANNEL` | `ok`, or what the file is refused for |
//! | `coenrolling` | the features of the manifest linked last that several experiments may have, each with a stroke before it |
//! | `place FEATURE` | where the feature stands in it |
//! | `enum NAME` | whether it has the enum |
//! | `default FEATURE` | the tree of the feature's default in it |
//! | `laid FEATURE PATCH` | the tree of the default with the patch laid over it |
//! | `defaults` | `ok`, or the first of its defaults that doesn't fit |
//! | `single` | the text of its single file |
//! | `reread` | `same` where that file alone gives a manifest of the same single file |
use crate::chains::add_chain;
use crate::linked::{find_link, find_linked};
use crate::modules::{find_channels, find_module};
use crate::tables::{find_by_table, find_height, find_weight};
use crate::values::{add_type_of, add_without_spaces};
use fml_types::Manifest;
use host_model::MemShelf;
use row_tables::{Fault, Found, Piece, cut, number};
use std::alloc::{AllocError, Global};
use std::str::from_utf8;

/// What the lines of a scenario have made so far.
#[derive(Drop)]
pub(crate) struct Scenario {
    text: Vec<u8>,
    shelf: MemShelf,
    /// What was linked last.
    manifest: Option<Manifest>,
}

impl Scenario {
    pub(crate) fn new(alloc: Global) -> Result<Scenario, AllocError> {
        Ok(Scenario {
            text: Vec::new(alloc),
            shelf: MemShelf::new(alloc, &[])?,
            manifest: None,
        })
    }
}

/// Does what a line says that is no row, and tells whether it is one.
pub(crate) fn prepare(
    alloc: Global,
    scenario: &mut Scenario,
    word: &str,
    rest: &str,
) -> Result<bool, AllocError> {
    match word {
        "clear" => Ok(clear(&mut scenario.text)),
        "chain" => add_chain(alloc, &mut scenario.text, rest),
        "file" => put_file(alloc, &mut scenario.shelf, &mut scenario.text, rest),
        "fails" => empty_shelf(alloc, &mut scenario.shelf, rest),
        _ => add_piece(&mut scenario.text, word, rest),
    }
}

fn clear(text: &mut Vec<u8>) -> bool {
    text.clear();
    true
}

fn put_file(
    alloc: Global,
    shelf: &mut MemShelf,
    text: &mut Vec<u8>,
    name: &str,
) -> Result<bool, AllocError> {
    shelf.add(alloc, name, text)?;
    Ok(clear(text))
}

fn empty_shelf(alloc: Global, shelf: &mut MemShelf, call: &str) -> Result<bool, AllocError> {
    match number(call) {
        Some(call) => {
            drop(std::mem::replace(shelf, MemShelf::new(alloc, &[call])?));
            Ok(true)
        }
        None => Ok(false),
    }
}

fn add_piece(text: &mut Vec<u8>, word: &str, rest: &str) -> Result<bool, AllocError> {
    match Piece::of(word, rest) {
        Some(piece) => {
            piece.add_to(text)?;
            Ok(true)
        }
        None => Ok(false),
    }
}

/// Adds what is found of a row.
pub(crate) fn find(
    alloc: Global,
    scenario: &mut Scenario,
    row: &str,
    found: &mut Found,
) -> Result<(), Fault> {
    let (word, rest) = cut(row);
    match word {
        "link" => Ok(find_link(
            alloc,
            &mut scenario.shelf,
            &mut scenario.manifest,
            rest,
            found,
        )),
        "type" => Ok(add_type_of(alloc, rest, found)),
        "spaces" => Ok(add_without_spaces(rest, found)),
        "channels" => find_channels(alloc, rest, found),
        "module" if !rest.is_empty() => find_module(alloc, word, rest.as_bytes(), found),
        "module" | "parts" => find_module(alloc, word, &scenario.text, found),
        "grounded" | "height" | "weight" | "tree" | "value" | "lay" => {
            find_by_text(alloc, &scenario.text, word, rest, found)
        }
        _ => find_by_manifest(alloc, &scenario.manifest, word, rest, found),
    }
}

// Adds what is found of a row on the table of a text.
fn find_by_text(
    alloc: Global,
    text: &[u8],
    word: &str,
    rest: &str,
    found: &mut Found,
) -> Result<(), Fault> {
    let Ok(rows) = from_utf8(text) else {
        return Err(Fault::NoRow);
    };
    match word {
        "height" => find_height(alloc, rows, rest, found),
        "weight" => find_weight(alloc, rows, rest, found),
        _ => find_by_table(alloc, rows, word, rest, found),
    }
}

// Adds what is found of a row on the manifest that was linked last.
fn find_by_manifest(
    alloc: Global,
    manifest: &Option<Manifest>,
    word: &str,
    rest: &str,
    found: &mut Found,
) -> Result<(), Fault> {
    match manifest {
        Some(manifest) => find_linked(alloc, manifest, word, rest, found),
        None => Err(Fault::NoRow),
    }
}
