//! Slugs, numbers and trees of a row's text.
use json_tree::{Tree, read, write};
use plain_text::{Slug, slug_of};
use row_tables::{Fault, Found};
use std::alloc::Global;

pub(crate) fn slug(alloc: Global, text: &str) -> Result<Slug, Fault> {
    match slug_of(alloc, text.as_bytes()) {
        Ok(slug) => Ok(slug),
        Err(_) => Err(Fault::NoRow),
    }
}

pub(crate) fn number(text: &str) -> Result<u64, Fault> {
    row_tables::number(text).ok_or(Fault::NoRow)
}

/// The tree of a JSON text.
pub(crate) fn tree(alloc: Global, text: &str) -> Result<Tree, Fault> {
    match read(alloc, text.as_bytes()) {
        Ok(tree) => Ok(tree),
        Err(_) => Err(Fault::NoRow),
    }
}

/// Adds the text of a tree.
pub(crate) fn add_tree(alloc: Global, tree: &Tree, found: &mut Found) {
    match write(alloc, tree) {
        Ok(text) => found.text(text.as_str()),
        Err(_) => found.lack_memory(),
    }
}
