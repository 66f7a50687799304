//! Trees, and what is found in words.
use fml_types::{FieldType, read_type};
use json_tree::{Tree, read, write};
use row_tables::{Fault, Found};
use sequences::Text;
use std::alloc::Global;

pub(crate) fn type_of(alloc: Global, text: &str) -> Result<FieldType, Fault> {
    match read_type(alloc, text) {
        Ok(of) => Ok(of),
        Err(_) => Err(Fault::NoRow),
    }
}

pub(crate) fn tree_of(alloc: Global, bytes: &[u8]) -> Result<Tree, Fault> {
    match read(alloc, bytes) {
        Ok(tree) => Ok(tree),
        Err(_) => Err(Fault::NoRow),
    }
}

/// Adds the text of a tree.
pub(crate) fn add_tree(alloc: Global, tree: &Tree, found: &mut Found) {
    match write(alloc, tree) {
        Ok(text) => found.text(text.as_str()),
        Err(_) => found.lack_memory(),
    }
}

/// Adds the names, each with a stroke before it.
pub(crate) fn add_names(found: &mut Found, names: &[Text]) {
    for name in names {
        found.texts(&["|", name.as_str()]);
    }
}

pub(crate) fn word_of(truth: bool) -> &'static str {
    if truth { "yes" } else { "no" }
}
