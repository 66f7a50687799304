//! Manifests as single files.
use crate::trees::add_tree;
use fml_imports::single;
use fml_link::link;
use fml_types::Manifest;
use host_model::MemShelf;
use row_tables::{Fault, Found};
use std::alloc::Global;

const NAME: &str = "single.json";

/// Adds the text of the manifest's single file.
pub(crate) fn add_single(alloc: Global, manifest: &Manifest, found: &mut Found) {
    match single(alloc, manifest) {
        Ok(tree) => add_tree(alloc, &tree, found),
        Err(_) => found.lack_memory(),
    }
}

/// Adds `same` where a shelf with that file alone gives a manifest of the same single file, or else the text of that one's.
pub(crate) fn find_rereading(
    alloc: Global,
    manifest: &Manifest,
    found: &mut Found,
) -> Result<(), Fault> {
    let mut file = Found::new(alloc);
    add_single(alloc, manifest, &mut file);
    let mut shelf = MemShelf::new(alloc, &[])?;
    find_again(
        alloc,
        &mut shelf,
        file.as_str(),
        manifest.channel.as_str(),
        found,
    )
}

fn find_again(
    alloc: Global,
    shelf: &mut MemShelf,
    text: &str,
    channel: &str,
    found: &mut Found,
) -> Result<(), Fault> {
    shelf.add(alloc, NAME, text.as_bytes())?;
    match link(alloc, shelf, NAME, channel) {
        Ok(again) => Ok(add_again(alloc, &again, text, found)),
        Err(_) => Err(Fault::NoRow),
    }
}

fn add_again(alloc: Global, again: &Manifest, text: &str, found: &mut Found) {
    add_single(alloc, again, found);
    if found.as_str() == text {
        found.clear();
        found.text("same")
    }
}
