//! Files that are linked, and rows on the manifest that this makes.
use crate::refusals::add_refusal;
use crate::single_files::{add_single, find_rereading};
use crate::trees::{add_names, word_of};
use crate::values::{add_defaults, find_default};
use fml_link::{LinkFault, link};
use fml_types::{Manifest, coenrolling_features};
use host_model::MemShelf;
use row_tables::{Fault, Found, cut};
use std::alloc::Global;

/// Links a file for a channel, and adds `ok`, or what it is refused for. Row: the names of the file and of the channel.
pub(crate) fn find_link(
    alloc: Global,
    shelf: &mut MemShelf,
    last: &mut Option<Manifest>,
    words: &str,
    found: &mut Found,
) {
    let (name, channel) = cut(words);
    match link(alloc, shelf, name, channel) {
        Ok(manifest) => keep(manifest, last, channel, found),
        Err(fault) => add_fault(&fault, found),
    }
}

// Keeps a manifest that is linked, and adds whether it is for this channel.
fn keep(manifest: Manifest, last: &mut Option<Manifest>, channel: &str, found: &mut Found) {
    let is_for_it = manifest.channel.as_str() == channel;
    drop(std::mem::replace(last, Some(manifest)));
    found.text(if is_for_it { "ok" } else { "another channel" })
}

fn add_fault(fault: &LinkFault, found: &mut Found) {
    match fault {
        LinkFault::Refused(refusal) => add_refusal(refusal, found),
        LinkFault::ShelfFault => found.text("ShelfFault"),
        LinkFault::OutOfMemory => found.lack_memory(),
    }
}

/// Adds what is found of a row on a manifest.
pub(crate) fn find_linked(
    alloc: Global,
    manifest: &Manifest,
    kind: &str,
    rest: &str,
    found: &mut Found,
) -> Result<(), Fault> {
    match kind {
        "coenrolling" => Ok(add_coenrolling(alloc, manifest, found)),
        "place" => find_place(manifest, rest, found),
        "enum" => Ok(found.text(word_of(manifest.types.enums.get(rest).is_some()))),
        "default" | "laid" => find_default(alloc, manifest, rest, found),
        "defaults" => Ok(add_defaults(alloc, manifest, found)),
        "single" => Ok(add_single(alloc, manifest, found)),
        "reread" => find_rereading(alloc, manifest, found),
        _ => Err(Fault::NoRow),
    }
}

fn add_coenrolling(alloc: Global, manifest: &Manifest, found: &mut Found) {
    match coenrolling_features(alloc, manifest) {
        Ok(names) => add_names(found, names.as_slice()),
        Err(_) => found.lack_memory(),
    }
}

fn find_place(manifest: &Manifest, name: &str, found: &mut Found) -> Result<(), Fault> {
    match manifest.features.place(name) {
        Some(place) => Ok(found.displayed(&place)),
        None => Err(Fault::NoRow),
    }
}
