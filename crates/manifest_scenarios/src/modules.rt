//! Modules that JSON texts are, and the first fault of those that are none.
use crate::trees::{add_names, tree_of};
use fml_reader::{Import, Module, ModuleFault, ModuleRefusal, read_module};
use fml_types::{ByName, DefaultEntry, FeatureDefinition, Text};
use row_tables::{Fault, Found};
use std::alloc::Global;

/// What is found of the module that a text is: of the kind `channels` those of its one default, and of the kind `parts` the names
/// in each part; of `module` it is `ok`, or the path at which it is refused.
pub(crate) fn find_module(
    alloc: Global,
    kind: &str,
    text: &[u8],
    found: &mut Found,
) -> Result<(), Fault> {
    let tree = tree_of(alloc, text)?;
    match read_module(alloc, &tree) {
        Ok(module) => add_module(&module, kind, found),
        Err(fault) => add_fault(&fault, kind, found),
    }
}

fn add_fault(fault: &ModuleFault, kind: &str, found: &mut Found) -> Result<(), Fault> {
    match fault {
        ModuleFault::Refused(ModuleRefusal::BadShape(path)) if kind == "module" => {
            Ok(found.texts(&["at \"", path.as_str(), "\""]))
        }
        ModuleFault::Refused(_) => Err(Fault::NoRow),
        ModuleFault::OutOfMemory => Err(Fault::OutOfMemory),
    }
}

fn add_module(module: &Module, kind: &str, found: &mut Found) -> Result<(), Fault> {
    match kind {
        "module" => Ok(found.text("ok")),
        "parts" => Ok(add_parts(module, found)),
        _ => find_channels_of(module, found),
    }
}

/// The channels of a default of a feature, each with a stroke before it, or `any`. Row: the default.
pub(crate) fn find_channels(alloc: Global, entry: &str, found: &mut Found) -> Result<(), Fault> {
    let mut text = Found::new(alloc);
    text.texts(&["{\"features\":{\"f\":{\"defaults\":[", entry, "]}}}"]);
    find_module(alloc, "channels", text.as_str().as_bytes(), found)
}

fn find_channels_of(module: &Module, found: &mut Found) -> Result<(), Fault> {
    match module.features.get("f") {
        Some(feature) => Ok(add_channels(feature.defaults.as_slice(), found)),
        None => Err(Fault::NoRow),
    }
}

fn add_channels(entries: &[DefaultEntry], found: &mut Found) {
    match entries {
        [entry, ..] => match &entry.channels {
            Some(names) => add_names(found, names.as_slice()),
            None => found.text("any"),
        },
        [] => found.text("no default"),
    }
}

// Adds the names in each part of a module, each with a stroke before it. A feature that several experiments may have has a star
// behind it.
fn add_parts(module: &Module, found: &mut Found) {
    found.text("channels");
    add_names(found, module.channels.as_slice());
    found.text(" includes");
    add_names(found, module.includes.as_slice());
    add_imports(found, module.imports.as_slice());
    add_keys(found, " enums", &module.enums);
    add_keys(found, " types/enums", &module.types_enums);
    add_keys(found, " objects", &module.objects);
    add_keys(found, " types/objects", &module.types_objects);
    add_features(found, module.features.as_slice())
}

// Adds each import's path and channel, and the features that it has entries for, each with their number.
fn add_imports(found: &mut Found, imports: &[Import]) {
    found.text(" imports");
    for import in imports {
        add_import(found, import);
    }
}

fn add_import(found: &mut Found, import: &Import) {
    found.texts(&["|", import.path.as_str(), " ", import.channel.as_str()]);
    for (feature, entries) in import.features.as_slice() {
        found.texts(&[" ", feature.as_str(), " "]);
        found.displayed(&entries.len());
    }
}

// Adds the name of a part, and the names of the entries that are in it.
fn add_keys<T>(found: &mut Found, part: &str, entries: &ByName<T>) {
    found.text(part);
    for (name, _) in entries.as_slice() {
        found.texts(&["|", name.as_str()]);
    }
}

fn add_features(found: &mut Found, features: &[(Text, FeatureDefinition)]) {
    found.text(" features");
    for (name, feature) in features {
        let star = if feature.allows_coenrollment { "*" } else { "" };
        found.texts(&["|", name.as_str(), star]);
    }
}
