//! Rows on contexts of JSON texts.
use crate::trees::tree;
use app_context::{Context, ContextFault, ContextKey, NamedTexts, read_context};
use row_tables::{Fault, Found, cut, parts};
use sequences::Text;
use std::alloc::{AllocError, Global};

/// What is found of a row. Of the kind `refused` the first key that keeps a tree from being a context, or `none`; the row is a JSON
/// text. Of `text` the text that the copy of the context that is given has under a key, or the unit of this name, in quotes, or
/// `none`; and the numbers of its texts, units and custom attributes at `texts`, `units` and `custom`; the row is the key.
pub(crate) fn find(
    alloc: Global,
    kind: &str,
    given: &str,
    input: &str,
    found: &mut Found,
) -> Result<(), Fault> {
    if kind == "named" {
        return find_named(alloc, input, found);
    }
    let tree = tree(alloc, if kind == "text" { given } else { input })?;
    match read_context(alloc, &tree) {
        Ok(context) if kind == "text" => Ok(add_text_of_copy(&context, input, found)),
        Ok(_) => Ok(found.text("none")),
        Err(ContextFault::BadContext(key)) => Ok(found.text(key.name())),
        Err(ContextFault::OutOfMemory) => Err(Fault::OutOfMemory),
    }
}

fn add_text_of_copy(context: &Context, key: &str, found: &mut Found) {
    let Ok(copy) = context.clone() else {
        return found.lack_memory();
    };
    add_text_at(&copy, key, found)
}

fn add_text_at(context: &Context, key: &str, found: &mut Found) {
    match count_of(context, key) {
        Some(count) => found.displayed(&count),
        None => add_quoted(text_at(context, key), found),
    }
}

// How many texts, units or custom attributes the context has, where the key asks for these.
fn count_of(context: &Context, key: &str) -> Option<usize> {
    match key {
        "texts" => Some(context.texts.as_slice().len()),
        "units" => Some(context.units.as_slice().len()),
        "custom" => Some(context.custom.as_slice().len()),
        _ => None,
    }
}

// The text under a key, or the unit of this name.
fn text_at<'a>(context: &'a Context, key: &str) -> Option<&'a Text> {
    match key {
        "app_name" => context.text(ContextKey::AppName),
        "app_id" => context.text(ContextKey::AppId),
        "channel" => context.text(ContextKey::Channel),
        "app_version" => context.text(ContextKey::AppVersion),
        "app_build" => context.text(ContextKey::AppBuild),
        "locale" => context.text(ContextKey::Locale),
        "os" => context.text(ContextKey::Os),
        unit => context.unit(unit),
    }
}

// Adds a text in quotes, or `none`.
fn add_quoted(text: Option<&Text>, found: &mut Found) {
    match text {
        Some(text) => found.texts(&["'", text.as_str(), "'"]),
        None => found.text("none"),
    }
}

// The text of a name in a copy of one name and its text, in quotes, or `none`. Row: the name and the text, and the name
// that is looked for.
fn find_named(alloc: Global, input: &str, found: &mut Found) -> Result<(), Fault> {
    let (pair, wanted) = parts(input)?;
    let (name, text) = cut(pair);
    let copy = copy_of_one(alloc, name, text)?;
    Ok(add_quoted(copy.get(wanted), found))
}

fn copy_of_one(alloc: Global, name: &str, text: &str) -> Result<NamedTexts, AllocError> {
    let name = Text::new(alloc, name)?;
    let text = Text::new(alloc, text)?;
    let mut named = NamedTexts::new(alloc);
    named.push(name, text)?;
    named.clone()
}
