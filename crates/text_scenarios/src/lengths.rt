//! Rows on the lengths of JSON's compact texts, and on the bounds that they keep.
use crate::trees::tree;
use json_length::{length_within, tree_length, whole_length};
use json_tree::{Tree, write};
use row_tables::{Fault, Found, cut, number};
use std::alloc::Global;

/// The length of the compact text of a text that is compact. Row: the text.
pub(crate) fn find_length(alloc: Global, input: &str, found: &mut Found) -> Result<(), Fault> {
    let tree = tree(alloc, input)?;
    Ok(add_length(alloc, &tree, input, found))
}

// Adds the length of the text of a tree, which is this one.
fn add_length(alloc: Global, tree: &Tree, text: &str, found: &mut Found) {
    let Ok(written) = write(alloc, tree) else {
        return found.lack_memory();
    };
    if written.as_str() != text {
        return found.text("another text is written");
    }
    found.displayed(&tree_length(tree));
}

/// The length of the text of a whole number. Row: the number.
pub(crate) fn find_whole_length(input: &str, found: &mut Found) -> Result<(), Fault> {
    let Ok(whole) = input.parse::<i64>() else {
        return Err(Fault::NoRow);
    };
    Ok(found.displayed(&whole_length(whole)))
}

/// The length of the compact text of a text where it is within a bound, or `none`. Row: the bound and the text.
pub(crate) fn find_length_within(
    alloc: Global,
    input: &str,
    found: &mut Found,
) -> Result<(), Fault> {
    let (most, text) = cut(input);
    let most = number(most).ok_or(Fault::NoRow)?;
    let tree = tree(alloc, text)?;
    Ok(add_length_within(&tree, u128::from(most), found))
}

fn add_length_within(tree: &Tree, most: u128, found: &mut Found) {
    match length_within(tree, most) {
        Some(length) => found.displayed(&length),
        None => found.text("none"),
    }
}
