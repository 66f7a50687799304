//! Chains of objects.
use row_tables::{Found, cut, number};
use std::alloc::{AllocError, Global};

/// Adds the objects that `START END FIELD` says, if the first two are numbers, and tells whether they are.
pub(crate) fn add_chain(
    alloc: Global,
    text: &mut Vec<u8>,
    words: &str,
) -> Result<bool, AllocError> {
    let (start, rest) = cut(words);
    let (end, field) = cut(rest);
    let mut chain = Found::new(alloc);
    match (number(start), number(end)) {
        (Some(start), Some(end)) => add_objects(&mut chain, start, end, field),
        _ => return Ok(false),
    }
    text.extend_from_slice(chain.as_str().as_bytes())?;
    Ok(chain.is_whole())
}

// Adds objects of rising numbers, of which the field of each names the next one.
fn add_objects(chain: &mut Found, start: u64, end: u64, field: &str) {
    for place in start..end {
        add_name(chain, place);
        chain.text("/f/");
        add_field(chain, place.saturating_add(1), field);
        chain.text("\n");
    }
}

// Adds a text in which each `*` stands for the name of the object of this number.
fn add_field(chain: &mut Found, place: u64, field: &str) {
    for (number, part) in field.split('*').enumerate() {
        if number > 0 {
            add_name(chain, place);
        }
        chain.text(part);
    }
}

fn add_name(chain: &mut Found, place: u64) {
    chain.text("o");
    chain.displayed(&place);
}
