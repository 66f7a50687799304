// What a row's text is cut into, and what stands between parts of what is found.
use crate::fault::Fault;
use plain_text::read_number;
use std::alloc::AllocError;
use std::fmt::{Debug, Display};

/// A text before and behind its first space, or else the whole and an empty one.
pub fn cut(text: &str) -> (&str, &str) {
    text.split_once(' ').unwrap_or((text, ""))
}

/// A text before and behind its first ` | `.
pub fn parts(text: &str) -> Result<(&str, &str), Fault> {
    text.split_once(" | ").ok_or(Fault::NoRow)
}

/// The number that a word spells.
pub fn number(word: &str) -> Option<u64> {
    read_number(word.as_bytes())
}

/// The number of bytes, or the place, that a word spells.
pub fn count(word: &str) -> Option<usize> {
    usize::try_from(number(word)?).ok()
}

/// The byte that a word spells as a number.
pub fn byte(word: &str) -> Option<u8> {
    u8::try_from(number(word)?).ok()
}

/// Adds what stands between two parts, where one is there.
pub fn add_between(found: &mut String, between: &str) -> Result<(), AllocError> {
    if found.is_empty() {
        return Ok(());
    }
    found.push_str(between)
}

/// Adds `none`, where nothing is there.
pub fn add_none(found: &mut String) -> Result<(), AllocError> {
    if found.is_empty() {
        return found.push_str("none");
    }
    Ok(())
}

/// Adds texts one after the other.
pub fn add_texts(found: &mut String, texts: &[&str]) -> Result<(), AllocError> {
    for text in texts {
        found.push_str(text)?;
    }
    Ok(())
}

/// Adds what `Display` writes of a value.
pub fn add_displayed<T: Display>(found: &mut String, value: &T) -> Result<(), AllocError> {
    write!(found, "{value}")
}

/// Adds what `Debug` writes of a value.
pub fn add_debugged<T: Debug>(found: &mut String, value: &T) -> Result<(), AllocError> {
    write!(found, "{value:?}")
}

/// Adds what `Display` writes of values, with a space between two.
pub fn add_all_displayed<T: Display>(found: &mut String, values: &[T]) -> Result<(), AllocError> {
    for (place, value) in values.iter().enumerate() {
        found.push_str(if place > 0 { " " } else { "" })?;
        add_displayed(found, value)?;
    }
    Ok(())
}

/// Adds bytes, of which those that aren't printed in ASCII stand as `\n`, `\\` or `\x` and two digits.
pub fn add_bytes(found: &mut String, bytes: &[u8]) -> Result<(), AllocError> {
    let text = bytes.escape_ascii();
    write!(found, "{text}")
}
