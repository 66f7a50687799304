// What is found of a row.
use crate::cutting::{
    add_all_displayed, add_between, add_bytes, add_debugged, add_displayed, add_none, add_texts,
};
use std::alloc::Global;
use std::fmt::{Debug, Display};

/// What is found of a row, as a text to which parts are added. Once memory is wanting it isn't whole, and nothing more is added.
#[derive(Drop)]
pub struct Found {
    text: String,
    is_whole: bool,
}

impl Found {
    /// Nothing so far.
    pub fn new(alloc: Global) -> Found {
        Found {
            text: String::new(alloc),
            is_whole: true,
        }
    }

    /// Whether memory was found for all that was added.
    pub fn is_whole(&self) -> bool {
        self.is_whole
    }

    pub fn as_str(&self) -> &str {
        self.text.as_str()
    }

    /// Says that memory was wanting for what was to be added.
    pub fn lack_memory(&mut self) {
        self.is_whole = false;
    }

    /// Takes away what was added.
    pub fn clear(&mut self) {
        self.text.clear();
        self.is_whole = true;
    }

    /// Adds a text.
    pub fn text(&mut self, text: &str) {
        self.is_whole = self.is_whole && self.text.push_str(text).is_ok();
    }

    /// Adds texts one after the other.
    pub fn texts(&mut self, texts: &[&str]) {
        self.is_whole = self.is_whole && add_texts(&mut self.text, texts).is_ok();
    }

    /// Adds what stands between two parts, where one is there.
    pub fn between(&mut self, between: &str) {
        self.is_whole = self.is_whole && add_between(&mut self.text, between).is_ok();
    }

    /// Adds `none`, where nothing is there.
    pub fn none(&mut self) {
        self.is_whole = self.is_whole && add_none(&mut self.text).is_ok();
    }

    /// Adds what `Display` writes of a value.
    pub fn displayed<T: Display>(&mut self, value: &T) {
        self.is_whole = self.is_whole && add_displayed(&mut self.text, value).is_ok();
    }

    /// Adds what `Debug` writes of a value.
    pub fn debugged<T: Debug>(&mut self, value: &T) {
        self.is_whole = self.is_whole && add_debugged(&mut self.text, value).is_ok();
    }

    /// Adds what `Display` writes of values, with a space between two.
    pub fn all_displayed<T: Display>(&mut self, values: &[T]) {
        self.is_whole = self.is_whole && add_all_displayed(&mut self.text, values).is_ok();
    }

    /// Adds bytes, of which those that aren't printed in ASCII stand as `\n`, `\\` or `\x` and two digits.
    pub fn bytes(&mut self, bytes: &[u8]) {
        self.is_whole = self.is_whole && add_bytes(&mut self.text, bytes).is_ok();
    }
}
