//! How many bytes the compact JSON text of a tree has, counted without a text and without memory.
#![tactic(auto)]

mod numbers;
mod texts;
mod trees;

pub use numbers::whole_length;
pub use texts::text_length;
pub use trees::{length_within, tree_length};
