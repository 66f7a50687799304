//! JSON values (RFC 8259) as trees: read from bytes, compared, and written as compact text.
#![tactic(auto)]

mod copying;
mod equality;
mod laws;
mod reading;
mod rereading;
mod tree;
mod writing;

pub use laws::{equal_values_are_one, texts_read_back, values_read_are_sound};
pub use reading::{TreeFault, read};
pub use rereading::reread;
pub use sequences::Text;
pub use tree::{Items, Members, Tree};
pub use writing::{write, write_tree};
