//! A text, a sequence and a shared list, which contracts see as their bytes and as the list of their
//! items.
#![tactic(auto)]

mod list_part;
mod next_list;
mod predecessor;
mod sequence;
mod shared;
mod text;

pub use list_part::ListPart;
pub use next_list::NextList;
pub use sequence::Sequence;
pub use shared::{ExactClone, SharedList};
pub use text::Text;

#[cfg(test)]
mod tests;
