//! Lines, words, names, slugs, numbers and moments of plain text.
#![tactic(auto)]

mod laws;
mod moments;
mod names;
mod numbers;
mod slug;
mod spans;

pub use laws::{moments_read_back, written_moment_reads_back};
pub use moments::{LAST_MOMENT, read_moment};
pub use names::is_name;
pub use numbers::read_number;
pub use slug::{Slug, SlugFault, slug_of};
pub use spans::{lines, words};
