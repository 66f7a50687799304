//! A feature manifest, linked from its files.
//!
//! The files, and what they include and import, are those of the Feature Manifest Language (FML).
#![tactic(auto)]

mod fault;
mod files;
mod laws;
mod linking;
mod names;

pub use fault::{LinkFault, LinkRefusal};
pub use laws::{included_files, list_of_files, single_links_back};
pub use linking::link;
pub use sequences::Text;
