//! The outside of a program over the system: standard input as a source, the files of the current folder as a shelf,
//! and two of them with standard output as a host. Each is generic over the traits by which files are reached, counts
//! its failures, and keeps the cause of the last one.
#![tactic(auto)]

mod clock;
mod faults;
mod host;
mod output;
mod shelf;
mod side_file;
mod source;
#[cfg(test)]
mod stand_in;
mod standard;
#[cfg(test)]
mod tests;

pub use clock::moment;
pub use faults::{Cause, Place};
pub use host::FolderHost;
pub use output::write_flushed;
pub use shelf::FolderShelf;
pub use source::StdinSource;
pub use standard::{TakenStandard, take_standard};
