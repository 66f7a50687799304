//! The files of a feature manifest, joined into one.
//!
//! What files define and import is that of the Feature Manifest Language (FML).
#![tactic(auto)]

mod checks;
mod fault;
mod imports;
mod joining;
mod laws;
mod merging;
mod overrides;
mod single_file;
mod tables;
mod type_texts;

pub use fault::{JoinFault, JoinRefusal};
pub use joining::{Linked, join};
pub use laws::{single_reads_back, types_read_back};
pub use sequences::Text;
pub use single_file::single;
