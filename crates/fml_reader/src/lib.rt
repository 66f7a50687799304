//! One file of a feature manifest, read from its JSON tree.
//!
//! The keys and shapes are those of the Feature Manifest Language (FML). Keys that aren't named
//! here are read past, descriptions among them.
#![tactic(auto)]

mod fault;
mod features;
mod fields;
mod imports;
mod module;
mod names;
mod values;
mod walks;

pub use fault::{ModuleFault, ModuleRefusal};
pub use imports::Import;
pub use module::{Module, read_module};
pub use sequences::Text;
