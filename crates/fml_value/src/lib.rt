//! Values of feature manifests: the values of the types, their trees, and which trees a type takes
//! and which fit it.
//!
//! The types are those of the Feature Manifest Language (FML).
#![tactic(auto)]

mod checking;
mod converting;
mod copying;
mod fitting;
mod kinds;
mod laws;
mod taking;
mod value;

pub use checking::check;
pub use converting::to_tree;
pub use fitting::{fields_fit, fits};
pub use kinds::is_key;
pub use laws::trees_of_values;
pub use sequences::Text;
pub use taking::takes;
pub use value::{Entries, InnerValue, Value, Values};
