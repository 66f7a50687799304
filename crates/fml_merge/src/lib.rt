//! Defaults of feature manifests, and trees laid over the values of types.
//!
//! What is laid over what follows the Feature Manifest Language (FML): a patch changes what it
//! names, as far as the types take it, and leaves the rest as it was.
#![tactic(auto)]

mod defaults;
mod features;
mod laws;
mod layers;
mod laying;
mod merging;
mod object_fields;
mod overlays;
mod parts;
mod runs;
mod sorting;
mod zeros;

pub use defaults::{DefaultFault, check_defaults};
pub use features::{default_of, overlay_each, overlay_feature};
pub use laws::{laying_by_type, values_have_types, zeros_by_type};
pub use overlays::{overlay, zero};
