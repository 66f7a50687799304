//! Feature manifests: the types of variables, and the tables that a manifest is made of.
//!
//! The types and their texts are those of the Feature Manifest Language (FML).
#![tactic(auto)]

mod by_name;
mod field_type;
mod graph;
mod grounding;
mod heights;
mod laws;
mod manifest;
mod reach;
mod type_text;
mod weights;

pub use by_name::ByName;
pub use field_type::{FieldType, InnerType, Key};
pub use grounding::{GroundFault, Ungrounded, grounded};
pub use laws::{needs_of_objects, weights_of_objects};
pub use manifest::{
    DefaultEntry, EnumDefinition, FeatureDefinition, Field, Manifest, ObjectDefinition, TypeTable,
    coenrolling_features,
};
pub use sequences::Text;
pub use type_text::{TypeFault, read_type, without_spaces};
