//! Recipes: a JSON tree read as a recipe, or the first reason to skip it; and back.
#![tactic(auto)]

mod branches;
mod copying;
mod depths;
mod equality;
mod fields;
mod kinds;
mod laws;
mod payload;
mod reading;
mod recipe;
mod recipes;
mod record_lengths;
mod record_text;
mod rereading;
mod writing;

pub use kinds::Kind;
pub use laws::{equal_recipes_are_one, recipes_are_stated, skipped_for_first_reason};
pub use payload::{Payload, PayloadFault, read_payload};
pub use reading::read_record;
pub use recipe::{Branch, Bucket, FeatureValue, Recipe, RecordFault, SkipReason};
pub use recipes::Recipes;
pub use record_lengths::record_length;
pub use record_text::write_record;
pub use rereading::reread;
pub use writing::record_of;
