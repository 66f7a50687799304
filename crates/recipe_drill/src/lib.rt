//! The drill: a large input for the client that is made from two numbers, and the summary of the
//! state that it leaves.
#![tactic(auto)]

mod counting;
mod draws;
mod drill;
mod files;
mod members;
mod records;

pub use counting::summary;
pub use drill::{Drill, MAX_RECIPES};
