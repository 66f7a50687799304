//! What an apply makes of a client's state: its verdict on each live recipe, and the new rows.
#![tactic(auto)]

mod client;
mod evolution;
mod expressions;
mod laws;
mod merging;
mod plan;
mod refreshing;
mod samples;
mod settling;
mod targeting;
mod verdicts;
mod wishes;

pub use evolution::evolve;
pub use laws::{each_slug_by_itself, trees_are_found};
pub use targeting::Targeting;
pub use verdicts::verdict;
