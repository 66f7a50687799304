//! Which wishes to enrol are granted, where experiments or rollouts share features.
#![tactic(auto)]

mod candidate;
mod held;
mod laws;
mod names;
mod rank;
mod settlement;
mod slugs;

pub use candidate::Candidate;
pub use laws::{one_settlement, settled_are_exclusive, settled_says, slugs_in_order_differ};
pub use settlement::settle;
pub use slugs::slugs_rise;
