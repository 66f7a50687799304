//! What a client is served of a feature: its default, over which rollouts and experiments lay
//! their values.
#![tactic(auto)]

mod laws;
mod layers;
mod serving;

pub use laws::{layers_are_in_order, served_have_types};
pub use serving::{ServeFault, served};
