//! One step of a client: what a command makes of its state and of the session, written to its store before it is
//! answered. The store holds the rows of the state, and a command writes the rows that it changes.
#![tactic(auto)]

mod choosing;
mod client;
mod opening;
mod prepared;
mod preparing;
mod set_preference;

pub use client::Client;
pub use client_steps::{
    Session, StepFault, events_follow, opt_outs_hold, outbox_follows, preferences_follow,
    steps_stay_sound, values_are_served, values_have_types,
};
pub use client_store::{PairFault, one_state, whole_states_stand};
pub use prepared::Prepared;
