//! The top call: makes a store, or runs a script against one, each line written before it is answered.
#![tactic(auto)]

mod drill;
mod drill_shelf;
mod entry;
mod faults;
mod laws;
mod line;
mod lines;
mod making;
mod run;
mod saying;
mod script;
mod status;
mod words;

pub use entry::nimbus;
pub use laws::{
    event_chain, kept_chain, manifests_are_made_again, opt_outs_stay, outbox_chain, pref_chain,
    runs_are_links, runs_stay_sound, values_are_served,
};
pub use status::RunStatus;
