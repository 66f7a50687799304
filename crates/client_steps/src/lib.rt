//! What each command asks for: of the client's state and the session of the run it makes a change of the state, another
//! session or a refusal, with the answer.
#![tactic(auto)]

mod apply;
mod asked;
mod bind;
mod changes;
mod confirm;
mod context;
mod event;
mod faults;
mod feature;
mod fetch;
mod files;
mod laws;
mod linked_manifest;
mod manifest;
mod opt_in;
mod opt_out;
mod participate;
mod preferences;
mod reset;
mod run_context;
mod session;
mod show;
mod write_manifest;

pub use apply::applying;
pub use asked::Asked;
pub use bind::reading_bindings;
pub use changes::listing_changes;
pub use confirm::confirming;
pub use context::reading_context;
pub use event::counting;
pub use faults::StepFault;
pub use feature::serving;
pub use fetch::fetching;
pub use laws::{
    events_follow, manifests_are_made_again, opt_outs_hold, outbox_follows, preferences_follow,
    steps_stay_sound, values_are_served, values_have_types,
};
pub use linked_manifest::LinkedManifest;
pub use manifest::setting_manifest;
pub use opt_in::opting_in;
pub use opt_out::opting_out;
pub use participate::participating;
pub use preferences::listing_preferences;
pub use reset::resetting;
pub use run_context::RunContext;
pub use session::{Session, SessionChange};
pub use show::showing;
pub use write_manifest::writing_manifest;
