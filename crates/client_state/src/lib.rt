//! The state of a client with its parts, the enrolment, the counts of events, the outbox of changes of enrolments and the
//! preferences: its rows in a store, its one encoding, what changes its rows to those of the next state, what follows a change of
//! the enrolment, how many bytes it is encoded in, and the state of rows.
#![tactic(auto)]

mod boxed_change;
mod changes;
mod client_state;
mod following;
mod holders;
mod laws;
mod old_form;
mod preference_changes;
mod preference_setting;
mod reading;
mod rows;
mod sections;
mod sizes;
mod state_change;

pub use boxed_change::BoxedChange;
pub use changes::{changes_to, whole_batch};
pub use client_state::ClientState;
pub use following::follow;
pub use laws::{empty_parts, one_encoding, one_state};
pub use old_form::{migration, needs_migration};
pub use preference_setting::set_preference;
pub use reading::client_state_of;
pub use sizes::{ClientSizes, sizes_after, sizes_of};
pub use state_change::{NextEnrolment, NextEvents, StateChange};
