//! The context of an application, and the targeting attributes of a client in it.
#![tactic(auto)]

mod context;
mod custom;
mod enrolments;
mod entering;
mod events;
mod key;
mod laws;
mod locale;
mod members;
mod named;
mod reading;
mod targeting;

pub use context::Context;
pub use events::with_events;
pub use key::ContextKey;
pub use laws::{attributes_are_by_table, counts_are_attributes};
pub use named::NamedTexts;
pub use reading::{ContextFault, read_context};
pub use targeting::{attributes, set_already_enrolled, shared_attributes};
