//! The values of a client's state in bytes: statuses, recipes, participation, and what stands beside them; and what bytes say of
//! each. Numbers are 8 bytes, the highest first.
#![tactic(auto)]

mod fault;
mod participation;
mod record_text;
mod status;
mod status_reading;
mod values;

pub use fault::CodecFault;
pub use participation::{Participation, participation_byte, participation_in};
pub use record_text::recipe_text;
pub use status::{number_bytes, push_status, status_len};
pub use status_reading::status_in;
pub use values::{flag_in, id_in, number_in, recipe_in, slug_in, text_in};
