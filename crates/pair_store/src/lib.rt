//! One list of payloads on the two sides of a host's disk, over every pair of images that a crash may leave.
//!
//! The list stands on one side. Where it would pass a mark, the other side takes the whole anew by the next generation,
//! and then this one is closed: so the list is never full. A crash between the two leaves both sides open, of which the
//! one with the later generation counts.
#![tactic(auto)]

mod choice;
mod faults;
mod laws;
mod mark;
mod reading;
mod records;
mod repair;
mod sides;
mod store;

pub use faults::PairFault;
pub use laws::one_list;
pub use mark::{MAX_RECORD_END, MAX_WHOLE};
pub use store::PairStore;
