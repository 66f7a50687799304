//! A journal of payloads on one side of a host's disk, over every image that a crash may leave.
//!
//! A side has a first byte, a header and records. It is open where its first byte is 1, and closed otherwise. Each
//! record stands behind a gate of one byte: it counts where the gate is 1, and the records end at any other gate. A
//! record is on the disk before its gate is opened by a write of its own, so a crash leaves it whole or not at all.
#![tactic(auto)]

mod faults;
mod format;
mod frame;
mod journal;
mod laws;
mod payloads;
mod reading;
mod writing;

pub use faults::{AppendFault, OpenFault};
pub use format::MAX_SIDE_END;
pub use frame::{Frame, FrameFault, MAX_PAYLOAD};
pub use journal::Journal;
pub use laws::one_reading;
pub use payloads::Payloads;
