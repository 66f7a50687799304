// What stands on a side.
ghost use Rattle.std.specs.Prelude.{◌≡◌};

use gate_journal::{Journal, Payloads};
use host_model::Side;

/// A side that is open, with its payloads.
#[derive(Drop)]
pub(crate) struct Records {
    pub(crate) side: Side,
    pub(crate) journal: Journal,
    pub(crate) payloads: Payloads,
    ghost of_side: { side ≡ journal.side },
}

/// What is found on a side.
#[derive(Drop)]
pub(crate) enum Found {
    /// No byte.
    Empty,
    /// A first byte other than 1.
    Shut,
    /// At least one payload.
    Open(Records),
    /// A first byte 1, and no payload that can be read.
    Damaged,
}

/// The side that counts, and whether the other one is open too.
#[derive(Drop)]
pub(crate) struct Choice {
    pub(crate) records: Records,
    pub(crate) is_other_open: bool,
}
