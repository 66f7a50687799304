//! How calls of the program are made.
use crate::faults::Faults;

/// The moment of calls, unless a scenario says another.
const NOW: u64 = 1_700_000_000;

/// How many bytes a side may have, and how many may be written and said, unless a scenario says another number.
const ROOM: usize = 65_536;

/// How many bytes of the script the source gives at once, unless a scenario says another number.
const PIECE: usize = 4096;

/// How the next call of the program is made.
#[derive(Clone, Copy)]
pub(crate) struct Outside {
    pub(crate) moment: u64,
    pub(crate) room: usize,
    pub(crate) piece: usize,
    /// The calls that fail in the next call of the program, and in none behind it.
    pub(crate) faults: Faults,
    /// Whether the next call of the program, and none behind it, finds the host of the last one.
    pub(crate) stays: bool,
}

impl Outside {
    /// How calls are made, unless a scenario says otherwise.
    pub(crate) fn usual() -> Outside {
        Outside {
            moment: NOW,
            room: ROOM,
            piece: PIECE,
            faults: Faults::none(),
            stays: false,
        }
    }
}
