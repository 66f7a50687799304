// The bytes of a side: a first byte, `NIMBUS1`, a generation from 0 to 2, and records. A record is a gate, the length
// of its payload in four bytes with the highest first, and the payload.

/// The first byte of a side that is open, and the gate of a record that counts.
pub(crate) const OPEN: u8 = 1;

/// A first byte, or a gate, that is not open.
pub(crate) const CLOSED: u8 = 0;

/// Where a side's records end at most, with the gate behind them.
pub const MAX_SIDE_END: u64 = 67_108_864;

/// Where the first gate is: behind the first byte, `NIMBUS1` and the generation.
pub(crate) const FIRST_GATE: u64 = 9;
