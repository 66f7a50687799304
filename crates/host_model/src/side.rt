// The two sides of a host's disk.

/// A side of a host's disk.
#[derive(Clone, Copy, Debug, PartialEq, Eq)]
pub enum Side {
    Left,
    Right,
}
