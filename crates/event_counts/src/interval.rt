// The intervals over which events are counted.
ghost use Rattle.std.specs.Prelude.{◌≡◌};
ghost use Rattle.event_counts.specs.Intervals.{seconds, entry_count};

/// An interval over which events are counted. The intervals follow one another from the moment 0 on, which is the first second
/// of 1970.
#[derive(Clone, Copy, Debug, PartialEq, Eq)]
pub enum Interval {
    Hours,
    Days,
    Weeks,
}

impl Interval {
    /// How many seconds an interval has.
    pub fn seconds(self) -> u64
        ensures { result ≡ seconds self }
    {
        match self {
            Interval::Hours => 3_600,
            Interval::Days => 86_400,
            Interval::Weeks => 604_800,
        }
    }

    /// How many intervals are kept, the present one among them.
    pub fn entry_count(self) -> usize
        ensures { result ≡ entry_count self }
    {
        match self {
            Interval::Hours => 72,
            Interval::Days => 56,
            Interval::Weeks => 52,
        }
    }
}
