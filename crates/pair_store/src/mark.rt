// Where records end, and how long a whole is, at most.

/// Where a record ends at most, with the gate behind it. One that would end later makes a checkpoint.
pub const MAX_RECORD_END: u64 = 33_554_432;

/// How many bytes a payload has at most that stands for the whole list.
pub const MAX_WHOLE: usize = 16_777_216;
