// A range of buckets.

/// `count` buckets of `total`, from `start` on.
#[derive(Clone, Copy)]
pub struct Range {
    pub start: u32,
    pub count: u32,
    pub total: u32,
}
