//! Sampling: which clients take part in an experiment, and in which of its branches.
//!
//! A client's text is hashed to a point of 48 bits. A bucket range and a list of branch ratios each
//! divide the points among themselves. Every call is exact over whole numbers, and takes no memory.
#![tactic(auto)]

mod branches;
mod buckets;
mod points;

pub use branches::choose_branch;
pub use buckets::in_bucket;
pub use points::point;
