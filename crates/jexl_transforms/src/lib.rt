//! The transforms of Jexl: a table of stored closures, and what the standard ones answer.
#![tactic(auto)]

mod answer;
mod buckets;
mod counts;
mod dates;
mod entry;
mod events;
mod laws;
mod numbers;
mod range;
mod table;
mod versions;

pub use answer::{CallFault, PushFault, Transform, TransformAnswer};
pub use buckets::bucket_transform;
pub use dates::date_transform;
pub use events::{event_nonzero_transform, event_seen_transform, event_sum_transform};
pub use laws::some_need_no_attributes;
pub use table::TransformTable;
pub use versions::version_transform;
