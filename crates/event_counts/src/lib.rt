//! Counts of what a user did, by name, in lists of hours, days and weeks that turn with time: how an event is counted, what a
//! moment sees of the counts, and the rows that keep them in a store.
#![tactic(auto)]

mod counted_event;
mod counting;
mod counts;
mod fault;
mod interval;
mod laws;
mod name_counts;
mod number_bytes;
mod reading;
mod ring;
mod row_changes;
mod rows;
mod searching;
mod shared_counts;
mod size;
mod viewing;

pub use counted_event::CountedEvent;
pub use counts::Counts;
pub use fault::{CountFault, CountsFault};
pub use interval::Interval;
pub use laws::{one_list_of_rows, rows_have_728_bytes, views_add_up};
pub use name_counts::NameCounts;
pub use reading::counts_of;
pub use row_batches::StoreRow;
