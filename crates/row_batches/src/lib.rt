//! The rows of a store and batches that change them: a finite map from keys to values, both any bytes, and what turns one
//! such map into the next.
#![tactic(auto)]

mod batch;
mod change;
mod fault;
mod laws;
mod merging;
mod parts;
mod reading;
mod room;
mod row_form;
mod row_map;
mod searching;
mod store_row;
mod tree;
mod tree_changes;
mod tree_rows;
mod walking;
mod writing;

pub use batch::Batch;
pub use change::RowChange;
pub use fault::BatchFault;
pub use laws::{between_makes, empty_between, one_encoding};
pub use reading::batch_of;
pub use row_form::RowForm;
pub use row_map::RowMap;
pub use store_row::StoreRow;
pub use walking::{add_changes, add_rows};
