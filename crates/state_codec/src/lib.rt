//! The state of a client in bytes: its rows, its one encoding, and the state of both. An old form of the rows, which earlier
//! builds left, is read as well, and one batch makes the rows of it.
#![tactic(auto)]

mod changes;
mod laws;
mod old_form;
mod reading;
mod recipe_lists;
mod recipe_sizes;
mod row_item;
mod row_kind;
mod row_making;
mod row_reading;
mod rows;
mod sections;
mod single_row;
mod size;
mod state_reading;

pub use changes::{add_first_changes, add_later_changes, change_between, whole_batch, write_state};
pub use laws::{one_encoding, one_state};
pub use old_form::{migration, needs_migration};
pub use reading::read_state;
pub use recipe_lists::RecipeLists;
pub use row_batches::StoreRow;
pub use row_reading::{MAX_STATE_BYTES, state_of, state_of_parts};
pub use rows::{first_rows_of, later_rows_of, rows_of};
pub use size::{StateSizes, sizes_after, sizes_of, state_size};
pub use state_values::CodecFault;
