//! Rows of a store on the two sides of a host's disk: a finite map from keys to values, over every pair of images that a crash
//! may leave.
#![tactic(auto)]

mod copying;
mod faults;
mod folding;
mod laws;
mod ready;
mod store;
mod writing;

pub use faults::RowMakeFault;
pub use laws::one_map;
pub use pair_store::PairFault;
pub use ready::Ready;
pub use store::RowStore;
