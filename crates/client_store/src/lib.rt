//! The store of a client: its state, and the rows that hold it. A store is made or opened, and a change of the state is
//! written as the rows that it changes.
#![tactic(auto)]

mod change;
mod faults;
mod found_store;
mod laws;
mod making;
mod opening;
mod sized_state;
mod state_store;

pub use change::Change;
pub use faults::MakeFault;
pub use laws::{one_state, whole_states_stand};
pub use row_store::PairFault;
pub use sized_state::SizedState;
pub use state_store::StateStore;
