// A change of a state, built before anything of it is written.
use client_state::{BoxedChange, ClientSizes};
use row_store::Ready;

/// The parts that change, with the sizes of the state after it, and the changed rows, ready to be committed.
#[derive(Drop)]
pub struct Change {
    pub(crate) parts: BoxedChange,
    pub(crate) sizes: Box<ClientSizes>,
    pub(crate) ready: Ready,
}
