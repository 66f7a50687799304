//! An outbox of enrolment changes: which changes one list of enrolment rows makes of another, and the numbered changes that a
//! host application hasn't confirmed yet, in memory and as rows of a store.
#![tactic(auto)]

mod change;
mod entries;
mod entry_changes;
mod fault;
mod laws;
mod outbox;
mod reading;
mod rows;
mod size;
mod slug_changes;
mod walking;

pub use change::{Change, ChangeKind};
pub use entries::Entries;
pub use fault::{AppendChangesFault, ConfirmFault, OutboxFault};
pub use laws::{kept_until_confirmed, one_list_of_rows};
pub use outbox::{LAST_NUMBER, Outbox};
pub use reading::outbox_of;
pub use slug_changes::changes_of;
