//! The state of a client, and what commands and verdicts on recipes make of it.
#![tactic(auto)]

mod choices;
mod copying;
mod ending;
mod enrolling;
mod equality;
mod exclusive;
mod features;
mod joining;
mod laws;
mod next_state;
mod participation;
mod soundness;
mod state;
mod status;
mod transitions;
mod verdict;

pub use choices::{OptInFault, OptOutFault, opt_in, opt_out, reset};
pub use ending::end_enrolment;
pub use exclusive::is_exclusive;
pub use laws::equal_states_are_one;
pub use next_state::NextState;
pub use participation::{Kinds, participate};
pub use soundness::is_consistent;
pub use state::{MAX_OPTED_OUT, MAX_RECIPES, Row, State, id_fits, slug_fits};
pub use status::{DisqualifiedReason, EnrolledReason, ErrorCause, NotEnrolledReason, Status};
pub use transitions::{candidate, ended};
pub use verdict::{Outcome, Verdict};
