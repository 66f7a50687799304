//! Statuses of each kind in words. Why a client isn't enrolled, what can't be judged and when an enrolment ended don't matter
//! where a status is read.
use crate::inputs::slug;
use enrol_states::{DisqualifiedReason, EnrolledReason, ErrorCause, NotEnrolledReason, Status};
use row_tables::{Fault, Found, cut};
use std::alloc::Global;
use std::fmt::Debug;

/// The status of a text: a word, of a disqualification the reason, and the branch where it has one.
pub(crate) fn status(alloc: Global, text: &str) -> Result<Status, Fault> {
    let (word, rest) = cut(text);
    match word {
        "NotEnrolled" => Ok(Status::NotEnrolled {
            reason: NotEnrolledReason::NotSelected,
        }),
        "Error" => Ok(Status::Error {
            cause: ErrorCause::NoUnit,
        }),
        "Enrolled" => enrolled(alloc, EnrolledReason::Qualified, rest),
        "OptedIn" => enrolled(alloc, EnrolledReason::OptIn, rest),
        "Disqualified" => disqualified(alloc, rest),
        "WasEnrolled" => was_enrolled(alloc, rest),
        _ => Err(Fault::NoRow),
    }
}

fn enrolled(alloc: Global, reason: EnrolledReason, branch: &str) -> Result<Status, Fault> {
    let branch = slug(alloc, branch)?;
    Ok(Status::Enrolled { reason, branch })
}

fn disqualified(alloc: Global, text: &str) -> Result<Status, Fault> {
    let (reason, branch) = cut(text);
    let reason = disqualified_reason(reason)?;
    let branch = slug(alloc, branch)?;
    Ok(Status::Disqualified { reason, branch })
}

fn disqualified_reason(text: &str) -> Result<DisqualifiedReason, Fault> {
    match text {
        "Error" => Ok(DisqualifiedReason::Error),
        "FeatureConflict" => Ok(DisqualifiedReason::FeatureConflict),
        "NotSelected" => Ok(DisqualifiedReason::NotSelected),
        "NotTargeted" => Ok(DisqualifiedReason::NotTargeted),
        "OptOut" => Ok(DisqualifiedReason::OptOut),
        _ => Err(Fault::NoRow),
    }
}

fn was_enrolled(alloc: Global, branch: &str) -> Result<Status, Fault> {
    let branch = slug(alloc, branch)?;
    Ok(Status::WasEnrolled { branch, ended: 5 })
}

/// Adds a status, with why it is so.
pub(crate) fn add_status(status: &Status, found: &mut Found) {
    match status {
        Status::Enrolled { reason, branch } => {
            add_named(found, "Enrolled ", reason);
            found.texts(&[" ", branch.text()])
        }
        Status::NotEnrolled { reason } => add_named(found, "NotEnrolled ", reason),
        Status::Disqualified { reason, branch } => {
            add_named(found, "Disqualified ", reason);
            found.texts(&[" ", branch.text()])
        }
        Status::WasEnrolled { branch, ended } => {
            found.texts(&["WasEnrolled ", branch.text(), " "]);
            found.displayed(ended)
        }
        Status::Error { cause } => add_named(found, "Error ", cause),
    }
}

// Adds a name, and why it is so.
fn add_named<T: Debug>(found: &mut Found, name: &str, reason: &T) {
    found.text(name);
    found.debugged(reason)
}
