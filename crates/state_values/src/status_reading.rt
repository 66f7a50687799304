// A status, read from bytes.
ghost use Rattle.std.specs.Prelude.{◌≡◌};
ghost use Rattle.state_values.specs.Outcome.{Gives};
ghost use Rattle.state_values.specs.Reading.{first, enrolled_reason, not_enrolled_reason, disqualified_reason, error_cause, enrolled_in, not_enrolled_in, disqualified_in, was_enrolled_in, error_in, status_of_kind, status_in};

use crate::fault::CodecFault;
use crate::values::{number_in, slug_in};
use enrol_states::{DisqualifiedReason, EnrolledReason, ErrorCause, NotEnrolledReason, Status};
use std::alloc::Global;

/// The status that the bytes encode. `NotAState` comes where they begin none; bytes behind a status without a branch show when the
/// state is encoded again.
#[tactic(auto, unfolding(crate::specs::Reading::status_in))]
pub fn status_in(alloc: Global, bytes: &[u8]) -> Result<Status, CodecFault>
    ensures { Gives (λ s. s) result (status_in bytes.now) }
{
    let (kind, rest) = first(bytes)?;
    status_of_kind(alloc, kind, rest)
}

fn first(bytes: &[u8]) -> Result<(u8, &[u8]), CodecFault>
    ensures { Gives (λ p. (p.0, p.1.now)) result (first bytes.now) }
{
    match bytes {
        [first, rest @ ..] => Ok((*first, rest)),
        [] => Err(CodecFault::NotAState),
    }
}

#[tactic(auto, unfolding(crate::specs::Reading::status_of_kind))]
fn status_of_kind(alloc: Global, kind: u8, rest: &[u8]) -> Result<Status, CodecFault>
    ensures { Gives (λ s. s) result (status_of_kind kind rest.now) }
{
    match kind {
        b'E' => enrolled_in(alloc, rest),
        b'N' => not_enrolled_in(rest),
        b'D' => disqualified_in(alloc, rest),
        b'W' => was_enrolled_in(alloc, rest),
        b'X' => error_in(rest),
        _ => Err(CodecFault::NotAState),
    }
}

#[tactic(auto, unfolding(crate::specs::Reading::enrolled_in))]
fn enrolled_in(alloc: Global, bytes: &[u8]) -> Result<Status, CodecFault>
    ensures { Gives (λ s. s) result (enrolled_in bytes.now) }
{
    let (letter, branch) = first(bytes)?;
    let reason = enrolled_reason(letter)?;
    let branch = slug_in(alloc, branch)?;
    Ok(Status::Enrolled { reason, branch })
}

#[tactic(auto, unfolding(crate::specs::Reading::not_enrolled_in))]
fn not_enrolled_in(bytes: &[u8]) -> Result<Status, CodecFault>
    ensures { Gives (λ s. s) result (not_enrolled_in bytes.now) }
{
    let (letter, _) = first(bytes)?;
    let reason = not_enrolled_reason(letter)?;
    Ok(Status::NotEnrolled { reason })
}

#[tactic(auto, unfolding(crate::specs::Reading::disqualified_in))]
fn disqualified_in(alloc: Global, bytes: &[u8]) -> Result<Status, CodecFault>
    ensures { Gives (λ s. s) result (disqualified_in bytes.now) }
{
    let (letter, branch) = first(bytes)?;
    let reason = disqualified_reason(letter)?;
    let branch = slug_in(alloc, branch)?;
    Ok(Status::Disqualified { reason, branch })
}

#[tactic(auto, unfolding(crate::specs::Reading::was_enrolled_in, crate::specs::Reading::number_in))]
fn was_enrolled_in(alloc: Global, bytes: &[u8]) -> Result<Status, CodecFault>
    ensures { Gives (λ s. s) result (was_enrolled_in bytes.now) }
{
    if bytes.len() < 8 {
        return Err(CodecFault::NotAState);
    }
    let (ended, branch) = bytes.split_at(8);
    let ended = number_in(ended)?;
    let branch = slug_in(alloc, branch)?;
    Ok(Status::WasEnrolled { branch, ended })
}

#[tactic(auto, unfolding(crate::specs::Reading::error_in))]
fn error_in(bytes: &[u8]) -> Result<Status, CodecFault>
    ensures { Gives (λ s. s) result (error_in bytes.now) }
{
    let (letter, _) = first(bytes)?;
    let cause = error_cause(letter)?;
    Ok(Status::Error { cause })
}

fn enrolled_reason(letter: u8) -> Result<EnrolledReason, CodecFault>
    ensures { Gives (λ r. r) result (enrolled_reason letter) }
{
    match letter {
        b'Q' => Ok(EnrolledReason::Qualified),
        b'O' => Ok(EnrolledReason::OptIn),
        _ => Err(CodecFault::NotAState),
    }
}

fn not_enrolled_reason(letter: u8) -> Result<NotEnrolledReason, CodecFault>
    ensures { Gives (λ r. r) result (not_enrolled_reason letter) }
{
    match letter {
        b'A' => Ok(NotEnrolledReason::DifferentAppName),
        b'C' => Ok(NotEnrolledReason::DifferentChannel),
        b'P' => Ok(NotEnrolledReason::EnrollmentsPaused),
        b'F' => Ok(NotEnrolledReason::FeatureConflict),
        b'S' => Ok(NotEnrolledReason::NotSelected),
        b'T' => Ok(NotEnrolledReason::NotTargeted),
        b'O' => Ok(NotEnrolledReason::OptOut),
        _ => Err(CodecFault::NotAState),
    }
}

fn disqualified_reason(letter: u8) -> Result<DisqualifiedReason, CodecFault>
    ensures { Gives (λ r. r) result (disqualified_reason letter) }
{
    match letter {
        b'E' => Ok(DisqualifiedReason::Error),
        b'F' => Ok(DisqualifiedReason::FeatureConflict),
        b'S' => Ok(DisqualifiedReason::NotSelected),
        b'T' => Ok(DisqualifiedReason::NotTargeted),
        b'O' => Ok(DisqualifiedReason::OptOut),
        _ => Err(CodecFault::NotAState),
    }
}

fn error_cause(letter: u8) -> Result<ErrorCause, CodecFault>
    ensures { Gives (λ c. c) result (error_cause letter) }
{
    match letter {
        b'U' => Ok(ErrorCause::Unparsed),
        b'F' => Ok(ErrorCause::Faulted),
        b'T' => Ok(ErrorCause::NotTruth),
        b'N' => Ok(ErrorCause::NoUnit),
        _ => Err(CodecFault::NotAState),
    }
}
