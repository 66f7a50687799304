// A status in bytes: a letter for its kind, and a letter for its reason or the moment of its end,
// and the branch.
ghost use Rattle.std.specs.Prelude.{◌≡◌, ◌≤◌, ◌++◌, length, codes, OnOk};
ghost use Rattle.state_values.specs.Statuses.{number, enrolled_mark, not_enrolled_mark, disqualified_mark, error_mark, status_bytes};
ghost use Rattle.state_values.specs.Statuses as spec;

use enrol_states::{DisqualifiedReason, EnrolledReason, ErrorCause, NotEnrolledReason, Status};
use plain_text::Slug;
use std::alloc::AllocError;

/// Adds the status in bytes.
pub fn push_status(bytes: &mut Vec<u8>, status: &Status) -> Result<(), AllocError>
    ensures { OnOk result (bytes.new.items ≡ bytes.old.items ++ status_bytes status.now) }
{
    match status {
        Status::Enrolled { reason, branch } => push_branch(bytes, enrolled_mark(*reason), branch),
        Status::NotEnrolled { reason } => bytes.extend_from_slice(&not_enrolled_mark(*reason)),
        Status::Disqualified { reason, branch } => {
            push_branch(bytes, disqualified_mark(*reason), branch)
        }
        Status::WasEnrolled { branch, ended } => push_ended(bytes, *ended, branch),
        Status::Error { cause } => bytes.extend_from_slice(&error_mark(*cause)),
    }
}

/// How many bytes the status has.
#[tactic(auto, using(crate::proofs::Names::slug_short), unfolding(crate::specs::Statuses::number))]
pub fn status_len(status: &Status) -> usize
    ensures len { result ≡ length (status_bytes status.now) }
    ensures short { result ≤ 89 }
{
    match status {
        Status::Enrolled { branch, .. } => 2 + branch.text().len(),
        Status::NotEnrolled { .. } => 2,
        Status::Disqualified { branch, .. } => 2 + branch.text().len(),
        Status::WasEnrolled { branch, .. } => 9 + branch.text().len(),
        Status::Error { .. } => 2,
    }
}

fn push_branch(bytes: &mut Vec<u8>, mark: [u8; 2], branch: &Slug) -> Result<(), AllocError>
    ensures { OnOk result (bytes.new.items ≡ bytes.old.items ++ (mark ++ branch.now)) }
{
    bytes.extend_from_slice(&mark)?;
    bytes.extend_from_slice(branch.text().as_bytes())
}

fn push_ended(bytes: &mut Vec<u8>, ended: u64, branch: &Slug) -> Result<(), AllocError>
    ensures { OnOk result (bytes.new.items ≡ bytes.old.items ++ (codes "W" ++ (number ended ++ branch.now))) }
{
    bytes.push(b'W')?;
    bytes.extend_from_slice(&number_bytes(ended))?;
    bytes.extend_from_slice(branch.text().as_bytes())
}

/// A number in eight bytes, the highest first.
#[tactic(auto, unfolding(crate::specs::Statuses::number))]
pub fn number_bytes(number: u64) -> [u8; 8]
    ensures { result ≡ spec.number number }
{
    number.to_be_bytes()
}

fn enrolled_mark(reason: EnrolledReason) -> [u8; 2]
    ensures { result ≡ enrolled_mark reason }
{
    match reason {
        EnrolledReason::Qualified => *b"EQ",
        EnrolledReason::OptIn => *b"EO",
    }
}

fn not_enrolled_mark(reason: NotEnrolledReason) -> [u8; 2]
    ensures { result ≡ not_enrolled_mark reason }
{
    match reason {
        NotEnrolledReason::DifferentAppName => *b"NA",
        NotEnrolledReason::DifferentChannel => *b"NC",
        NotEnrolledReason::EnrollmentsPaused => *b"NP",
        NotEnrolledReason::FeatureConflict => *b"NF",
        NotEnrolledReason::NotSelected => *b"NS",
        NotEnrolledReason::NotTargeted => *b"NT",
        NotEnrolledReason::OptOut => *b"NO",
    }
}

fn disqualified_mark(reason: DisqualifiedReason) -> [u8; 2]
    ensures { result ≡ disqualified_mark reason }
{
    match reason {
        DisqualifiedReason::Error => *b"DE",
        DisqualifiedReason::FeatureConflict => *b"DF",
        DisqualifiedReason::NotSelected => *b"DS",
        DisqualifiedReason::NotTargeted => *b"DT",
        DisqualifiedReason::OptOut => *b"DO",
    }
}

fn error_mark(cause: ErrorCause) -> [u8; 2]
    ensures { result ≡ error_mark cause }
{
    match cause {
        ErrorCause::Unparsed => *b"XU",
        ErrorCause::Faulted => *b"XF",
        ErrorCause::NotTruth => *b"XT",
        ErrorCause::NoUnit => *b"XN",
    }
}
