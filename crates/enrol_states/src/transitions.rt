// The transitions of a client's status.
ghost use Rattle.std.specs.Prelude.{◌≡◌, ◌≢◌, IfOk, option_map};
ghost use Rattle.enrol_states.specs.declared.status.Status.TheVariants as statuses;
ghost use Rattle.enrol_states.specs.declared.verdict.Verdict.TheVariants as verdicts;
ghost use Rattle.enrol_states.specs.declared.verdict.Outcome.TheVariants as outcomes;
ghost use Rattle.enrol_states.specs.Transitions.{CanOccur, outcome, outcome_outside, outcome_inside, outcome_qualified, outcome_disqualified, may_return, status_ended};
ghost use Rattle.recipe_reader.specs.Kinds.{has_branch};

use crate::status::{DisqualifiedReason, EnrolledReason, NotEnrolledReason, Status};
use crate::verdict::{Outcome, Verdict};
use plain_text::Slug;
use recipe_reader::{Kind, Recipe};
use std::alloc::{AllocError, Global};

/// How long an ended row is kept, in seconds: 365 days.
const YEAR: u64 = 31_536_000;

/// What follows for a client from its old status, or from having none, and from its verdict on a
/// live recipe. A pause is no verdict on a client that is enrolled. The one error is want of
/// memory.
pub fn candidate(
    alloc: Global,
    old: Option<&Status>,
    verdict: &Verdict,
    recipe: &Recipe,
) -> Result<Outcome, AllocError>
    requires { CanOccur (option_map (λ s. s.now) old) verdict.now }
    ensures { IfOk result (λ o. o ≡ outcome (option_map (λ s. s.now) old.entry) verdict.now recipe.now) }
{
    match old {
        None | Some(Status::NotEnrolled { .. } | Status::Error { .. }) => outside(verdict),
        Some(Status::Enrolled { reason, branch }) => inside(*reason, branch, verdict, recipe),
        Some(Status::Disqualified { reason, branch }) => {
            after_disqualification(*reason, branch, verdict, recipe)
        }
        Some(kept @ Status::WasEnrolled { .. }) => Ok(Outcome::Keep(kept.clone()?)),
    }
}

/// What follows for a client that never took part.
fn outside(verdict: &Verdict) -> Result<Outcome, AllocError>
    ensures { IfOk result (λ o. o ≡ outcome_outside verdict.now) }
{
    let reason = match verdict {
        Verdict::DifferentAppName => NotEnrolledReason::DifferentAppName,
        Verdict::DifferentChannel => NotEnrolledReason::DifferentChannel,
        Verdict::OptOut => NotEnrolledReason::OptOut,
        Verdict::EnrollmentsPaused => NotEnrolledReason::EnrollmentsPaused,
        Verdict::NotTargeted => NotEnrolledReason::NotTargeted,
        Verdict::NotSelected => NotEnrolledReason::NotSelected,
        Verdict::Failed(cause) => return Ok(Outcome::Keep(Status::Error { cause: *cause })),
        Verdict::Qualified(branch) => {
            return Ok(Outcome::Wish {
                won: Status::Enrolled {
                    reason: EnrolledReason::Qualified,
                    branch: branch.clone()?,
                },
                lost: Status::NotEnrolled {
                    reason: NotEnrolledReason::FeatureConflict,
                },
            });
        }
    };
    Ok(Outcome::Keep(Status::NotEnrolled { reason }))
}

/// What follows for a client that is enrolled in a branch.
fn inside(
    reason: EnrolledReason,
    branch: &Slug,
    verdict: &Verdict,
    recipe: &Recipe,
) -> Result<Outcome, AllocError>
    requires { verdict.now ≢ verdicts.EnrollmentsPaused }
    ensures { IfOk result (λ o. o ≡ outcome_inside reason branch.now verdict.now recipe.now) }
{
    match verdict {
        Verdict::OptOut => disqualified(DisqualifiedReason::OptOut, branch),
        Verdict::DifferentAppName | Verdict::DifferentChannel | Verdict::NotTargeted => {
            disqualified(DisqualifiedReason::NotTargeted, branch)
        }
        Verdict::NotSelected => disqualified(DisqualifiedReason::NotSelected, branch),
        Verdict::Failed(_) => disqualified(DisqualifiedReason::Error, branch),
        Verdict::Qualified(_) => qualified(reason, branch, recipe),
        Verdict::EnrollmentsPaused => unreachable!(),
    }
}

/// What follows for a client that qualifies and is enrolled in a branch.
fn qualified(reason: EnrolledReason, branch: &Slug, recipe: &Recipe) -> Result<Outcome, AllocError>
    ensures { IfOk result (λ o. o ≡ outcome_qualified reason branch.now (has_branch recipe.now branch.now)) }
{
    if !recipe.has_branch(branch.text()) {
        return disqualified(DisqualifiedReason::Error, branch);
    }
    Ok(Outcome::Wish {
        won: Status::Enrolled {
            reason,
            branch: branch.clone()?,
        },
        lost: disqualification(DisqualifiedReason::FeatureConflict, branch)?,
    })
}

/// The client is disqualified in the branch.
fn disqualified(reason: DisqualifiedReason, branch: &Slug) -> Result<Outcome, AllocError>
    ensures { IfOk result (λ o. o ≡ outcomes.Keep (statuses.Disqualified reason branch.now)) }
{
    Ok(Outcome::Keep(disqualification(reason, branch)?))
}

fn disqualification(reason: DisqualifiedReason, branch: &Slug) -> Result<Status, AllocError>
    ensures { IfOk result (λ s. s ≡ statuses.Disqualified reason branch.now) }
{
    Ok(Status::Disqualified {
        reason,
        branch: branch.clone()?,
    })
}

/// What follows for a client that was disqualified in a branch: a rollout may come back.
fn after_disqualification(
    reason: DisqualifiedReason,
    branch: &Slug,
    verdict: &Verdict,
    recipe: &Recipe,
) -> Result<Outcome, AllocError>
    ensures { IfOk result (λ o. o ≡ outcome_disqualified reason branch.now verdict.now recipe.now) }
{
    match verdict {
        Verdict::Qualified(chosen) if may_return(reason, recipe.kind()) => Ok(Outcome::Wish {
            won: Status::Enrolled {
                reason: EnrolledReason::Qualified,
                branch: chosen.clone()?,
            },
            lost: disqualification(reason, branch)?,
        }),
        _ => disqualified(reason, branch),
    }
}

/// Whether what disqualified a client of a recipe of the kind may pass: a rollout's range grows,
/// and its targeting may hold again.
fn may_return(reason: DisqualifiedReason, kind: Kind) -> bool
    ensures { result ≡ may_return reason kind }
{
    match (reason, kind) {
        (DisqualifiedReason::NotSelected | DisqualifiedReason::NotTargeted, Kind::Rollout) => true,
        _ => false,
    }
}

/// What stays of a status where there is no live recipe: what the client was enrolled in is kept
/// for 365 days. The one error is want of memory.
pub fn ended(alloc: Global, old: &Status, now: u64) -> Result<Option<Status>, AllocError>
    ensures { IfOk result (λ s. s ≡ status_ended old.now now) }
{
    match old {
        Status::Enrolled { branch, .. } | Status::Disqualified { branch, .. } => {
            Ok(Some(Status::WasEnrolled {
                branch: branch.clone()?,
                ended: now,
            }))
        }
        Status::NotEnrolled { .. } | Status::Error { .. } => Ok(None),
        Status::WasEnrolled { ended, .. } => {
            if now.saturating_sub(*ended) >= YEAR {
                Ok(None)
            } else {
                Ok(Some(old.clone()?))
            }
        }
    }
}
