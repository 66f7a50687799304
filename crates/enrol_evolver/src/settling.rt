// The rows of a plan whose wishes are settled.
ghost use Rattle.std.specs.Prelude.{◌≡◌, ◌<◌, length, map, filter, drop, slice_get, unwrap_or, false, IsTrue, IfOk, if◌then◌else◌};
ghost use Rattle.enrol_states.specs.Order.{Rise};
ghost use Rattle.enrol_evolver.specs.Wishes.{is_wish, settled_row, status_by};

use crate::plan::Plan;
use enrol_states::{Outcome, Row, Status};
use sequences::Sequence;
use std::alloc::{AllocError, Global};

/// The rows of the plan. `granted` has an answer for each wish, in their order.
pub(crate) fn settled_rows(
    alloc: Global,
    plan: Plan,
    granted: &[bool],
) -> Result<Sequence<Row>, AllocError>
    requires order { Rise (map (λ entry. entry.slug) plan.entries) }
    requires wishes { map (λ wish. wish.slug) plan.wishes ≡ map (λ entry. entry.slug) (filter (λ entry. is_wish entry.outcome) plan.entries) }
    requires granted { length granted.now ≡ length plan.wishes }
    ensures { IfOk result (λ rows. rows ≡ map (settled_row plan.wishes granted.now) plan.entries) }
{
    let mut rows = Sequence::new(alloc);
    let mut left = granted;
    for entry in plan.entries.into_vec() {
        let (status, rest) = settled(entry.outcome, left);
        rows.push(Row {
            slug: entry.slug,
            status,
        })?;
        left = rest;
    }
    Ok(rows)
}

/// The status after the outcome, where the first answer is for it if it is a wish, and the answers
/// that are left.
fn settled(outcome: Outcome, granted: &[bool]) -> (Status, &[bool])
    requires { IsTrue (is_wish outcome) → 0 < length granted.now }
    ensures status { result.0 ≡ status_by outcome (unwrap_or (slice_get granted.now 0) false) }
    ensures rest { result.1.now ≡ (if is_wish outcome then drop 1 granted.now else granted.now) }
{
    match outcome {
        Outcome::Keep(status) => (status, granted),
        Outcome::Wish { won, lost } => match granted {
            [true, rest @ ..] => (won, rest),
            [false, rest @ ..] => (lost, rest),
            [] => unreachable!(),
        },
    }
}
