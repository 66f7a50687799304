// Equality of states: they are equal where they are the same in each part.
ghost use Rattle.std.specs.Prelude.{◌≡◌, bytes_eq};
ghost use Rattle.std.specs.Cmp.Lexicographic.{pointwise};
ghost use Rattle.recipe_reader.specs.Equal.{recipe_eq};
ghost use Rattle.enrol_states.specs.Equal.{enrolled_eq, not_enrolled_eq, disqualified_eq, cause_eq, pending_eq, client_eq, recipes_eq};

use crate::state::{Row, State};
use crate::status::{DisqualifiedReason, EnrolledReason, ErrorCause, NotEnrolledReason, Status};
use recipe_reader::Recipes;
use uuid::Uuid;

impl PartialEq for Status {
    ghost use Rattle.std.specs.Cmp.{partial_equiv_from_equiv};
    ghost use Rattle.enrol_states.specs.Equal.{status_eq};
    ghost use Rattle.enrol_states.specs.Equals.{status_equivalence};

    ghost eq = { λ s t. status_eq s t };

    ghost laws = { partial_equiv_from_equiv status_equivalence };

    fn eq(&self, other: &Status) -> bool {
        match (self, other) {
            (
                Status::Enrolled { reason, branch },
                Status::Enrolled {
                    reason: other_reason,
                    branch: other_branch,
                },
            ) => same_enrolled(*reason, *other_reason) && branch == other_branch,
            (
                Status::NotEnrolled { reason },
                Status::NotEnrolled {
                    reason: other_reason,
                },
            ) => same_not_enrolled(*reason, *other_reason),
            (
                Status::Disqualified { reason, branch },
                Status::Disqualified {
                    reason: other_reason,
                    branch: other_branch,
                },
            ) => same_disqualified(*reason, *other_reason) && branch == other_branch,
            (
                Status::WasEnrolled { branch, ended },
                Status::WasEnrolled {
                    branch: other_branch,
                    ended: other_ended,
                },
            ) => branch == other_branch && ended == other_ended,
            (Status::Error { cause }, Status::Error { cause: other_cause }) => {
                same_cause(*cause, *other_cause)
            }
            _ => false,
        }
    }
}

fn same_enrolled(left: EnrolledReason, right: EnrolledReason) -> bool
    ensures { result ≡ enrolled_eq left right }
{
    left == right
}

fn same_not_enrolled(left: NotEnrolledReason, right: NotEnrolledReason) -> bool
    ensures { result ≡ not_enrolled_eq left right }
{
    left == right
}

fn same_disqualified(left: DisqualifiedReason, right: DisqualifiedReason) -> bool
    ensures { result ≡ disqualified_eq left right }
{
    left == right
}

fn same_cause(left: ErrorCause, right: ErrorCause) -> bool
    ensures { result ≡ cause_eq left right }
{
    left == right
}

impl PartialEq for Row {
    ghost use Rattle.std.specs.Cmp.{partial_equiv_from_equiv};
    ghost use Rattle.enrol_states.specs.Equal.{row_eq};
    ghost use Rattle.enrol_states.specs.Equals.{row_equivalence};

    ghost eq = { λ r q. row_eq r q };

    ghost laws = { partial_equiv_from_equiv row_equivalence };

    fn eq(&self, other: &Row) -> bool {
        self.slug == other.slug && self.status == other.status
    }
}

impl PartialEq for State {
    ghost use Rattle.std.specs.Cmp.{partial_equiv_from_equiv};
    ghost use Rattle.enrol_states.specs.Equal.{state_eq};
    ghost use Rattle.enrol_states.specs.Equals.{state_equivalence};

    ghost eq = { λ s t. state_eq s t };

    ghost laws = { partial_equiv_from_equiv state_equivalence };

    fn eq(&self, other: &State) -> bool {
        same_clients(self, other) && same_recipes(self, other)
    }
}

fn same_clients(left: &State, right: &State) -> bool
    ensures { result ≡ client_eq left.now right.now }
{
    same_ids(left.id, right.id)
        && left.installed == right.installed
        && left.updated == right.updated
        && left.version == right.version
        && left.experiments == right.experiments
        && left.rollouts == right.rollouts
}

fn same_ids(left: Uuid, right: Uuid) -> bool
    ensures { result ≡ bytes_eq left right }
{
    left == right
}

fn same_recipes(left: &State, right: &State) -> bool
    ensures { result ≡ recipes_eq left.now right.now }
{
    left.opted_out == right.opted_out
        && left.coenrolling == right.coenrolling
        && left.live == right.live
        && same_pending(&left.pending, &right.pending)
        && left.rows == right.rows
}

fn same_pending(left: &Option<Recipes>, right: &Option<Recipes>) -> bool
    ensures { result ≡ pending_eq left.now right.now }
{
    match (left, right) {
        (None, None) => true,
        (Some(left), Some(right)) => left == right,
        _ => false,
    }
}
