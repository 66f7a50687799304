// Whether a client takes part in experiments and in rollouts.
ghost use Rattle.std.specs.Prelude.{◌≡◌, IfOk, map, option_map};
ghost use Rattle.std.specs.List.{list_any};
ghost use Rattle.enrol_states.specs.Consistent.{IsConsistent};
ghost use Rattle.enrol_states.specs.Participation.{covers, covers_recipe};
ghost use Rattle.enrol_states.specs.Commands.{after_participate, rows_after_participate, row_left, leaves, switched, changes_at_opt_out, opted_out, row_opted_out};

use crate::state::{Row, State};
use crate::status::{DisqualifiedReason, NotEnrolledReason, Status};
use recipe_reader::{Kind, Recipe};
use sequences::{Sequence, SharedList};
use std::alloc::{AllocError, Global};

/// What a client may take part in, or not.
#[derive(Clone, Copy, Debug, PartialEq, Eq, Drop)]
pub enum Kinds {
    /// Experiments and rollouts.
    Both,
    Experiments,
    Rollouts,
}

/// The state in which the client takes part in recipes of these kinds, or not. Where it doesn't, whether or not it
/// did before, each enrolment in a live recipe of these kinds ends as an opt-out, and where the client
/// never took part in such a recipe, the opt-out is the reason. The rows are shared where none
/// changes, and so are all other lists.
pub fn participate(
    alloc: Global,
    state: &State,
    kinds: Kinds,
    on: bool,
) -> Result<State, AllocError>
    requires { IsConsistent state.now }
    ensures state { IfOk result (λ s. s ≡ after_participate state.now kinds on) }
    ensures consistent { IfOk result IsConsistent }
{
    let rows = rows_after(alloc, state, kinds, on)?;
    let mut next = state.with_rows(state.opted_out.clone()?, rows)?;
    next.experiments = kinds.switched(Kind::Experiment, on, state.experiments);
    next.rollouts = kinds.switched(Kind::Rollout, on, state.rollouts);
    Ok(next)
}

/// The rows of a client that takes part in recipes of these kinds, or not.
fn rows_after(
    alloc: Global,
    state: &State,
    kinds: Kinds,
    on: bool,
) -> Result<SharedList<Row>, AllocError>
    ensures { IfOk result (λ rs. rs ≡ rows_after_participate state.now kinds on) }
{
    if on {
        return state.rows.clone();
    }
    rows_left(alloc, state, kinds)
}

/// The rows after participation in these kinds has ended.
fn rows_left(alloc: Global, state: &State, kinds: Kinds) -> Result<SharedList<Row>, AllocError>
    ensures { IfOk result (λ rs. rs ≡ map (row_left state.now kinds) state.now.rows) }
{
    if !any_leaves(state, kinds) {
        return state.rows.clone();
    }
    let mut rows = Sequence::new(alloc);
    for row in state.rows.as_slice() {
        rows.push(row_left(state, kinds, row)?)?;
    }
    SharedList::from_sequence(alloc, rows)
}

/// Whether one of the rows is another after participation in these kinds has ended.
fn any_leaves(state: &State, kinds: Kinds) -> bool
    ensures { result ≡ list_any (leaves state.now kinds) state.now.rows }
{
    state
        .rows
        .as_slice()
        .iter()
        .any(|row| leaves(state, kinds, row))
}

/// The row after participation in these kinds has ended.
fn row_left(state: &State, kinds: Kinds, row: &Row) -> Result<Row, AllocError>
    ensures { IfOk result (λ r. r ≡ row_left state.now kinds row.now) }
{
    if leaves(state, kinds, row) {
        row.opted_out()
    } else {
        row.clone()
    }
}

/// Whether the row is another after participation in these kinds has ended.
fn leaves(state: &State, kinds: Kinds, row: &Row) -> bool
    ensures { result ≡ leaves state.now kinds row.now }
{
    row.status.changes_at_opt_out() && kinds.covers_recipe(state.live.get(row.slug.text()))
}

impl Kinds {
    /// Whether there is a recipe, and its kind is one of these.
    fn covers_recipe(self, recipe: Option<&Recipe>) -> bool
        ensures { result ≡ covers_recipe self (option_map (λ r. r.now) recipe.entry) }
    {
        match recipe {
            Some(recipe) => self.covers(recipe.kind()),
            None => false,
        }
    }

    /// Whether the kind is one of these.
    fn covers(self, kind: Kind) -> bool
        ensures { result ≡ covers self kind }
    {
        match self {
            Kinds::Both => true,
            Kinds::Experiments => kind == Kind::Experiment,
            Kinds::Rollouts => kind == Kind::Rollout,
        }
    }

    /// Participation of the kind, where that of these kinds is switched.
    fn switched(self, kind: Kind, on: bool, before: bool) -> bool
        ensures { result ≡ switched self kind on before }
    {
        if self.covers(kind) { on } else { before }
    }
}

impl Row {
    /// The row after an opt-out.
    pub(crate) fn opted_out(&self) -> Result<Row, AllocError>
        ensures { IfOk result (λ r. r ≡ row_opted_out self.now) }
    {
        Ok(Row {
            slug: self.slug.clone()?,
            status: self.status.opted_out()?,
        })
    }
}

impl Status {
    /// Whether an opt-out makes another status of it.
    fn changes_at_opt_out(&self) -> bool
        ensures { result ≡ changes_at_opt_out self.now }
    {
        match self {
            Status::Enrolled { .. } => true,
            Status::NotEnrolled { reason } => !matches!(reason, NotEnrolledReason::OptOut),
            Status::Disqualified { .. } | Status::WasEnrolled { .. } | Status::Error { .. } => {
                false
            }
        }
    }

    /// The status after an opt-out.
    fn opted_out(&self) -> Result<Status, AllocError>
        ensures { IfOk result (λ s. s ≡ opted_out self.now) }
    {
        match self {
            Status::Enrolled { branch, .. } => Ok(Status::Disqualified {
                reason: DisqualifiedReason::OptOut,
                branch: branch.clone()?,
            }),
            Status::NotEnrolled { .. } => Ok(Status::NotEnrolled {
                reason: NotEnrolledReason::OptOut,
            }),
            Status::Disqualified { .. } | Status::WasEnrolled { .. } | Status::Error { .. } => {
                self.clone()
            }
        }
    }
}
