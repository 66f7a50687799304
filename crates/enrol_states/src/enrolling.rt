// The rows and opt-outs of a client that is enrolled in a branch that its user chose.
ghost use Rattle.std.specs.Prelude.{◌≡◌, ◌<◌, length, slice_set, IfOk};
ghost use Rattle.sequences.specs.ListParts.{IsPart};
ghost use Rattle.enrol_states.specs.Order.{Rise};
ghost use Rattle.enrol_states.specs.State.{slugs_of};
ghost use Rattle.enrol_states.specs.Commands.{after_opt_in, without_text, with_row, opted_in};
ghost use Rattle.enrol_states.specs.NextStates.{HasParts};

use crate::next_state::NextState;
use crate::state::{Row, State};
use crate::status::{EnrolledReason, Status};
use plain_text::Slug;
use sequences::{NextList, SharedList};
use std::alloc::AllocError;

/// The state in which the client is enrolled in the branch that its user chose.
pub(crate) fn enrolled(
    state: &mut State,
    slug: &Slug,
    branch: &Slug,
) -> Result<NextState, AllocError>
    requires rows { Rise (slugs_of state.old.rows) }
    requires opted_out { Rise state.old.opted_out }
    ensures same { state.new ≡ state.old }
    ensures state { IfOk result (λ next. next.state ≡ after_opt_in state.old slug.now branch.now) }
    ensures parts { IfOk result (HasParts state.old) }
{
    let opted_out = without_slug(&mut state.opted_out, slug)?;
    let row = row_opted_in(slug, branch)?;
    let rows = with_row(&mut state.rows, row)?;
    state.with_next(opted_out, rows)
}

/// The slugs without this one.
fn without_slug(slugs: &mut SharedList<Slug>, slug: &Slug) -> Result<NextList<Slug>, AllocError>
    requires { Rise slugs.old }
    ensures same { slugs.new ≡ slugs.old }
    ensures others { IfOk result (λ next. next.list ≡ without_text slug.now slugs.old) }
    ensures part { IfOk result (λ next. IsPart next.part slugs.old next.list) }
{
    match slugs.as_slice().binary_search(slug) {
        Ok(place) => slugs.removed(place),
        Err(_) => NextList::same(slugs),
    }
}

fn row_opted_in(slug: &Slug, branch: &Slug) -> Result<Row, AllocError>
    ensures { IfOk result (λ r. r ≡ opted_in slug.now branch.now) }
{
    Ok(Row {
        slug: slug.clone()?,
        status: Status::Enrolled {
            reason: EnrolledReason::OptIn,
            branch: branch.clone()?,
        },
    })
}

/// The rows with one more, in the place of that with its slug.
fn with_row(rows: &mut SharedList<Row>, row: Row) -> Result<NextList<Row>, AllocError>
    requires { Rise (slugs_of rows.old) }
    ensures same { rows.new ≡ rows.old }
    ensures rows { IfOk result (λ next. next.list ≡ with_row row rows.old) }
    ensures part { IfOk result (λ next. IsPart next.part rows.old next.list) }
{
    match rows
        .as_slice()
        .binary_search_by(|other| other.slug.cmp(&row.slug))
    {
        Ok(place) => with_row_at(rows, place, row),
        Err(place) => rows.inserted(place, row),
    }
}

/// The rows with another in the place of one. Where it is the same row, they are shared.
pub(crate) fn with_row_at(
    rows: &mut SharedList<Row>,
    place: usize,
    row: Row,
) -> Result<NextList<Row>, AllocError>
    requires { place < length rows.old }
    ensures same { rows.new ≡ rows.old }
    ensures rows { IfOk result (λ next. next.list ≡ slice_set rows.old place row) }
    ensures part { IfOk result (λ next. IsPart next.part rows.old next.list) }
{
    let items = rows.as_slice();
    if items[place] == row {
        return NextList::same(rows);
    }
    rows.replaced(place, row)
}
