// A slug that joins those that are opted out, and the rows of a slug that is.
ghost use Rattle.std.specs.Prelude.{◌≡◌, ◌≤◌, IfOk, length, map};
ghost use Rattle.sequences.specs.ListParts.{IsPart};
ghost use Rattle.enrol_states.specs.Order.{Rise, IsPlace};
ghost use Rattle.enrol_states.specs.State.{slugs_of};
ghost use Rattle.enrol_states.specs.Commands.{opted_out_of};
ghost use Rattle.enrol_states.specs.Joining.{Joins};

use crate::choices::OptOutFault;
use crate::enrolling::with_row_at;
use crate::state::{MAX_OPTED_OUT, Row};
use plain_text::Slug;
use sequences::{NextList, SharedList};
use std::alloc::AllocError;

/// The slugs with one more at its place, unless it is there.
pub(crate) fn with_slug(
    slugs: &mut SharedList<Slug>,
    slug: &Slug,
) -> Result<NextList<Slug>, OptOutFault>
    requires { Rise slugs.old }
    ensures same { slugs.new ≡ slugs.old }
    ensures slugs { Joins slugs.old slug.now result }
    ensures part { IfOk result (λ next. IsPart next.part slugs.old next.list) }
{
    match slugs.as_slice().binary_search(slug) {
        Ok(_) => Ok(NextList::same(slugs)?),
        Err(place) => with_slug_at(slugs, place, slug),
    }
}

/// The slugs with one more at a place, if there is room.
fn with_slug_at(
    slugs: &mut SharedList<Slug>,
    place: usize,
    slug: &Slug,
) -> Result<NextList<Slug>, OptOutFault>
    requires within { place ≤ length slugs.old }
    requires place { IsPlace slug.now slugs.old place }
    ensures same { slugs.new ≡ slugs.old }
    ensures slugs { Joins slugs.old slug.now result }
    ensures part { IfOk result (λ next. IsPart next.part slugs.old next.list) }
{
    if slugs.len() >= MAX_OPTED_OUT {
        return Err(OptOutFault::OptedOutLimit);
    }
    Ok(slugs.inserted(place, slug.clone()?)?)
}

/// The rows after an opt-out of the slug.
pub(crate) fn rows_opted_out_of(
    rows: &mut SharedList<Row>,
    slug: &Slug,
) -> Result<NextList<Row>, AllocError>
    requires { Rise (slugs_of rows.old) }
    ensures same { rows.new ≡ rows.old }
    ensures rows { IfOk result (λ next. next.list ≡ map (opted_out_of slug.now) rows.old) }
    ensures part { IfOk result (λ next. IsPart next.part rows.old next.list) }
{
    let items = rows.as_slice();
    match items.binary_search_by(|row| row.slug.cmp(slug)) {
        Ok(place) => {
            let row = items[place].opted_out()?;
            with_row_at(rows, place, row)
        }
        Err(_) => NextList::same(rows),
    }
}
