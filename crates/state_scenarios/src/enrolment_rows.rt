//! Rows of enrolments, each a slug and its status.
ghost use Rattle.std.specs.Prelude.{◌↔◌, IsTrue};
ghost use Rattle.enrol_states.specs.Order.{Rise};
ghost use Rattle.enrol_states.specs.State.{slugs_of};

use crate::inputs::slug;
use crate::statuses::status;
use enrol_states::{Row, Status};
use row_tables::{Fault, cut};
use sequences::SharedList;
use std::alloc::Global;

/// Adds the rows of a text, as `SLUG STATUS` with commas between them, or `none`.
pub(crate) fn add_rows(alloc: Global, text: &str, rows: &mut SharedList<Row>) -> Result<(), Fault> {
    if text == "none" {
        return Ok(());
    }
    for row in text.split(", ") {
        let (name, status) = cut(row);
        add_row(alloc, name, status, rows)?;
    }
    Ok(())
}

/// Adds a row of a slug, with the status of a text.
pub(crate) fn add_row(
    alloc: Global,
    name: &str,
    text: &str,
    rows: &mut SharedList<Row>,
) -> Result<(), Fault> {
    let status = status(alloc, text)?;
    add_row_of(alloc, name, status, rows)
}

fn add_row_of(
    alloc: Global,
    name: &str,
    status: Status,
    rows: &mut SharedList<Row>,
) -> Result<(), Fault> {
    let slug = slug(alloc, name)?;
    Ok(rows.push(Row { slug, status })?)
}

/// Whether the slugs of rows rise.
pub(crate) fn rise(rows: &[Row]) -> bool
    ensures { IsTrue result ↔ Rise (slugs_of rows.now) }
{
    rows.is_sorted_by(|first, second| first.slug < second.slug)
}
