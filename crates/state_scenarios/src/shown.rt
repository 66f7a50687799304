//! States and parts of lists in words.
use crate::statuses::add_status;
use enrol_states::{Row, State};
use plain_text::Slug;
use row_tables::Found;
use sequences::ListPart;

/// Adds the opt-outs and the rows of a state, with commas between them, or `nothing`.
pub(crate) fn add_state(state: &State, found: &mut Found) {
    let (opted_out, rows) = (state.opted_out.as_slice(), state.rows.as_slice());
    if opted_out.is_empty() && rows.is_empty() {
        found.between(", ");
        found.text("nothing");
        return;
    }
    add_opted_out(opted_out, found);
    add_rows(rows, found)
}

fn add_opted_out(slugs: &[Slug], found: &mut Found) {
    for slug in slugs {
        add_out(slug.text(), found);
    }
}

fn add_out(slug: &str, found: &mut Found) {
    found.between(", ");
    found.texts(&["out ", slug])
}

fn add_rows(rows: &[Row], found: &mut Found) {
    for row in rows {
        add_row(row, found);
    }
}

fn add_row(row: &Row, found: &mut Found) {
    found.between(", ");
    found.texts(&[row.slug.text(), " "]);
    add_status(&row.status, found)
}

/// Adds what a client takes part in, and its opt-outs and rows.
pub(crate) fn add_parts(state: &State, found: &mut Found) {
    let part = match (state.experiments, state.rollouts) {
        (true, true) => "both",
        (true, false) => "experiments",
        (false, true) => "rollouts",
        (false, false) => "none",
    };
    found.text(part);
    add_state(state, found)
}

/// Adds the parts of the opt-outs and of the rows: of each its place, and how many items it has of the old and of the new list.
pub(crate) fn add_list_parts(opted_out: ListPart, rows: ListPart, found: &mut Found) {
    add_list_part(opted_out, found);
    found.text(", ");
    add_list_part(rows, found)
}

fn add_list_part(part: ListPart, found: &mut Found) {
    found.all_displayed(&[part.start, part.removed, part.added])
}
