//! Rows on preferences: what joins, leaves and the user make of them, the rows that keep them and how these change, and what a
//! branch sets of those that variables are bound to.
mod bound;
mod kept;
mod manifests;
mod settings;
mod steps;

use pref_bindings::Prefs;
use row_tables::{Fault, Found};
use std::alloc::Global;

/// What is found of a row.
pub(crate) fn find(alloc: Global, kind: &str, input: &str, found: &mut Found) -> Result<(), Fault> {
    match kind {
        "read" => kept::find_reading(alloc, input, found),
        "bindings" => bound::find_bindings(alloc, input, found),
        "bound" => bound::find_bound(alloc, input, found),
        _ => find_after(alloc, kind, input, found),
    }
}

fn find_after(alloc: Global, kind: &str, input: &str, found: &mut Found) -> Result<(), Fault> {
    let mut prefs = Prefs::new(alloc);
    let outcome = find_over(alloc, &mut prefs, kind, input, found);
    drop(prefs);
    outcome
}

// What is found of a row over no preferences.
fn find_over(
    alloc: Global,
    prefs: &mut Prefs,
    kind: &str,
    input: &str,
    found: &mut Found,
) -> Result<(), Fault> {
    match kind {
        "steps" => steps::find_preferences(alloc, prefs, input, found),
        "known" => steps::find_known(alloc, prefs, input, found),
        "rows" => kept::find_rows(alloc, prefs, input, found),
        "changes" => kept::find_changes(alloc, prefs, input, found),
        _ => Err(Fault::NoRow),
    }
}
