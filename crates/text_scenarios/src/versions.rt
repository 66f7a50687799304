//! Rows on the order of versions.
use row_tables::{Fault, Found};
use version_compare::compare;

/// How two versions compare, in both orders. Row: the versions with a bar between them.
pub(crate) fn find_order(input: &str, found: &mut Found) -> Result<(), Fault> {
    let (first, second) = input.split_once('|').ok_or(Fault::NoRow)?;
    let (there, back) = (compare(first, second), compare(second, first));
    found.debugged(&there);
    found.text(" ");
    Ok(found.debugged(&back))
}

/// Adds the first pair that doesn't compare as the ranks of its versions, or `as ranked`. Row: versions with ` < ` between them, or
/// ` = ` where the rank is the same.
pub(crate) fn add_chain(input: &str, found: &mut Found) {
    let mut rank = 0u32;
    for first in input.split(' ') {
        match first {
            "<" => rank = rank.saturating_add(1),
            "=" => {}
            _ => {
                if let Some(second) = first_unranked(input, first, rank) {
                    return found.texts(&[first, " and ", second]);
                }
            }
        }
    }
    found.text("as ranked")
}

// The first version to which this one doesn't compare as their ranks.
fn first_unranked<'a>(input: &'a str, version: &str, at: u32) -> Option<&'a str> {
    let mut rank = 0u32;
    for second in input.split(' ') {
        match second {
            "<" => rank = rank.saturating_add(1),
            "=" => {}
            _ => {
                if compare(version, second) != at.cmp(&rank) {
                    return Some(second);
                }
            }
        }
    }
    None
}
