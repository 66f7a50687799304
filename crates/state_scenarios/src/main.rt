//! Tables of rows on a client's state, which stand on standard input: how its enrolments come about, its outbox, its preferences
//! and its counts of events. A line tells of each table that its rows pass, or what was found and what was wanted. `row_tables`
//! says how a table is written. The kind of a row is a part of the state, a slash, and a name, and the functions that `find` and
//! those of the parts name say what a row of each kind is.
#![tactic(auto)]

mod attributes;
mod choices;
mod clients;
mod drills;
mod enrolment_rows;
mod events;
mod inputs;
mod outbox;
mod preferences;
mod records;
mod sampled;
mod shown;
mod statuses;
mod store_rows;
mod transitions;
mod verdicts;
mod wishes;

use row_tables::{Fault, Found, Kinds, Question, report_on};
use std::alloc::Global;
use std::io;

struct StateKinds;

impl Kinds for StateKinds {
    fn find(&self, alloc: Global, row: Question<'_>, found: &mut Found) -> Result<(), Fault> {
        let (part, kind) = row.kind.split_once('/').ok_or(Fault::NoRow)?;
        let input = row.text()?;
        match part {
            "enrolments" => find_of_enrolments(alloc, kind, row.given, input, found),
            "clients" => clients::find(alloc, kind, row.given, input, found),
            "events" => events::find(alloc, kind, row.given, input, found),
            "outbox" => outbox::find(alloc, kind, row.given, input, found),
            "preferences" => preferences::find(alloc, kind, input, found),
            _ => Err(Fault::NoRow),
        }
    }
}

fn find_of_enrolments(
    alloc: Global,
    kind: &str,
    given: &str,
    input: &str,
    found: &mut Found,
) -> Result<(), Fault> {
    match kind {
        "point" => sampled::find_point(input, found),
        "bucket" => sampled::find_bucket(input, found),
        "branch" => sampled::find_branch(input, found),
        "wishes" => wishes::find_granted(alloc, given, input, found),
        "transition" => transitions::find_outcome(alloc, given, input, found),
        "ended" => transitions::find_end(alloc, input, found),
        "recipes" => drills::find_recipes(alloc, input, found),
        "drill" => drills::find_part(alloc, input, found),
        _ => Err(Fault::NoRow),
    }
}

fn main(rt: HostRuntime) -> io::Result<()> {
    let text = io::read_to_string(rt.alloc(), rt.reader())?;
    let mut report = String::new(rt.alloc());
    report_on(rt.alloc(), &StateKinds, &text, &mut report)?;
    print!(rt; "{report}")
}
