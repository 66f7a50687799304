//! Scenarios of feature manifests, which stand on standard input: texts of types, tables of objects, modules, linked files,
//! values of types, and defaults laid over one another. A line tells of each scenario that it passes, or of each of its rows
//! what was found and what was wanted. `scenario` says how one is written.
#![tactic(auto)]

mod chains;
mod judging;
mod linked;
mod modules;
mod refusals;
mod scenario;
mod single_files;
mod tables;
mod trees;
mod values;

use judging::judge_lines;
use row_tables::Found;
use std::io;

fn main(rt: HostRuntime) -> io::Result<()> {
    let text = io::read_to_string(rt.alloc(), rt.reader())?;
    let mut report = Found::new(rt.alloc());
    judge_lines(rt.alloc(), &text, &mut report)?;
    print!(rt; "{}", report.as_str())
}
