//! Scenarios of the layers that keep a state, which stand on standard input: hosts in memory, journals on their sides, pairs of
//! sides, row stores, batches, and the rows and the encoding of states. A line tells of each scenario that it passes, or what
//! was found where something else is wanted. `lines` says how a scenario is written.
#![tactic(auto)]

mod batches;
mod hosts;
mod inputs;
mod judging;
mod lines;
mod row_stores;
mod scenario;
mod states;
mod stores;

use lines::tell_all;
use row_tables::Found;
use std::alloc::AllocError;
use std::io;

fn main(rt: HostRuntime) -> io::Result<()> {
    let text = io::read_to_string(rt.alloc(), rt.reader())?;
    let mut report = Found::new(rt.alloc());
    tell_all(rt.alloc(), &text, &mut report);
    if !report.is_whole() {
        return Err(AllocError.into());
    }
    print!(rt; "{}", report.as_str())
}
