//! Calls of the program that stop at a call of what stands outside.
use crate::answers::{judge_answers, status_of};
use crate::faults::Faults;
use crate::images::judge_images;
use crate::line::Line;
use crate::part::Part;
use crate::tally::{Place, Tally};
use crate::world::World;
use host_model::Choice;
use row_tables::{CountingHost, Failed, Words};
use std::alloc::AllocError;

/// Each image of a side.
const EACH: &[Choice] = &[Choice::Old, Choice::New, Choice::Torn];

/// A call of the program in which one call of what stands outside fails.
#[derive(Clone, Copy)]
struct Stop<'a> {
    words: &'a str,
    /// The calls that are counted, and the number of the one that fails.
    calls: &'a str,
    faults: Faults,
    /// Whether the program isn't to come to it.
    is_behind: bool,
}

/// Tells what differs where one of so many calls fails, and where the one behind them would.
pub(crate) fn judge_faults(
    world: &World<'_>,
    tally: &mut Tally,
    place: Place<'_>,
    words: &mut Words<'_>,
) {
    let (calls, count) = (words.word(), words.number());
    for number in 1..=count.saturating_add(1) {
        let mut faults = Faults::none();
        faults.add(calls, number, words);
        let stop = Stop {
            words: words.rest(),
            calls,
            faults,
            is_behind: number > count,
        };
        if !judge_stop(world, tally, place.in_turn(number), stop) || tally.differs() {
            break;
        }
    }
}

// Gives whether the program has come to the call that fails.
fn judge_stop(world: &World<'_>, tally: &mut Tally, place: Place<'_>, stop: Stop<'_>) -> bool {
    match world.sides.host(world.alloc, world.outside.room, 0) {
        Ok(mut host) => judge_stop_over(world, tally, place, stop, &mut host),
        Err(AllocError) => {
            tally.lack_memory();
            false
        }
    }
}

fn judge_stop_over(
    world: &World<'_>,
    tally: &mut Tally,
    place: Place<'_>,
    stop: Stop<'_>,
    host: &mut CountingHost,
) -> bool {
    host.count_anew(stop.faults.host);
    let status = world.call_over(host, stop.words, place.line.behind, stop.faults);
    let comes = stop.comes(host.failed());
    let (wanted, most) = if comes {
        stop.end(host)
    } else {
        (status_of(place.line), u64::MAX)
    };
    tally.judge_status(place, status, wanted);
    judge_answers(tally, place, host.said_anew(), most);
    judge_states(world, tally, place, host);
    comes
}

// Tells what differs where a run over images isn't as the state that is to hold says, where there are states.
fn judge_states(world: &World<'_>, tally: &mut Tally, place: Place<'_>, host: &CountingHost) {
    let state = state_at(place.line, host.answers());
    if state.number == place.line.number {
        return;
    }
    let next = state_at(place.line, host.answers().saturating_add(1));
    let (state, next) = match host.failed() {
        Failed::No => (state, state),
        Failed::Say => (next, next),
        Failed::Disk => (state, next),
    };
    let images = (EACH, EACH);
    judge_images(world, tally, host, images, place.at(state), place.at(next));
}

impl Stop<'_> {
    // Whether the program has come to the call that fails, as it is to.
    fn comes(self, failed: Failed) -> bool {
        match self.calls {
            "source" | "shelf" => !self.is_behind,
            _ => !self.is_behind && failed != Failed::No,
        }
    }

    // How the call is to end that has come to it, and how many answers are to be said: none where the source fails, and
    // else those before.
    fn end(self, host: &CountingHost) -> (&'static str, u64) {
        match self.calls {
            "source" => ("SourceFault", 0),
            "shelf" => ("ShelfFault", host.answers()),
            _ if host.failed() == Failed::Say => ("SayFault", host.answers()),
            _ => ("DiskFault", host.answers()),
        }
    }
}

// The last state behind a line that holds from no later answer on, or the line itself where there is none.
fn state_at<'a>(line: Line<'a>, answers: u64) -> Line<'a> {
    let (mut next, mut state) = (line, line);
    for text in line.behind.lines() {
        next = next.next();
        let mut words = Words::new(text);
        match words.word() {
            _ if Part::of(text).is_some() => {}
            "state" if words.number() <= answers => state = next,
            "state" => {}
            _ => break,
        }
    }
    state
}
