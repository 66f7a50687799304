//! Runs over what crashes and alterations leave.
use crate::answers::judge_call;
use crate::faults::Faults;
use crate::tally::{Place, Tally};
use crate::world::World;
use host_model::Choice;
use row_tables::{Alteration, CountingHost, Sides, Words};
use std::alloc::AllocError;

/// Tells what differs where a run over images that a host leaves is neither as the parts behind the line of a place say
/// nor as those behind the line of the next one.
pub(crate) fn judge_images(
    world: &World<'_>,
    tally: &mut Tally,
    host: &CountingHost,
    (left, right): (&[Choice], &[Choice]),
    place: Place<'_>,
    next: Place<'_>,
) {
    for left in left {
        for right in right {
            let sides = Sides::of(world.alloc, host, *left, *right);
            let (place, next) = (place.over(*left, *right), next.over(*left, *right));
            judge_image(world, tally, &sides, place, next);
        }
    }
}

fn judge_image(
    world: &World<'_>,
    tally: &mut Tally,
    sides: &Sides,
    place: Place<'_>,
    next: Place<'_>,
) {
    if place.line.number == next.line.number || !is_shown(world, sides, place) {
        judge_run(world, tally, sides, next);
    }
}

// Whether a run over sides is as the parts behind the line of a place say.
fn is_shown(world: &World<'_>, sides: &Sides, place: Place<'_>) -> bool {
    let mut tally = Tally::new(world.alloc);
    judge_run(world, &mut tally, sides, place);
    !tally.differs()
}

// Tells what differs where a run over sides isn't as the parts behind the line of a place say.
fn judge_run(world: &World<'_>, tally: &mut Tally, sides: &Sides, place: Place<'_>) {
    match sides.host(world.alloc, world.outside.room, 0) {
        Ok(mut host) => {
            let status = world.call_over(&mut host, "run", place.line.behind, Faults::none());
            judge_call(tally, place, status, host.said_anew());
        }
        Err(AllocError) => tally.lack_memory(),
    }
}

/// Tells which run of no line over an altered side ends otherwise than is wanted.
pub(crate) fn judge_altered(
    world: &World<'_>,
    tally: &mut Tally,
    place: Place<'_>,
    word: &str,
    words: &mut Words<'_>,
) {
    let (side, first, last) = (words.side(), words.count(), words.count());
    let byte = if word == "puts" {
        Some(words.byte())
    } else {
        None
    };
    for number in first..=last {
        let alteration = Alteration { side, number, byte };
        let place = place.in_turn(number as u64);
        judge_altered_at(world, tally, place, alteration, words.rest());
    }
}

fn judge_altered_at(
    world: &World<'_>,
    tally: &mut Tally,
    place: Place<'_>,
    alteration: Alteration,
    wanted: &str,
) {
    let mut sides = Sides::new(world.alloc);
    sides.copy(&world.sides);
    sides.alter(alteration);
    judge_status_over(world, tally, place, &sides, wanted);
}

// Tells where a run of no line over sides ends otherwise than is wanted.
fn judge_status_over(
    world: &World<'_>,
    tally: &mut Tally,
    place: Place<'_>,
    sides: &Sides,
    wanted: &str,
) {
    match sides.host(world.alloc, world.outside.room, 0) {
        Ok(mut host) => {
            let status = world.call_over(&mut host, "run", "", Faults::none());
            tally.judge_status(place, status, wanted);
        }
        Err(AllocError) => tally.lack_memory(),
    }
}
