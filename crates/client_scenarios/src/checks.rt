//! What is wanted of the last call.
use crate::answers::tail;
use crate::images::{judge_altered, judge_images};
use crate::part::add_text;
use crate::stops::judge_faults;
use crate::tally::{Place, Tally};
use crate::world::World;
use host_model::Side;
use plain_text::read_number;
use row_tables::{Bytes, Words};

/// Tells what differs from what a line wants.
pub(crate) fn judge(
    world: &World<'_>,
    tally: &mut Tally,
    place: Place<'_>,
    word: &str,
    words: &mut Words<'_>,
) {
    match word {
        "exit" => tally.judge(
            place,
            u64::from(world.status.code()),
            u64::from(words.byte()),
        ),
        "same" => tally.judge_text(place, world.host.said_anew(), world.said_before.as_slice()),
        "sum" => judge_sum(world, tally, place, words),
        "unchanged" => tally.judge(place, world.host.writes(), 0),
        "grown" => judge_grown(world, tally, place),
        "wrote" => tally.judge(place, world.host.written(), words.number()),
        "holds" => judge_lengths(world, tally, place, words),
        "bytes" => judge_bytes(world, tally, place, words),
        "images" => {
            let images = (words.choices(), words.choices());
            judge_images(world, tally, &world.host, images, place, place);
        }
        "faults" => judge_faults(world, tally, place, words),
        "cuts" | "puts" => judge_altered(world, tally, place, word, words),
        _ => words.refuse(),
    }
}

fn judge_sum(world: &World<'_>, tally: &mut Tally, place: Place<'_>, words: &mut Words<'_>) {
    let sum = words.number();
    tally.judge(
        place,
        sum_behind_first(tail(world.host.said_anew(), words.rest())),
        sum,
    );
}

fn judge_grown(world: &World<'_>, tally: &mut Tally, place: Place<'_>) {
    if world.sides.bytes(Side::Left).len() <= world.length_before {
        tally.differ(place, b"a left side no longer than before", b"a longer one");
    }
}

fn judge_lengths(world: &World<'_>, tally: &mut Tally, place: Place<'_>, words: &mut Words<'_>) {
    for side in [Side::Left, Side::Right] {
        tally.judge(place, world.sides.bytes(side).len() as u64, words.number());
    }
}

fn judge_bytes(world: &World<'_>, tally: &mut Tally, place: Place<'_>, words: &mut Words<'_>) {
    let mut wanted = Bytes::new(world.alloc);
    let side = words.side();
    wanted.hex(words.rest());
    add_text(place.line.behind, &mut wanted);
    tally.judge_text(place, world.sides.bytes(side), wanted.as_slice());
}

// The sum of the numbers at the ends of the lines, of which the first doesn't count.
fn sum_behind_first(text: &[u8]) -> u64 {
    let mut sum = 0u64;
    for line in text.split(|byte| *byte == b'\n').skip(1) {
        sum = sum.saturating_add(last_number(line));
    }
    sum
}

// The number at the end of a line, or 0.
fn last_number(line: &[u8]) -> u64 {
    match line.iter().rposition(|byte| *byte == b' ') {
        Some(place) => line.get(place..).map_or(0, number_behind_first),
        None => 0,
    }
}

// The number behind the first byte, or 0.
fn number_behind_first(text: &[u8]) -> u64 {
    match text {
        [_, number @ ..] => read_number(number).unwrap_or(0),
        [] => 0,
    }
}
