//! The scenarios of a theme, one after the other.
use crate::heading;
use crate::line::Line;
use crate::part::Part;
use crate::shelf::{File, add_file};
use crate::tally::{Place, Tally};
use crate::world::World;
use row_tables::Words;
use std::alloc::{AllocError, Global};

/// A theme: its name, its text, and the text with the files of each scenario.
#[derive(Clone, Copy)]
pub(crate) struct Theme<'a> {
    pub(crate) name: &'a str,
    pub(crate) text: &'a str,
    pub(crate) shared: &'a str,
}

/// Plays the scenarios of a theme whose names begin with `only`, and tells what differs from what is wanted.
pub(crate) fn play(alloc: Global, tally: &mut Tally, theme: Theme<'_>, only: &str) {
    match World::new(alloc) {
        Ok(mut world) => play_over(&mut world, tally, theme, only),
        Err(AllocError) => tally.lack_memory(),
    }
}

fn play_over<'a>(world: &mut World<'a>, tally: &mut Tally, theme: Theme<'a>, only: &str) {
    tally.needs(add_files(&mut world.files, theme.shared));
    world.share();
    let mut place = Place::before(theme.name, theme.text);
    for _ in theme.text.lines() {
        play_line(world, tally, &mut place, only);
    }
    tally.end_theme(theme.name);
}

// Adds the files that a text writes down. Whether memory is found for them.
fn add_files<'a>(files: &mut Vec<File<'a>>, text: &'a str) -> bool {
    let (mut line, mut all) = (Line::before(text), true);
    for _ in text.lines() {
        line = line.next();
        all = all && add_file(files, line);
    }
    all
}

// Goes on to the next line, and does what it says.
fn play_line<'a>(world: &mut World<'a>, tally: &mut Tally, place: &mut Place<'a>, only: &str) {
    place.line = place.line.next();
    let text = place.line.text;
    match (Part::of(text), text.strip_prefix("== ")) {
        (Some(part), _) if heading::takes(world.heading, part) => {}
        (Some(_), _) => refuse(tally, *place),
        (None, Some(name)) => {
            place.scenario = name;
            world.heading = "==";
            begin(world, tally, *place, only);
        }
        (None, None) if place.scenario.is_empty() => refuse(tally, *place),
        (None, None) => play_heading(world, tally, *place),
    }
}

// Begins the scenario, where it is to be played.
fn begin(world: &mut World<'_>, tally: &mut Tally, place: Place<'_>, only: &str) {
    tally.end();
    if place.scenario.starts_with(only) {
        tally.begin();
        world.begin(tally, place);
    }
}

// Does what a heading says, where the scenario is played.
fn play_heading<'a>(world: &mut World<'a>, tally: &mut Tally, place: Place<'a>) {
    let mut words = Words::new(place.line.text);
    world.heading = Words::new(place.line.text).word();
    if tally.is_playing() {
        heading::play(world, tally, place, &mut words);
    }
    if !words.are_known() {
        refuse(tally, place);
    }
}

fn refuse(tally: &mut Tally, place: Place<'_>) {
    tally.differ(place, place.line.text.as_bytes(), b"a line of a scenario");
}
