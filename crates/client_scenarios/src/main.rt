//! Scenarios of the client's program: each calls it over two sides, files and a script in memory, and says what it says and
//! how it ends. Standard input has the files of each scenario and the names of the themes, and a theme is a text file of its
//! own. A line tells of each theme how many of its scenarios pass, and one of each difference where it is wanted, what was
//! found and what is wanted. With an argument only those scenarios are played whose names begin with it. `heading` and
//! `part` say how a scenario is written.
#![tactic(auto)]

mod answers;
mod checks;
mod faults;
mod heading;
mod images;
mod line;
mod outside;
mod part;
mod program;
mod shelf;
mod stops;
mod tally;
mod theme;
mod world;

use std::alloc::AllocError;
use std::rt::{Env, Files};
use std::{env, fs, io};
use tally::Tally;
use theme::{Theme, play};

// The beginning of the names of the scenarios that are played.
fn first_argument<R: Env + AllocGlobal>(rt: &R) -> io::Result<String> {
    match env::args(rt)?.nth(1) {
        Some(name) => Ok(name),
        None => Ok(String::new(rt.alloc())),
    }
}

// The text of a theme, which lies in the current folder or in its folder `data`.
fn read_theme<R: Files + AllocGlobal>(rt: &R, name: &str) -> io::Result<String> {
    match read_file(rt, "", name) {
        Ok(text) => Ok(text),
        Err(_) => read_file(rt, "data/", name),
    }
}

fn read_file<R: Files + AllocGlobal>(rt: &R, folder: &str, name: &str) -> io::Result<String> {
    let path = format!(in rt.alloc(); "{folder}{name}.txt")?;
    fs::read_to_string(rt, &path)
}

fn play_theme<R: Files + AllocGlobal>(
    rt: &R,
    tally: &mut Tally,
    shared: &str,
    name: &str,
    only: &str,
) -> io::Result<()> {
    let text = read_theme(rt, name)?;
    let theme = Theme {
        name,
        text: &text,
        shared,
    };
    play(rt.alloc(), tally, theme, only);
    Ok(())
}

// Plays the themes that a text names.
fn play_themes<R: Files + AllocGlobal>(
    rt: &R,
    tally: &mut Tally,
    text: &str,
    only: &str,
) -> io::Result<()> {
    for line in text.lines() {
        if let Some(name) = line.strip_prefix("theme ") {
            play_theme(rt, tally, text, name, only)?;
        }
    }
    Ok(())
}

// The same where the scenarios are played whose names begin with the argument.
fn play_named<R: Env + Files + AllocGlobal>(
    rt: &R,
    tally: &mut Tally,
    text: &str,
) -> io::Result<()> {
    let only = first_argument(rt)?;
    play_themes(rt, tally, text, &only)
}

fn play_input(rt: &HostRuntime, tally: &mut Tally) -> io::Result<()> {
    let input = io::read_to_string(rt.alloc(), rt.reader())?;
    play_named(rt, tally, &input)
}

fn main(rt: HostRuntime) -> io::Result<()> {
    let mut tally = Tally::new(rt.alloc());
    play_input(&rt, &mut tally)?;
    let report = tally.report();
    if !report.is_whole() {
        return Err(AllocError.into());
    }
    print!(rt; "{}", report.as_str())
}
