//! What is told of scenarios: what differs from what is wanted, and how many passed.
use crate::line::Line;
use host_model::Choice;
use row_tables::Found;
use session_run::RunStatus;
use std::alloc::Global;

/// Where something is wanted.
#[derive(Clone, Copy)]
pub(crate) struct Place<'a> {
    theme: &'a str,
    pub(crate) scenario: &'a str,
    pub(crate) line: Line<'a>,
    /// The number of the call that fails, or the place that is altered.
    turn: Option<u64>,
    /// What a crash has left.
    images: Option<(Choice, Choice)>,
}

impl<'a> Place<'a> {
    /// Before the first line of a theme.
    pub(crate) fn before(theme: &'a str, text: &'a str) -> Place<'a> {
        Place {
            theme,
            scenario: "",
            line: Line::before(text),
            turn: None,
            images: None,
        }
    }

    /// The same at another line.
    pub(crate) fn at(mut self, line: Line<'a>) -> Place<'a> {
        self.line = line;
        self
    }

    /// The same in a turn.
    pub(crate) fn in_turn(mut self, turn: u64) -> Place<'a> {
        self.turn = Some(turn);
        self
    }

    /// The same over images.
    pub(crate) fn over(mut self, left: Choice, right: Choice) -> Place<'a> {
        self.images = Some((left, right));
        self
    }

    fn add_to(self, text: &mut Found) {
        text.texts(&[self.theme, ": ", self.scenario, ": line "]);
        text.displayed(&self.line.number);
        if let Some(turn) = self.turn {
            text.text(", at ");
            text.displayed(&turn);
        }
        if let Some((left, right)) = self.images {
            text.text(", over ");
            text.debugged(&left);
            text.text(" and ");
            text.debugged(&right);
        }
    }
}

/// How many scenarios have passed of those that have begun.
#[derive(Clone, Copy)]
struct Passed {
    passed: u64,
    begun: u64,
}

impl Passed {
    fn none() -> Passed {
        Passed {
            passed: 0,
            begun: 0,
        }
    }

    fn add_to(self, text: &mut Found) {
        text.displayed(&self.passed);
        text.text(" of ");
        text.displayed(&self.begun);
        text.text(" scenarios passed\n");
    }
}

/// What is told so far.
#[derive(Drop)]
pub(crate) struct Tally {
    alloc: Global,
    text: Found,
    all: Passed,
    of_theme: Passed,
    differs: bool,
    is_playing: bool,
}

impl Tally {
    pub(crate) fn new(alloc: Global) -> Tally {
        Tally {
            alloc,
            text: Found::new(alloc),
            all: Passed::none(),
            of_theme: Passed::none(),
            differs: false,
            is_playing: false,
        }
    }

    /// A scenario begins, once the one before has ended.
    pub(crate) fn begin(&mut self) {
        self.of_theme.begun = self.of_theme.begun.saturating_add(1);
        self.differs = false;
        self.is_playing = true;
    }

    /// The scenario ends, where one has begun.
    pub(crate) fn end(&mut self) {
        let passes = self.is_playing && !self.differs;
        self.of_theme.passed = self.of_theme.passed.saturating_add(u64::from(passes));
        self.is_playing = false;
    }

    /// Tells how many of a theme's scenarios have passed, where there were any.
    pub(crate) fn end_theme(&mut self, theme: &str) {
        self.end();
        let ended = self.of_theme;
        self.of_theme = Passed::none();
        self.all.passed = self.all.passed.saturating_add(ended.passed);
        self.all.begun = self.all.begun.saturating_add(ended.begun);
        if ended.begun > 0 {
            self.text.texts(&[theme, ": "]);
            ended.add_to(&mut self.text);
        }
    }

    /// All that is told, once it is told how many scenarios have passed.
    pub(crate) fn report(&mut self) -> &Found {
        self.all.add_to(&mut self.text);
        &self.text
    }

    /// Whether a scenario is being played.
    pub(crate) fn is_playing(&self) -> bool {
        self.is_playing
    }

    /// Whether something has differed in the scenario.
    pub(crate) fn differs(&self) -> bool {
        self.differs
    }

    /// Says that memory was wanting for what was to be done.
    pub(crate) fn lack_memory(&mut self) {
        self.differs = true;
        self.text.lack_memory();
    }

    /// Says whether memory was found for what was to be done.
    pub(crate) fn needs(&mut self, has_memory: bool) {
        if !has_memory {
            self.lack_memory();
        }
    }

    // Begins to tell what differs.
    fn begin_difference(&mut self, place: Place<'_>) -> &mut Found {
        self.differs = true;
        place.add_to(&mut self.text);
        self.text.text(": found ");
        &mut self.text
    }

    /// Tells what differs.
    pub(crate) fn differ(&mut self, place: Place<'_>, found: &[u8], wanted: &[u8]) {
        let text = self.begin_difference(place);
        text.bytes(found);
        text.text(", wanted ");
        text.bytes(wanted);
        text.text("\n");
    }

    /// Tells a text where it differs.
    pub(crate) fn judge_text(&mut self, place: Place<'_>, found: &[u8], wanted: &[u8]) {
        if found != wanted {
            self.differ(place, found, wanted);
        }
    }

    /// Tells a number where it differs.
    pub(crate) fn judge(&mut self, place: Place<'_>, found: u64, wanted: u64) {
        if found != wanted {
            let text = self.begin_difference(place);
            text.displayed(&found);
            text.text(", wanted ");
            text.displayed(&wanted);
            text.text("\n");
        }
    }

    /// Tells a status where it hasn't this name.
    pub(crate) fn judge_status(&mut self, place: Place<'_>, status: RunStatus, wanted: &str) {
        let mut found = Found::new(self.alloc);
        found.displayed(&status);
        self.judge_text(place, found.as_str().as_bytes(), wanted.as_bytes());
    }
}
