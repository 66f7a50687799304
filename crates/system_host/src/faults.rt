// Failures of the outside: each is counted once, and the cause of the last one is kept.
ghost use Rattle.std.specs.Prelude.{◌≡◌, ◌<◌, ◌+◌, ◌-◌, ◌^◌, min, Ok, Some, None, IfOk, OnOk, OnErr, IsErr, IfErr, option_map};
ghost use Rattle.host_model.specs.Causes.{HasCause};

use std::alloc::Global;
use std::fmt::{Display, Formatter};
use std::{fmt, io};

/// Where something failed.
#[derive(Drop)]
pub enum Place {
    /// A file or a stream of this name.
    Named(&'static str),
    /// A file that a command names.
    File(String),
}

impl Place {
    // The place of a file. Where memory is wanting, the name is left out.
    pub(crate) fn file(alloc: Global, name: &str) -> Place {
        match String::from_str(alloc, name) {
            Ok(name) => Place::File(name),
            Err(_) => Place::Named("a file"),
        }
    }
}

/// What failed, and what the system answered.
#[derive(Drop)]
pub struct Cause {
    place: Place,
    error: io::Error,
}

impl Cause {
    /// That this place failed so.
    pub fn new(place: Place, error: io::Error) -> Cause
        ensures place { result.place ≡ place }
        ensures error { result.error ≡ error }
    {
        Cause { place, error }
    }
}

impl Display for Cause {
    fn fmt<W: fmt::Write>(&self, f: &mut Formatter<W>) -> fmt::Result {
        match &self.place {
            Place::Named(name) => f.write_str(name)?,
            Place::File(name) => f.write_str(name.as_str())?,
        }
        f.write_str(": ")?;
        Display::fmt(&self.error, f)
    }
}

/// How often something has failed, and the cause of the last time.
#[derive(Drop)]
pub(crate) struct Faults {
    pub(crate) count: u64,
    pub(crate) cause: Option<Cause>,
    ghost fits: { count < 2 ^ 64 },
}

impl Faults {
    /// No failure yet.
    pub(crate) fn none() -> Faults
        ensures count { result.count ≡ 0 }
        ensures cause { result.cause ≡ None }
    {
        Faults {
            count: 0,
            cause: None,
        }
    }

    /// Counts a failure, and keeps its cause. The count stays at 2^64 - 1 once it is there.
    pub(crate) fn add(&mut self, place: Place, error: io::Error)
        ensures count { self.new.count ≡ min (self.old.count + 1) (2 ^ 64 - 1) }
        ensures cause { self.new.cause ≡ Some (record { place = place; error = error }) }
        ensures fits { self.new.count < 2 ^ 64 }
    {
        let before = self.count;
        self.count = before.saturating_add(1);
        self.cause = Some(Cause::new(place, error));
    }

    /// The answer of the outside. A failure is counted, with its cause, and told as `failed`.
    pub(crate) fn counted<T, E: Copy>(
        &mut self,
        answer: io::Result<T>,
        place: Place,
        failed: E,
    ) -> Result<T, E>
        ensures ok { IfOk result (λ value. answer ≡ Ok value) }
        ensures err { OnErr result (IsErr answer) }
        ensures same { OnOk result (self.new ≡ self.old) }
        ensures quiet { OnOk result (self.new.count ≡ self.old.count) }
        ensures counted { OnErr result (self.new.count ≡ min (self.old.count + 1) (2 ^ 64 - 1)) }
        ensures kept { IfErr answer (λ error. self.new.cause ≡ Some (record { place = place; error = error })) }
        ensures cause { HasCause self.old.count self.new.count result }
        ensures fits { self.new.count < 2 ^ 64 }
    {
        match answer {
            Ok(value) => Ok(value),
            Err(error) => {
                self.add(place, error);
                Err(failed)
            }
        }
    }

    /// The cause of the last failure, where there was one.
    pub(crate) fn cause(&self) -> Option<&Cause>
        ensures { option_map (λ cause. cause.now) result ≡ self.now.cause }
    {
        self.cause.as_ref()
    }
}
