// A script from a reader, as standard input.
ghost use Rattle.std.specs.Prelude.{◌≡◌, [], None, option_map};
ghost use Rattle.std.specs.Io.{ReadsAtMost};
ghost use Rattle.std.specs.Io.KnownBytes.{ReadConsumes};

use crate::faults::{Cause, Faults, Place};
use host_model::{Source, SourceFailed};
use std::io;
use std::io::{ErrorKind, Read};

/// How often a read is tried where signals cut it short.
const TRIES: u32 = 64;

/// The bytes of a reader. It tells nothing of them.
#[derive(Drop)]
pub struct StdinSource<R: Read> {
    input: R,
    pub(crate) faults: Faults,
}

impl<R: Read> StdinSource<R> {
    /// A source that has not failed yet.
    pub fn new(input: R) -> StdinSource<R>
        ensures faults { result.faults.count ≡ 0 }
        ensures cause { result.faults.cause ≡ None }
    {
        StdinSource {
            input,
            faults: Faults::none(),
        }
    }

    /// Why it failed the last time, where it did.
    pub fn cause(&self) -> Option<&Cause>
        ensures { option_map (λ cause. cause.now) result ≡ self.now.faults.cause }
    {
        self.faults.cause()
    }
}

// One read, tried again where a signal cuts it short.
fn read_some<R: Read>(input: &mut R, into: &mut [u8]) -> io::Result<usize>
    ensures within { ReadsAtMost result into.new }
    ensures bytes { ReadConsumes (R.remaining input.old) (R.remaining input.new) result into.new }
{
    for _ in 0..TRIES {
        match input.read(into) {
            Err(error) if error.kind() == ErrorKind::Interrupted => {}
            answer => return answer,
        }
    }
    Err(io::Error::from(ErrorKind::Interrupted))
}

impl<R: Read> Source for StdinSource<R> {
    ghost tells = { ⊥ };

    ghost left = { λ _. [] };

    ghost faults = { λ s. s.faults.count };

    fn read(&mut self, into: &mut [u8]) -> Result<usize, SourceFailed> {
        let answer = read_some(&mut self.input, into);
        let place = Place::Named("standard input");
        self.faults.counted(answer, place, SourceFailed)
    }
}
