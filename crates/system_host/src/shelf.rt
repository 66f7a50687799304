// The files of the current folder.
ghost use Rattle.std.specs.Prelude.{◌≡◌, ◌≤◌, ◌≢◌, ◌↔◌, Ok, None, IfOk, IfSome, IsTrue, option_map};
ghost use Rattle.system_host.specs.FileNames.{IsFileName};
ghost use Rattle.system_host.specs.ShelfAnswers.{IsWithinLimit, FitsBytes};

use crate::faults::{Cause, Faults, Place};
use host_model::{Shelf, ShelfAnswer};
use std::alloc::Global;
use std::fs::OpenFile;
use std::io::{ErrorKind, Read};
use std::rt::Files;
use std::{fs, io};

/// The most bytes of a file that is given.
const MOST_BYTES: u64 = 4_194_304;

/// The most bytes of a file's name.
const MOST_NAME_BYTES: usize = 255;

/// The files of the current folder. It tells nothing of them.
#[derive(Drop)]
pub struct FolderShelf<'r, R: Files> {
    rt: &'r R,
    pub(crate) faults: Faults,
}

impl<'r, R: Files> FolderShelf<'r, R> {
    /// A shelf that has not failed yet.
    pub fn new(rt: &'r R) -> FolderShelf<'r, R>
        ensures faults { result.faults.count ≡ 0 }
        ensures cause { result.faults.cause ≡ None }
    {
        FolderShelf {
            rt,
            faults: Faults::none(),
        }
    }

    /// Why it failed the last time, where it did.
    pub fn cause(&self) -> Option<&Cause>
        ensures { option_map (λ cause. cause.now) result ≡ self.now.faults.cause }
    {
        self.faults.cause()
    }
}

// Whether a file of the folder itself can have this name.
fn is_file_name(name: &str) -> bool
    ensures { IsTrue result ↔ IsFileName name.now }
{
    !name.is_empty()
        && name != "."
        && name != ".."
        && name.len() <= MOST_NAME_BYTES
        && name
            .as_bytes()
            .iter()
            .all(|&byte| byte != b'/' && byte != 0)
}

// The bytes that a reader gives, where they are not too many. At most one byte more than are given is read.
fn read_limited<R: Read + Drop>(reader: R, alloc: Global) -> io::Result<ShelfAnswer>
    ensures limit { IfOk result IsWithinLimit }
    ensures bytes { IfOk result (λ answer. IfSome (R.remaining reader) (λ bytes. FitsBytes bytes answer)) }
    ensures answered { IfOk result (λ answer. answer ≢ ShelfAnswer.Failed) }
{
    let mut bytes = Vec::new(alloc);
    reader.take(MOST_BYTES + 1).read_to_end(&mut bytes)?;
    let length = bytes.len() as u64;
    if length > MOST_BYTES {
        return Ok(ShelfAnswer::TooLarge(length));
    }
    Ok(ShelfAnswer::Bytes(bytes))
}

// The bytes of a file that is there, or its length where they are too many.
fn read_file<R: Files>(rt: &R, alloc: Global, name: &str) -> io::Result<ShelfAnswer>
    ensures limit { IfOk result IsWithinLimit }
    ensures answered { IfOk result (λ answer. answer ≢ ShelfAnswer.Failed) }
{
    let file = fs::open(rt, name)?;
    let metadata = file.metadata()?;
    if metadata.is_dir() {
        return Err(io::Error::from(ErrorKind::IsADirectory));
    }
    let length = metadata.len();
    if length > MOST_BYTES {
        return Ok(ShelfAnswer::TooLarge(length));
    }
    // A file may grow meanwhile, and a pipe has no length.
    read_limited(file, alloc)
}

// What there is of this name.
fn take_file<R: Files>(rt: &R, alloc: Global, name: &str) -> io::Result<ShelfAnswer>
    ensures absent { ¬ IsFileName name.now → result ≡ Ok ShelfAnswer.Absent }
    ensures limit { IfOk result IsWithinLimit }
    ensures answered { IfOk result (λ answer. answer ≢ ShelfAnswer.Failed) }
{
    if !is_file_name(name) {
        return Ok(ShelfAnswer::Absent);
    }
    match read_file(rt, alloc, name) {
        Ok(answer) => Ok(answer),
        Err(error) => match error.kind() {
            ErrorKind::NotFound => Ok(ShelfAnswer::Absent),
            ErrorKind::OutOfMemory => Ok(ShelfAnswer::OutOfMemory),
            _ => Err(error),
        },
    }
}

impl<R: Files> Shelf for FolderShelf<'_, R> {
    ghost tells = { ⊥ };

    ghost file = { λ _ _. None };

    ghost faults = { λ s. s.faults.count };

    ghost asks = { λ shelf name asked. shelf.faults.count ≤ asked.faults.count };

    fn take(&mut self, alloc: Global, name: &str) -> ShelfAnswer {
        match take_file(self.rt, alloc, name) {
            Ok(answer) => answer,
            Err(error) => {
                self.faults.add(Place::file(alloc, name), error);
                ShelfAnswer::Failed
            }
        }
    }
}
