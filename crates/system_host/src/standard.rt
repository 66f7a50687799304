// The three standard descriptors, taken before the first file is opened.
ghost use Rattle.std.specs.Prelude.{◌<ℤ◌, pos, IfOk, IfSome};

use crate::faults::{Cause, Place};
use std::fs::OpenOptions;
use std::io;
use std::os::fd::AsRawFd;
use std::rt::Files;

/// The file that takes a descriptor which is closed.
const NULL_DEVICE: &str = "/dev/null";

/// How many files are opened at most.
const TRIES: u32 = 8;

/// What holds the descriptors 0, 1 and 2 where they were closed, and a file above them.
#[derive(Drop)]
pub struct TakenStandard<F: Drop> {
    input: Option<F>,
    output: Option<F>,
    error: Option<F>,
    above: F,
}

// Opens the null device.
fn open_null<R: Files>(rt: &R, writes: bool) -> io::Result<R::File> {
    OpenOptions::new()
        .read(!writes)
        .write(writes)
        .open(rt, NULL_DEVICE)
}

// Opens the null device until it gets a descriptor above 2, and holds those below. The descriptor 0 is held by a file
// that can't be read, and the others by files that can't be written.
fn take<F: AsRawFd + Drop, R: Files<File = F>>(rt: &R) -> io::Result<TakenStandard<F>>
    ensures { IfOk result (λ taken. IfSome (F.raw_fd taken.above) (λ number. pos 2 <ℤ number)) }
{
    let mut input = None;
    let mut output = None;
    let mut error = None;
    for _ in 0..TRIES {
        let file = open_null(rt, false)?;
        let number = file.as_raw_fd();
        if number > 2 {
            return Ok(TakenStandard {
                input,
                output,
                error,
                above: file,
            });
        }
        if number == 0 {
            drop(file);
            input = Some(open_null(rt, true)?);
        } else if number == 1 {
            output = Some(file);
        } else {
            error = Some(file);
        }
    }
    Err(io::Error::other("the standard descriptors are not taken"))
}

/// Takes the descriptors 0, 1 and 2 where they are closed, so that no file that is opened later gets one of them. A
/// read of standard input then fails, and so does a write to standard output or standard error. At `Ok` a file is held
/// that was opened last and has a number above 2.
pub fn take_standard<F: AsRawFd + Drop, R: Files<File = F>>(
    rt: &R,
) -> Result<TakenStandard<F>, Cause>
    ensures { IfOk result (λ taken. IfSome (F.raw_fd taken.above) (λ number. pos 2 <ℤ number)) }
{
    match take(rt) {
        Ok(taken) => Ok(taken),
        Err(error) => Err(Cause::new(Place::Named(NULL_DEVICE), error)),
    }
}
