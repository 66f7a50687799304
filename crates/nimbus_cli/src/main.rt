//! The program: its arguments, its clock, and the real source, shelf and host. The line on standard error tells the
//! status, and of a fault what failed and what the system answered.
#![tactic(auto)]

mod arguments;
mod notice;
#[cfg(test)]
mod tests;

ghost use Rattle.std.specs.Prelude.{◌≡◌, IsTrue};
ghost use Rattle.std.specs.Process.{exit_status};
ghost use Rattle.jexl_transforms.specs.Answering.{AnswersAs};
ghost use Rattle.jexl_transforms.specs.Meaning.{is_standard};
ghost use Rattle.jexl_transforms.specs.Table.{HasStandardNames, names_of};
ghost use Rattle.session_run.specs.Statuses.{code_of};
ghost use Rattle.nimbus_cli.specs.Puts.{IsPut};

use arguments::read_words;
use jexl_transforms::{
    Transform, TransformTable, bucket_transform, date_transform, event_nonzero_transform,
    event_seen_transform, event_sum_transform, version_transform,
};
use jexl_value::{Attributes, Value};
use notice::Notice;
use session_run::{RunStatus, nimbus};
use std::alloc::Global;
use std::fs::File;
use std::io;
use std::io::Read;
use std::process::ExitCode;
use std::rt::{Clock, Env, Files};
use std::time::SystemTime;
use system_host::{
    Cause, FolderHost, FolderShelf, Place, StdinSource, moment, take_standard, write_flushed,
};

/// How many standard transforms there are.
const STANDARD_NAMES: usize = 6;

// Prints a notice, or does what the words ask for, and tells the status.
fn run<R: Files<File = File> + Env + Clock + Print + Eprint + Input + AllocGlobal>(
    rt: &R,
) -> RunStatus {
    let words = match read_words(rt) {
        Ok(words) => words,
        Err(status) => return told(rt, status, None),
    };
    if let Some(notice) = Notice::of(&words) {
        return print(rt, notice);
    }
    // No file is opened before, so none gets a standard descriptor that was closed.
    let _standard = match take_standard(rt) {
        Ok(standard) => standard,
        Err(cause) => return told(rt, RunStatus::DiskFault, Some(&cause)),
    };
    run_words(rt, &words)
}

// Tells a status other than `Done` on standard error, with the cause of a fault. Where standard error fails, the exit
// number still tells the status.
fn told(rt: &impl Eprint, status: RunStatus, cause: Option<&Cause>) -> RunStatus
    ensures { result ≡ status }
{
    if status != RunStatus::Done {
        let _ = match cause {
            Some(cause) => eprintln!(rt; "nimbus: {status}: {cause}"),
            None => eprintln!(rt; "nimbus: {status}"),
        };
    }
    status
}

// Puts a transform of a standard name at the end of a table, unless memory is wanting.
fn put(alloc: Global, table: &mut TransformTable, name: &str, transform: Transform)
    requires standard { IsTrue (is_standard name.now) }
    requires callable { Transform.IsAlwaysCallable transform }
    requires answers { AnswersAs name.now (Transform.post transform) }
    ensures names { IsPut (names_of table.old) name.now (names_of table.new) }
{
    let _ = table.push(alloc, name, transform);
}

// Does what the words ask for, with the standard transforms of targeting, and tells the status.
//
// A box of a closure is made where it is used, so all are made here. They are let go of at one exit, and whether each was
// put into the table is asked once.
fn run_words<R: Files<File = File> + Env + Clock + Print + Eprint + Input + AllocGlobal>(
    rt: &R,
    words: &[String],
) -> RunStatus {
    let alloc = rt.alloc();
    let (Ok(version), Ok(date), Ok(bucket), Ok(sum), Ok(nonzero), Ok(seen)) = (
        Box::new(
            alloc,
            |attributes: &Attributes, subject: &Value, arguments: &[Value]| {
                version_transform(attributes, subject, arguments)
            },
        ),
        Box::new(
            alloc,
            |attributes: &Attributes, subject: &Value, arguments: &[Value]| {
                date_transform(attributes, subject, arguments)
            },
        ),
        Box::new(
            alloc,
            move |attributes: &Attributes, subject: &Value, arguments: &[Value]| {
                bucket_transform(alloc, attributes, subject, arguments)
            },
        ),
        Box::new(
            alloc,
            |attributes: &Attributes, subject: &Value, arguments: &[Value]| {
                event_sum_transform(attributes, subject, arguments)
            },
        ),
        Box::new(
            alloc,
            |attributes: &Attributes, subject: &Value, arguments: &[Value]| {
                event_nonzero_transform(attributes, subject, arguments)
            },
        ),
        Box::new(
            alloc,
            |attributes: &Attributes, subject: &Value, arguments: &[Value]| {
                event_seen_transform(attributes, subject, arguments)
            },
        ),
    ) else {
        return told(rt, RunStatus::OutOfMemory, None);
    };
    let mut table = TransformTable::new(alloc);
    put(alloc, &mut table, "versionCompare", version);
    put(alloc, &mut table, "date", date);
    put(alloc, &mut table, "bucketSample", bucket);
    put(alloc, &mut table, "eventSum", sum);
    put(alloc, &mut table, "eventCountNonZero", nonzero);
    put(alloc, &mut table, "eventLastSeen", seen);
    if table.names() != STANDARD_NAMES {
        return told(rt, RunStatus::OutOfMemory, None);
    }
    run_with(rt, words, &table)
}

// The same with a table that has them, over standard input, the current folder and standard output.
fn run_with<R: Files<File = File> + Clock + Print + Eprint + Input + AllocGlobal>(
    rt: &R,
    words: &[String],
    table: &TransformTable,
) -> RunStatus
    requires table { HasStandardNames table.now }
{
    let mut source = StdinSource::new(rt.reader());
    let mut shelf = FolderShelf::new(rt);
    let mut host = FolderHost::new(rt);
    let status = nimbus(
        rt.alloc(),
        words,
        moment(SystemTime::now(rt)),
        table,
        &mut source,
        &mut shelf,
        &mut host,
    );
    told(rt, status, cause_of(status, &source, &shelf, &host))
}

// Why a run ended with this status, where one of its objects has failed.
fn cause_of<'a, I: Read, R: Files + Print>(
    status: RunStatus,
    source: &'a StdinSource<I>,
    shelf: &'a FolderShelf<'_, R>,
    host: &'a FolderHost<'_, R>,
) -> Option<&'a Cause> {
    match status {
        RunStatus::SourceFault => source.cause(),
        RunStatus::ShelfFault => shelf.cause(),
        RunStatus::DiskFault => host.disk_cause(),
        RunStatus::SayFault => host.say_cause(),
        _ => None,
    }
}

// Prints a notice on standard output.
fn print<R: Print + Eprint>(rt: &R, notice: Notice) -> RunStatus {
    match write_flushed(&mut io::writer(rt), notice.text().as_bytes()) {
        Ok(()) => RunStatus::Done,
        Err(error) => {
            let cause = Cause::new(Place::Named("standard output"), error);
            told(rt, RunStatus::SayFault, Some(&cause))
        }
    }
}

// The status' number is what the process ends with.
fn exit_code(status: RunStatus) -> ExitCode
    ensures { exit_status result ≡ code_of status }
{
    ExitCode::from(status.code())
}

fn main(rt: HostRuntime) -> ExitCode {
    exit_code(run(&rt))
}
