ghost use Rattle.std.specs.Prelude.{◌≤◌, length};

use crate::faults::Cause;
use crate::host::FolderHost;
use crate::shelf::FolderShelf;
use crate::source::StdinSource;
use crate::stand_in::{Record, StandIn};
use crate::standard::take_standard;
use host_model::{Host, Shelf, ShelfAnswer, Side, Source};
use std::alloc::Global;
use std::fs::File;
use std::io::{ErrorKind, Read};
use std::test::Fail;
use std::{fs, io};

/// Gives `show` and a line's end in two pieces with a signal between them, then fails once, and ends.
#[derive(Drop)]
struct FailingReader {
    reads: u32,
}

impl Read for FailingReader {
    fn read(&mut self, into: &mut [u8]) -> io::Result<usize> {
        self.reads = self.reads.saturating_add(1);
        match self.reads {
            1 => Ok(place(b"sh", into)),
            2 => Err(io::Error::from(ErrorKind::Interrupted)),
            3 => Ok(place(b"ow\n", into)),
            4 => Err(io::Error::from(ErrorKind::Other)),
            _ => Ok(0),
        }
    }
}

// Places the bytes that fit, and gives their number.
fn place(bytes: &[u8], into: &mut [u8]) -> usize
    ensures { result ≤ length into.new }
{
    let count = bytes.len().min(into.len());
    into[..count].copy_from_slice(&bytes[..count]);
    count
}

#[test]
fn source_gives_a_readers_bytes(rt: HostRuntime) {
    let mut source = StdinSource::new(FailingReader { reads: 0 });
    let mut piece = [0u8; 4];
    for (want, bytes, faults) in [
        (Some(2), b"sh\0\0", 0),
        (Some(3), b"ow\n\0", 0),
        (None, b"ow\n\0", 1),
        (Some(0), b"ow\n\0", 1),
    ] {
        assert_eq!(rt; source.read(&mut piece).ok(), want);
        assert_eq!(rt; piece.as_slice(), bytes.as_slice());
        assert_eq!(rt; source.faults.count, faults);
    }
    assert_eq!(rt;
        text_of(rt.alloc(), source.cause()).as_str(),
        "standard input: other error"
    );
}

// The text of a cause.
fn text_of(alloc: Global, cause: Option<&Cause>) -> String {
    match cause {
        Some(cause) => match format!(in alloc; "{cause}") {
            Ok(text) => text,
            Err(_) => String::new(alloc),
        },
        None => String::new(alloc),
    }
}

#[test]
fn shelf_takes_files_of_the_folder(rt: HostRuntime) -> Result<(), Fail> {
    fs::write(&rt, "small", "{}")?;
    File::create(&rt, "largest")?.set_len(4_194_304)?;
    File::create(&rt, "too_large")?.set_len(4_194_305)?;
    fs::create_dir(&rt, "folder")?;
    let mut shelf = FolderShelf::new(&rt);
    match shelf.take(rt.alloc(), "small") {
        ShelfAnswer::Bytes(bytes) => assert_eq!(rt; bytes.as_slice(), b"{}".as_slice()),
        _ => assert!(rt; false, "no bytes"),
    }
    match shelf.take(rt.alloc(), "largest") {
        ShelfAnswer::Bytes(bytes) => assert_eq!(rt; bytes.len(), 4_194_304),
        _ => assert!(rt; false, "no bytes of the largest"),
    }
    assert!(rt;
        matches!(
            shelf.take(rt.alloc(), "too_large"),
            ShelfAnswer::TooLarge(4_194_305)
        )
    );
    for name in ["", ".", "..", "absent", "folder/", "./small", "small\0"] {
        assert!(rt;
            matches!(shelf.take(rt.alloc(), name), ShelfAnswer::Absent),
            "at {name}"
        );
    }
    assert_eq!(rt; shelf.faults.count, 0);
    assert!(rt; matches!(shelf.take(rt.alloc(), "folder"), ShelfAnswer::Failed));
    assert_eq!(rt; shelf.faults.count, 1);
    assert_eq!(rt;
        text_of(rt.alloc(), shelf.cause()).as_str(),
        "folder: is a directory"
    );
    fs::remove_file(&rt, "small")?;
    fs::remove_file(&rt, "largest")?;
    fs::remove_file(&rt, "too_large")?;
    fs::remove_dir(&rt, "folder")?;
    Ok(())
}

#[test]
fn sides_are_files_of_the_folder(rt: HostRuntime) -> Result<(), Fail> {
    let mut host = FolderHost::new(&rt);
    let mut piece = [7u8; 8];
    assert_eq!(rt; host.len(Side::Left).ok(), Some(0));
    assert_eq!(rt; host.read(Side::Left, 0, &mut piece).ok(), Some(0));
    assert!(rt; host.sync(Side::Left).is_ok());
    assert!(rt; !fs::exists(&rt, "nimbus.left")?);
    assert!(rt; host.write_at(Side::Left, 2, b"ab").is_ok());
    assert!(rt; host.write_at(Side::Left, 3, b"c").is_ok());
    assert!(rt; host.sync(Side::Left).is_ok());
    assert_eq!(rt; host.len(Side::Left).ok(), Some(4));
    assert_eq!(rt; host.read(Side::Left, 1, &mut piece).ok(), Some(3));
    assert_eq!(rt; piece.as_slice(), [0, b'a', b'c', 7, 7, 7, 7, 7].as_slice());
    assert_eq!(rt; host.read(Side::Left, u64::MAX, &mut piece).ok(), Some(0));
    assert!(rt; host.write_at(Side::Left, u64::MAX, b"c").is_err());
    assert_eq!(rt; FolderHost::new(&rt).len(Side::Left).ok(), Some(4));
    assert!(rt; !fs::exists(&rt, "nimbus.right")?);
    fs::create_dir(&rt, "nimbus.right")?;
    assert!(rt; host.len(Side::Right).is_err());
    assert!(rt; host.read(Side::Right, 0, &mut piece).is_err());
    assert!(rt; host.write_at(Side::Right, 0, b"c").is_err());
    assert!(rt; host.sync(Side::Right).is_err());
    assert_eq!(rt; host.disk.count, 5);
    fs::remove_dir(&rt, "nimbus.right")?;
    fs::remove_file(&rt, "nimbus.left")?;
    Ok(())
}

// Five bytes are written from byte 5 on, two of them at once, and the side is synced twice.
const WRITTEN: &str = "open left\nmake left\nseek 5 left\nwrite left\nwrite left\nwrite left\n\
    sync left\nopen folder\nsync folder\nsync left\n";

// The same where a signal cuts each call short once.
const WRITTEN_OVER_SIGNALS: &str = "open left\nmake left\nseek 5 left\nwrite left\nwrite left\n\
    write left\nwrite left\nwrite left\nwrite left\n\
    sync left\nsync left\nopen folder\nsync folder\nsync folder\nsync left\nsync left\n";

// Five bytes are read from byte 5 on of a side that is there, and its length is asked for.
const READ: &str = "open right\nseek 5 right\nread right\nread right\nread right\nlength right\n";

// The same where a signal cuts each read short once.
const READ_OVER_SIGNALS: &str = "open right\nseek 5 right\nread right\nread right\nread right\n\
    read right\nread right\nread right\nlength right\n";

#[test]
fn calls_reach_the_files_in_their_order(rt: HostRuntime) {
    let alloc = rt.alloc();
    for (signals, written, read) in [
        (0, WRITTEN, READ),
        (1, WRITTEN_OVER_SIGNALS, READ_OVER_SIGNALS),
    ] {
        let record = Record::new(alloc);
        let files = StandIn { record: &record };
        let mut host = FolderHost::new(&files);
        record.set_signals(signals);
        assert!(rt; host.write_at(Side::Left, 5, b"abcde").is_ok());
        assert!(rt; host.sync(Side::Left).is_ok());
        assert!(rt; host.sync(Side::Left).is_ok());
        assert_eq!(rt;
            record.take(alloc).as_str(),
            written,
            "over {signals} signals"
        );
        let mut piece = [0u8; 5];
        assert_eq!(rt; host.read(Side::Right, 5, &mut piece).ok(), Some(5));
        assert_eq!(rt; piece.as_slice(), [7; 5].as_slice());
        record.set_signals(0);
        assert_eq!(rt; host.len(Side::Right).ok(), Some(9));
        assert_eq!(rt; record.take(alloc).as_str(), read, "over {signals} signals");
        assert_eq!(rt; (host.disk.count, host.output.count), (0, 0));
    }
}

// What a host answers where this call fails: whether a write, a sync, a read, a length and a say are done, and how
// many faults of the disk and of the output are counted.
fn faults_at(record: &Record, failing: &'static str) -> ([bool; 5], u64, u64) {
    let files = StandIn { record };
    let mut host = FolderHost::new(&files);
    let mut piece = [0u8; 5];
    record.is_there.set(false);
    record.failing.set(failing);
    let done = [
        host.write_at(Side::Left, 5, b"abcde").is_ok(),
        host.sync(Side::Left).is_ok(),
        host.read(Side::Left, 5, &mut piece).is_ok(),
        host.len(Side::Left).is_ok(),
        host.say(b"abcde").is_ok(),
    ];
    (done, host.disk.count, host.output.count)
}

#[test]
fn each_failure_counts_once(rt: HostRuntime) {
    let record = Record::new(rt.alloc());
    for (failing, done, disk, output) in [
        ("", [true, true, true, true, true], 0, 0),
        ("open", [false, false, false, false, true], 4, 0),
        ("make", [false, true, true, true, true], 1, 0),
        ("write", [false, true, true, true, true], 1, 0),
        ("sync", [true, false, true, true, true], 1, 0),
        ("read", [true, true, false, true, true], 1, 0),
        ("length", [true, true, true, false, true], 1, 0),
        ("say", [true, true, true, true, false], 0, 1),
    ] {
        assert_eq!(rt;
            faults_at(&record, failing),
            (done, disk, output),
            "at {failing}"
        );
    }
}

#[test]
fn causes_name_the_file_and_the_answer(rt: HostRuntime) {
    let alloc = rt.alloc();
    let record = Record::new(alloc);
    let files = StandIn { record: &record };
    let mut host = FolderHost::new(&files);
    assert_eq!(rt; text_of(alloc, host.disk_cause()).as_str(), "");
    record.failing.set("open");
    assert!(rt; host.len(Side::Right).is_err());
    record.failing.set("say");
    assert!(rt; host.say(b"a").is_err());
    assert_eq!(rt;
        text_of(alloc, host.disk_cause()).as_str(),
        "nimbus.right: no storage space"
    );
    assert_eq!(rt;
        text_of(alloc, host.say_cause()).as_str(),
        "standard output: no storage space"
    );
}

// The calls by which the descriptors are taken, where the first file that is opened gets this number.
#[test]
fn standard_descriptors_are_taken(rt: HostRuntime) {
    let alloc = rt.alloc();
    for (first, want) in [
        (0, "open null\nopen to write null\nopen null\nopen null\n"),
        (1, "open null\nopen null\nopen null\n"),
        (2, "open null\nopen null\n"),
        (3, "open null\n"),
    ] {
        let record = Record::new(alloc);
        let files = StandIn { record: &record };
        record.number.set(first);
        assert!(rt; take_standard(&files).is_ok(), "from {first} on");
        assert_eq!(rt; record.take(alloc).as_str(), want, "from {first} on");
    }
    let record = Record::new(alloc);
    let files = StandIn { record: &record };
    record.failing.set("open");
    assert!(rt; take_standard(&files).is_err());
}
