// Files that are not there: each call is noted, and some are cut short or fail.
ghost use Rattle.std.specs.Prelude.{◌≤◌, length, IfOk};

use std::alloc::{Allocator, Global};
use std::cell::{Cell, RefCell};
use std::fmt::Display;
use std::fs::{Metadata, OpenFile, OpenOptions};
use std::io;
use std::io::{ErrorKind, Read, Seek, SeekFrom, Write};
use std::os::fd::{AsRawFd, RawFd};
use std::rt::Files;

/// The calls that were made, one on a line, and what the next ones answer.
#[derive(Drop)]
pub(crate) struct Record {
    notes: RefCell<String>,
    /// The call that fails.
    pub(crate) failing: Cell<&'static str>,
    signals: Cell<u32>,
    signals_left: Cell<u32>,
    /// Whether the sides are there.
    pub(crate) is_there: Cell<bool>,
    /// The number of the next file that is opened.
    pub(crate) number: Cell<RawFd>,
}

impl Record {
    /// No call was made, none fails, and no file is there.
    pub(crate) fn new(alloc: Global) -> Record {
        Record {
            notes: RefCell::new(String::new(alloc)),
            failing: Cell::new(""),
            signals: Cell::new(0),
            signals_left: Cell::new(0),
            is_there: Cell::new(false),
            number: Cell::new(3),
        }
    }

    /// How often a signal cuts each call on a file short before it is done.
    pub(crate) fn set_signals(&self, signals: u32) {
        self.signals.set(signals);
        self.signals_left.set(signals);
    }

    /// The notes since the last time, which are taken away.
    pub(crate) fn take(&self, alloc: Global) -> String {
        match self.notes.try_replace(String::new(alloc)) {
            Ok(notes) => notes,
            Err(_) => String::new(alloc),
        }
    }

    // Notes a call, and tells whether it fails.
    fn call(&self, what: &'static str, name: &str) -> io::Result<()> {
        self.note(what, name);
        let left = self.signals_left.get();
        if left > 0 && what != "open" && what != "make" {
            self.signals_left.set(left - 1);
            return Err(io::Error::from(ErrorKind::Interrupted));
        }
        self.signals_left.set(self.signals.get());
        if self.failing.get() == what {
            return Err(io::Error::from(ErrorKind::StorageFull));
        }
        Ok(())
    }

    // Adds a line. Where memory is wanting, the notes are too short, and the test fails.
    fn note(&self, what: &str, name: &str) {
        if let Ok(mut notes) = self.notes.try_borrow_mut() {
            let notes = &mut *notes;
            for part in [what, " ", name, "\n"] {
                let _ = notes.push_str(part);
            }
        }
    }
}

/// The files and the output over such a record.
#[derive(Drop)]
pub(crate) struct StandIn<'a> {
    pub(crate) record: &'a Record,
}

/// A file of them.
#[derive(Drop)]
pub(crate) struct StandFile<'a> {
    record: &'a Record,
    name: &'static str,
    number: RawFd,
}

// The name among those that are known.
fn known(name: &str) -> &'static str {
    match name {
        "nimbus.left" => "left",
        "nimbus.right" => "right",
        "." => "folder",
        "/dev/null" => "null",
        _ => "other",
    }
}

impl<'a> Files for StandIn<'a> {
    type File = StandFile<'a>;

    type Dir = StandFile<'a>;

    fn open_file(&self, how: &OpenOptions, path: &str) -> io::Result<StandFile<'a>> {
        let name = known(path);
        if how.asks_create_new() {
            self.record.call("make", name)?;
            self.record.is_there.set(true);
        } else if how.asks_read() {
            self.record.call("open", name)?;
            if !self.record.is_there.get() && (name == "left" || name == "right") {
                return Err(io::Error::from(ErrorKind::NotFound));
            }
        } else {
            self.record.call("open to write", name)?;
        }
        let number = self.record.number.get();
        self.record.number.set(number.saturating_add(1));
        Ok(StandFile {
            record: self.record,
            name,
            number,
        })
    }

    fn open_dir(&self, _path: &str) -> io::Result<StandFile<'a>> {
        Err(io::Error::from(ErrorKind::Unsupported))
    }

    fn metadata(&self, _path: &str) -> io::Result<Metadata> {
        Err(io::Error::from(ErrorKind::Unsupported))
    }

    fn symlink_metadata(&self, _path: &str) -> io::Result<Metadata> {
        Err(io::Error::from(ErrorKind::Unsupported))
    }

    fn copy(&self, _from: &str, _to: &str) -> io::Result<u64> {
        Err(io::Error::from(ErrorKind::Unsupported))
    }

    fn rename(&self, _from: &str, _to: &str) -> io::Result<()> {
        Err(io::Error::from(ErrorKind::Unsupported))
    }

    fn remove_file(&self, _path: &str) -> io::Result<()> {
        Err(io::Error::from(ErrorKind::Unsupported))
    }

    fn create_dir(&self, _path: &str) -> io::Result<()> {
        Err(io::Error::from(ErrorKind::Unsupported))
    }

    fn remove_dir(&self, _path: &str) -> io::Result<()> {
        Err(io::Error::from(ErrorKind::Unsupported))
    }

    fn remove_dir_all<B: Allocator>(&self, _alloc: B, _path: &str) -> io::Result<()> {
        Err(io::Error::from(ErrorKind::Unsupported))
    }
}

/// Reads and writes take at most two bytes.
impl Read for StandFile<'_> {
    fn read(&mut self, into: &mut [u8]) -> io::Result<usize> {
        self.record.call("read", self.name)?;
        let count = into.len().min(2);
        into[..count].fill(7);
        Ok(count)
    }
}

impl Write for StandFile<'_> {
    fn write(&mut self, bytes: &[u8]) -> io::Result<usize> {
        self.record.call("write", self.name)?;
        Ok(bytes.len().min(2))
    }

    fn flush(&mut self) -> io::Result<()> {
        Ok(())
    }
}

impl Seek for StandFile<'_> {
    fn seek(&mut self, to: SeekFrom) -> io::Result<u64> {
        match to {
            SeekFrom::Start(5) => {
                self.record.note("seek 5", self.name);
                Ok(5)
            }
            _ => Err(io::Error::from(ErrorKind::InvalidInput)),
        }
    }
}

impl OpenFile for StandFile<'_> {
    fn metadata(&self) -> io::Result<Metadata> {
        self.record.call("length", self.name)?;
        Ok(Metadata::of_file(9))
    }

    fn set_len(&self, _size: u64) -> io::Result<()> {
        Err(io::Error::from(ErrorKind::Unsupported))
    }

    fn sync_all(&self) -> io::Result<()> {
        self.record.call("sync", self.name)
    }

    fn sync_data(&self) -> io::Result<()> {
        Err(io::Error::from(ErrorKind::Unsupported))
    }
}

impl AsRawFd for StandFile<'_> {
    fn as_raw_fd(&self) -> RawFd {
        self.number
    }
}

impl Print for StandIn<'_> {
    fn print<D: Display + Drop>(&self, _value: D) -> io::Result<()> {
        Err(io::Error::from(ErrorKind::Unsupported))
    }

    fn println<D: Display + Drop>(&self, _value: D) -> io::Result<()> {
        Err(io::Error::from(ErrorKind::Unsupported))
    }

    fn write_all(&self, _bytes: &[u8]) -> io::Result<()> {
        self.record.call("say", "output")
    }
}
