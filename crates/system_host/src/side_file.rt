// One side of a store as a file of the current folder. It is opened once, and made at the first write.
ghost use Rattle.std.specs.Prelude.{◌≡◌, ◌≤◌, true, length, IfOk, OnOk, IfSome};

use std::fs::{File, OpenFile, OpenOptions};
use std::io;
use std::io::{ErrorKind, Read, Seek, SeekFrom, Write};
use std::rt::Files;

/// The last place of a file that the system takes.
const LAST_PLACE: u64 = (1 << 63) - 1;

/// How many times a call is tried again where signals cut it short.
const TRIES: u32 = 64;

/// A file that is open, and whether all that it holds was synced since it was opened and written.
#[derive(Drop)]
struct OpenSide<F: Drop> {
    file: F,
    is_synced: bool,
}

/// One side, open from the first call on that finds or makes its file.
#[derive(Drop)]
pub(crate) struct SideFile<R: Files> {
    name: &'static str,
    side: Option<OpenSide<R::File>>,
    is_name_synced: bool,
}

impl<R: Files> SideFile<R> {
    /// The side of this name, not yet looked for.
    pub(crate) fn new(name: &'static str) -> SideFile<R> {
        SideFile {
            name,
            side: None,
            is_name_synced: false,
        }
    }

    // Opens the file, where it is there and not yet open.
    fn find(&mut self, rt: &R) -> io::Result<()> {
        if self.side.is_none() {
            match OpenOptions::new()
                .read(true)
                .write(true)
                .open(rt, self.name)
            {
                Ok(file) => self.hold(file),
                Err(error) if error.kind() == ErrorKind::NotFound => {}
                Err(error) => return Err(error),
            }
        }
        Ok(())
    }

    // Opens the file, or makes it.
    fn find_or_make(&mut self, rt: &R) -> io::Result<()> {
        self.find(rt)?;
        if self.side.is_none() {
            let file = OpenOptions::new()
                .read(true)
                .write(true)
                .create_new(true)
                .open(rt, self.name)?;
            self.hold(file);
        }
        Ok(())
    }

    // Keeps a file that was opened. What it holds may not be on the disk.
    fn hold(&mut self, file: R::File) {
        self.side = Some(OpenSide {
            file,
            is_synced: false,
        });
    }

    /// The file's length, 0 where there is none.
    pub(crate) fn len(&mut self, rt: &R) -> io::Result<u64> {
        self.find(rt)?;
        match &self.side {
            None => Ok(0),
            Some(side) => Ok(side.file.metadata()?.len()),
        }
    }

    /// Reads from `at` on, until `into` is full or the file ends.
    pub(crate) fn read(&mut self, rt: &R, at: u64, into: &mut [u8]) -> io::Result<usize>
        ensures { IfOk result (λ n. n ≤ length into.new) }
    {
        self.find(rt)?;
        match &mut self.side {
            None => Ok(0),
            Some(side) => read_all_at(&mut side.file, at, into),
        }
    }

    /// Writes all the bytes from `at` on, and makes the file where there is none.
    pub(crate) fn write_at(&mut self, rt: &R, at: u64, bytes: &[u8]) -> io::Result<()> {
        self.find_or_make(rt)?;
        match &mut self.side {
            None => Err(io::Error::from(ErrorKind::NotFound)),
            Some(side) => {
                side.is_synced = false;
                write_all_at(&mut side.file, at, bytes)
            }
        }
    }

    /// Syncs the file, where there is one. The first sync of the process also syncs the folder, which holds the
    /// file's name: an earlier process may have made the file and ended before its sync.
    pub(crate) fn sync(&mut self, rt: &R) -> io::Result<()>
        ensures file { OnOk result (IfSome self.new.side (λ side. side.is_synced ≡ true)) }
        ensures folder { OnOk result (IfSome self.new.side (λ side. self.new.is_name_synced ≡ true)) }
    {
        self.find(rt)?;
        if self.side.is_none() {
            return Ok(());
        }
        self.sync_bytes()?;
        self.sync_name(rt)
    }

    // Syncs the file.
    fn sync_bytes(&mut self) -> io::Result<()>
        ensures file { OnOk result (IfSome self.new.side (λ side. side.is_synced ≡ true)) }
    {
        if let Some(side) = &mut self.side {
            sync_again(&side.file)?;
            side.is_synced = true;
        }
        Ok(())
    }

    // Syncs the folder, once.
    fn sync_name(&mut self, rt: &R) -> io::Result<()>
        ensures folder { OnOk result (self.new.is_name_synced ≡ true) }
        ensures same { self.new.side ≡ self.old.side }
    {
        if !self.is_name_synced {
            let folder = File::open(rt, ".")?;
            sync_again(&folder)?;
            self.is_name_synced = true;
        }
        Ok(())
    }
}

// A sync, tried again where a signal cuts it short.
fn sync_again<F: OpenFile>(file: &F) -> io::Result<()> {
    for _ in 0..TRIES {
        match file.sync_all() {
            Err(error) if error.kind() == ErrorKind::Interrupted => {}
            answer => return answer,
        }
    }
    Err(io::Error::from(ErrorKind::Interrupted))
}

// Writes all the bytes from `at` on.
fn write_all_at<F: Write + Seek>(file: &mut F, at: u64, bytes: &[u8]) -> io::Result<()> {
    file.seek(SeekFrom::Start(at))?;
    file.write_all(bytes)
}

// Reads until `into` is full or the file ends. Past the last place that the system takes nothing is read.
fn read_all_at<F: Read + Seek>(file: &mut F, at: u64, into: &mut [u8]) -> io::Result<usize>
    ensures { IfOk result (λ n. n ≤ length into.new) }
{
    if at > LAST_PLACE {
        return Ok(0);
    }
    file.seek(SeekFrom::Start(at))?;
    let mut done = 0;
    let mut tries = 0;
    for _ in 0..u64::MAX {
        if done >= into.len() {
            break;
        }
        match file.read(&mut into[done..]) {
            Ok(0) => break,
            Ok(count) => done += count,
            Err(error) if error.kind() == ErrorKind::Interrupted && tries < TRIES => tries += 1,
            Err(error) => return Err(error),
        }
    }
    Ok(done)
}
