// The two sides as files of the current folder, and standard output.
ghost use Rattle.std.specs.Prelude.{◌≡◌, [], None, option_map};

use crate::faults::{Cause, Faults, Place};
use crate::output::write_flushed;
use crate::side_file::SideFile;
use host_model::{DiskFailed, Host, SayFailed, Side};
use std::io;
use std::rt::Files;

/// The two sides as the files `nimbus.left` and `nimbus.right` of the current folder, and standard output. It tells
/// nothing of what they hold.
#[derive(Drop)]
pub struct FolderHost<'r, R: Files + Print> {
    rt: &'r R,
    left: SideFile<R>,
    right: SideFile<R>,
    pub(crate) disk: Faults,
    pub(crate) output: Faults,
}

impl<'r, R: Files + Print> FolderHost<'r, R> {
    /// A host that has not failed yet.
    pub fn new(rt: &'r R) -> FolderHost<'r, R>
        ensures faults { (result.disk.count ≡ 0) × (result.output.count ≡ 0) }
        ensures causes { (result.disk.cause ≡ None) × (result.output.cause ≡ None) }
    {
        FolderHost {
            rt,
            left: SideFile::new("nimbus.left"),
            right: SideFile::new("nimbus.right"),
            disk: Faults::none(),
            output: Faults::none(),
        }
    }

    /// Why the disk failed the last time, where it did.
    pub fn disk_cause(&self) -> Option<&Cause>
        ensures { option_map (λ cause. cause.now) result ≡ self.now.disk.cause }
    {
        self.disk.cause()
    }

    /// Why the output failed the last time, where it did.
    pub fn say_cause(&self) -> Option<&Cause>
        ensures { option_map (λ cause. cause.now) result ≡ self.now.output.cause }
    {
        self.output.cause()
    }
}

// Where a side fails.
fn place(side: Side) -> Place {
    match side {
        Side::Left => Place::Named("nimbus.left"),
        Side::Right => Place::Named("nimbus.right"),
    }
}

impl<R: Files + Print> Host for FolderHost<'_, R> {
    ghost tells = { ⊥ };

    ghost reads = { λ _ _. [] };

    ghost images = { λ _ _ _. ⊥ };

    ghost said = { λ _. [] };

    ghost moment = { λ _. 0 };

    ghost might = { λ _ _ _ _ _. ⊥ };

    ghost written = { λ _. 0 };

    ghost disk_faults = { λ h. h.disk.count };

    ghost say_faults = { λ h. h.output.count };

    ghost read_is_image = { λ _ _ tells. absurd tells };

    ghost counts_now = { λ _ _ _ _ _ tells _ _. absurd tells };

    ghost since_earlier = { λ _ _ _ _ _ _ tells _ _. absurd tells };

    ghost only_now = { λ _ _ _ _ tells _. absurd tells };

    fn len(&mut self, side: Side) -> Result<u64, DiskFailed> {
        let answer = match side {
            Side::Left => self.left.len(self.rt),
            Side::Right => self.right.len(self.rt),
        };
        self.disk.counted(answer, place(side), DiskFailed)
    }

    fn read(&mut self, side: Side, at: u64, into: &mut [u8]) -> Result<usize, DiskFailed> {
        let answer = match side {
            Side::Left => self.left.read(self.rt, at, into),
            Side::Right => self.right.read(self.rt, at, into),
        };
        self.disk.counted(answer, place(side), DiskFailed)
    }

    fn write_at(&mut self, side: Side, at: u64, bytes: &[u8]) -> Result<(), DiskFailed> {
        let answer = match side {
            Side::Left => self.left.write_at(self.rt, at, bytes),
            Side::Right => self.right.write_at(self.rt, at, bytes),
        };
        self.disk.counted(answer, place(side), DiskFailed)
    }

    fn sync(&mut self, side: Side) -> Result<(), DiskFailed> {
        let answer = match side {
            Side::Left => self.left.sync(self.rt),
            Side::Right => self.right.sync(self.rt),
        };
        self.disk.counted(answer, place(side), DiskFailed)
    }

    fn say(&mut self, bytes: &[u8]) -> Result<(), SayFailed> {
        let answer = write_flushed(&mut io::writer(self.rt), bytes);
        let place = Place::Named("standard output");
        self.output.counted(answer, place, SayFailed)
    }
}
