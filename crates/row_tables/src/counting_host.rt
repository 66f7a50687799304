// A host in memory that counts calls.
ghost use Rattle.std.specs.Prelude.{[], ◌^◌, ◌-◌};

use crate::bytes::Bytes;
use host_model::{Choice, DiskFailed, Host, MemHost, SayFailed, Side};
use std::alloc::{AllocError, Global};

/// Which calls of a host fail: the numbers of one of all calls and of one of each kind, from 1 on, or 0 where none fails.
#[derive(Clone, Copy)]
pub struct HostFaults {
    pub call: u64,
    pub write: u64,
    pub sync: u64,
    pub say: u64,
}

impl HostFaults {
    /// No call fails.
    pub fn none() -> HostFaults {
        HostFaults {
            call: 0,
            write: 0,
            sync: 0,
            say: 0,
        }
    }
}

/// Which call of a host has failed.
#[derive(Clone, Copy, PartialEq, Eq)]
pub enum Failed {
    No,
    Disk,
    Say,
}

/// What a host counts of the calls that it has done.
#[derive(Clone, Copy)]
struct Counts {
    writes: u64,
    written: u64,
    end: u64,
    answers: u64,
    failed: Failed,
}

impl Counts {
    fn none() -> Counts {
        Counts {
            writes: 0,
            written: 0,
            end: 0,
            answers: 0,
            failed: Failed::No,
        }
    }

    fn add_write(&mut self, at: u64, length: u64) {
        self.writes = self.writes.saturating_add(1);
        self.written = self.written.saturating_add(length);
        self.end = self.end.max(at.saturating_add(length));
    }
}

/// A host in memory that tells nothing of what it holds, and counts its calls. An endless one keeps nothing that is written, and
/// no write or sync of it fails unless it is to fail.
#[derive(Drop)]
pub struct CountingHost {
    memory: MemHost,
    is_endless: bool,
    /// The faults to come, each counted down to its call.
    faults: HostFaults,
    counts: Counts,
    /// Where what is said since it counts begins.
    said_from: usize,
}

impl CountingHost {
    /// A host with these bytes on its sides and room for so many on each, whose call of this number fails, or none at 0.
    pub fn new(
        alloc: Global,
        left: &[u8],
        right: &[u8],
        room: usize,
        failing: u64,
    ) -> Result<CountingHost, AllocError> {
        let room = room.max(left.len()).max(right.len());
        Ok(CountingHost {
            memory: MemHost::new(alloc, left, right, room, &[failing])?,
            is_endless: false,
            faults: HostFaults::none(),
            counts: Counts::none(),
            said_from: 0,
        })
    }

    /// From here on it keeps nothing that is written.
    pub fn be_endless(&mut self) {
        self.is_endless = true;
    }

    /// Counts from here on, and the calls of these numbers fail.
    pub fn count_anew(&mut self, faults: HostFaults) {
        self.faults = faults;
        self.counts = Counts::none();
        self.said_from = self.said().len();
    }

    /// Makes bytes what a crash may leave on a side.
    pub fn set_image(&self, alloc: Global, side: Side, choice: Choice, bytes: &mut Bytes) {
        bytes.set(self.memory.image(alloc, side, choice));
    }

    /// The text said.
    pub fn said(&self) -> &[u8] {
        self.memory.said()
    }

    /// What of it was said since it counts.
    pub fn said_anew(&self) -> &[u8] {
        self.said().get(self.said_from..).unwrap_or(b"")
    }

    /// How many writes were done.
    pub fn writes(&self) -> u64 {
        self.counts.writes
    }

    /// How many bytes were written.
    pub fn written(&self) -> u64 {
        self.counts.written
    }

    /// Where the furthest of them ends.
    pub fn end(&self) -> u64 {
        self.counts.end
    }

    /// How many answers were said.
    pub fn answers(&self) -> u64 {
        self.counts.answers
    }

    /// Which call has failed last.
    pub fn failed(&self) -> Failed {
        self.counts.failed
    }

    fn disk_fault(&mut self) -> DiskFailed {
        self.counts.failed = Failed::Disk;
        DiskFailed
    }

    fn say_fault(&mut self) -> SayFailed {
        self.counts.failed = Failed::Say;
        SayFailed
    }

    fn next_call_fails(&mut self) -> bool {
        counts_down(&mut self.faults.call)
    }

    fn next_write_fails(&mut self) -> bool {
        let (call, write) = (self.next_call_fails(), counts_down(&mut self.faults.write));
        call || write
    }

    fn next_sync_fails(&mut self) -> bool {
        let (call, sync) = (self.next_call_fails(), counts_down(&mut self.faults.sync));
        call || sync
    }

    fn next_say_fails(&mut self) -> bool {
        let (call, say) = (self.next_call_fails(), counts_down(&mut self.faults.say));
        call || say
    }

    // Writes, where it keeps what is written.
    fn keep(&mut self, side: Side, at: u64, bytes: &[u8]) -> Result<(), DiskFailed> {
        if self.is_endless {
            return Ok(());
        }
        self.memory.write_at(side, at, bytes)
    }
}

// Counts a call, and tells whether it fails.
fn counts_down(number: &mut u64) -> bool {
    let before = *number;
    *number = before.saturating_sub(1);
    before == 1
}

impl Host for CountingHost {
    ghost tells = { ⊥ };

    ghost reads = { λ _ _. [] };

    ghost images = { λ _ _ _. ⊥ };

    ghost said = { λ _. [] };

    ghost moment = { λ _. 0 };

    ghost might = { λ _ _ _ _ _. ⊥ };

    ghost written = { λ _. 0 };

    // The counts of faults stand at their last value.
    ghost disk_faults = { λ _. 2 ^ 64 - 1 };

    ghost say_faults = { λ _. 2 ^ 64 - 1 };

    ghost read_is_image = { λ _ _ tells. absurd tells };

    ghost counts_now = { λ _ _ _ _ _ tells _ _. absurd tells };

    ghost since_earlier = { λ _ _ _ _ _ _ tells _ _. absurd tells };

    ghost only_now = { λ _ _ _ _ tells _. absurd tells };

    fn len(&mut self, side: Side) -> Result<u64, DiskFailed> {
        if self.next_call_fails() {
            return Err(self.disk_fault());
        }
        match self.memory.len(side) {
            Ok(length) => Ok(length),
            Err(DiskFailed) => Err(self.disk_fault()),
        }
    }

    fn read(&mut self, side: Side, at: u64, into: &mut [u8]) -> Result<usize, DiskFailed> {
        if self.next_call_fails() {
            return Err(self.disk_fault());
        }
        match self.memory.read(side, at, into) {
            Ok(count) => Ok(count),
            Err(DiskFailed) => Err(self.disk_fault()),
        }
    }

    fn write_at(&mut self, side: Side, at: u64, bytes: &[u8]) -> Result<(), DiskFailed> {
        if self.next_write_fails() || self.keep(side, at, bytes).is_err() {
            return Err(self.disk_fault());
        }
        self.counts.add_write(at, bytes.len() as u64);
        Ok(())
    }

    fn sync(&mut self, side: Side) -> Result<(), DiskFailed> {
        if self.next_sync_fails() || (!self.is_endless && self.memory.sync(side).is_err()) {
            return Err(self.disk_fault());
        }
        Ok(())
    }

    fn say(&mut self, bytes: &[u8]) -> Result<(), SayFailed> {
        if self.next_say_fails() || self.memory.say(bytes).is_err() {
            return Err(self.say_fault());
        }
        self.counts.answers = self.counts.answers.saturating_add(1);
        Ok(())
    }
}
