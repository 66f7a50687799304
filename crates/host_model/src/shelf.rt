// A shelf of files by name.
ghost use Rattle.std.specs.Prelude.{◌≡◌, ◌≤◌, ◌<◌, ◌+◌, ◌-◌, ◌^◌, ◌↔◌, min, List, ℕ, Option, None, IfOk, OnOk, OnErr};
ghost use Rattle.host_model.specs.Causes.{Rose};

use crate::failing::FailingCalls;
use std::alloc::{AllocError, Global};
use std::collections::BTreeMap;

/// What a shelf gives for a name.
#[derive(Drop)]
pub enum ShelfAnswer {
    /// The file's bytes, at most 4,194,304.
    Bytes(Vec<u8>),
    /// There is no file of that name.
    Absent,
    /// The length of a file that is longer than 4,194,304 bytes.
    TooLarge(u64),
    /// The shelf has failed.
    Failed,
    OutOfMemory,
}

/// A shelf of files, which no call changes. It may keep to itself what they hold: then it tells nothing of them. Its
/// count of faults starts at 0, never falls and stays below 2^64.
pub trait Shelf {
    ghost use Rattle.host_model.specs.Shelf.{IsShelved};

    /// Holds of a shelf that tells what its files hold.
    ghost tells: { Type 0 };

    /// The bytes of the file of a name, where there is one.
    ghost file: { Self → List ℕ → Option (List ℕ) };

    /// How often it has failed.
    ghost faults: { Self → ℕ };

    /// Holds of two shelves where asking the first one for the file of a name may leave the second.
    ghost asks: { Self → List ℕ → Self → Type 0 };

    /// A copy of the file of this name.
    fn take(&mut self, alloc: Global, name: &str) -> ShelfAnswer
        ensures answer { tells → IsShelved (file self.old name.now) result }
        ensures same { tells → (other : List ℕ) → file self.new other ≡ file self.old other }
        ensures later { faults self.old ≤ faults self.new }
        ensures fits { faults self.new < 2 ^ 64 }
        ensures failed { result ≡ ShelfAnswer.Failed → Rose (faults self.old) (faults self.new) }
        ensures quiet { ¬ (result ≡ ShelfAnswer.Failed) → faults self.new ≡ faults self.old }
        ensures asked { asks self.old name.now self.new };
}

/// The most bytes of a file that is given.
const MOST_BYTES: usize = 4_194_304;

/// A shelf in memory, which tells what it holds.
#[derive(Drop)]
pub struct MemShelf {
    files: BTreeMap<String, Vec<u8>>,
    calls: FailingCalls,
    faults: u64,
    ghost fits: { faults < 2 ^ 64 },
}

impl MemShelf {
    ghost use Rattle.host_model.specs.FailingCalls.{none_made};
    ghost use Rattle.host_model.specs.MemShelf.{file_on, calls_of, with_file};

    /// A shelf without files. The calls of `take` with these numbers fail, from 1 on. The one error is want of memory.
    pub fn new(alloc: Global, failing: &[u64]) -> Result<MemShelf, AllocError>
        ensures empty { IfOk result (λ shelf. (name : List ℕ) → file_on shelf name ≡ None) }
        ensures calls { IfOk result (λ shelf. calls_of shelf ≡ none_made failing.now) }
        ensures faults { IfOk result (λ shelf. shelf.faults ≡ 0) }
    {
        Ok(MemShelf {
            files: BTreeMap::new(alloc),
            calls: FailingCalls::new(alloc, failing)?,
            faults: 0,
        })
    }

    /// Adds a file, or replaces the one of that name. All others stay. The one error is want of memory, and then
    /// nothing is changed.
    pub fn add(&mut self, alloc: Global, name: &str, bytes: &[u8]) -> Result<(), AllocError>
        ensures ok { OnOk result ((other : List ℕ) → file_on self.new other ≡ with_file (file_on self.old) name.now bytes.now other) }
        ensures err { OnErr result ((other : List ℕ) → file_on self.new other ≡ file_on self.old other) }
        ensures same { (calls_of self.new ≡ calls_of self.old) × (self.new.faults ≡ self.old.faults) }
    {
        let key = String::from_str(alloc, name)?;
        let copy = bytes.to_vec(alloc)?;
        self.files.insert(key, copy)?;
        Ok(())
    }
}

impl Shelf for MemShelf {
    ghost use Rattle.host_model.specs.FailingCalls.{IsNextFailing, counted};
    ghost use Rattle.host_model.specs.MemShelf.{file_on, calls_of, AsksOf};
    ghost use Rattle.host_model.specs.Shelf.{IsShelved};

    ghost tells = { Unit {0} };

    ghost file = { file_on };

    ghost faults = { λ s. s.faults };

    ghost asks = { AsksOf };

    fn take(&mut self, alloc: Global, name: &str) -> ShelfAnswer
        ensures answer { IsShelved (file_on self.old name.now) result }
        ensures fails { (result ≡ ShelfAnswer.Failed) ↔ IsNextFailing (calls_of self.old) }
        ensures files { self.new.files ≡ self.old.files }
        ensures calls { calls_of self.new ≡ counted (calls_of self.old) }
        ensures later { self.old.faults ≤ self.new.faults }
        ensures fits { self.new.faults < 2 ^ 64 }
        ensures rose { result ≡ ShelfAnswer.Failed → self.new.faults ≡ min (self.old.faults + 1) (2 ^ 64 - 1) }
        ensures no_fault { ¬ (result ≡ ShelfAnswer.Failed) → self.new.faults ≡ self.old.faults }
    {
        if self.calls.next_fails() {
            self.faults = self.faults.saturating_add(1);
            return ShelfAnswer::Failed;
        }
        let Some(bytes) = self.files.get(name) else {
            return ShelfAnswer::Absent;
        };
        if bytes.len() > MOST_BYTES {
            return ShelfAnswer::TooLarge(bytes.len() as u64);
        }
        match bytes.to_vec(alloc) {
            Ok(copy) => ShelfAnswer::Bytes(copy),
            Err(_) => ShelfAnswer::OutOfMemory,
        }
    }
}
