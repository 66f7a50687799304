// A source of bytes, and one in memory.
ghost use Rattle.std.specs.Prelude.{◌≡◌, ◌≤◌, ◌<◌, ◌+◌, ◌^◌, ◌++◌, ◌↔◌, min, [], List, ℕ, length, take, drop, IfOk, OnOk, OnErr, IsErr};
ghost use Rattle.host_model.specs.Causes.{HasCause};

use crate::failing::FailingCalls;
use std::alloc::{AllocError, Global};
use std::marker::Model;

/// A source has failed.
#[derive(Clone, Copy, Debug, PartialEq, Eq)]
pub struct SourceFailed;

/// A source of bytes. It may keep to itself which bytes are left: then it tells nothing of them. Its count of faults
/// starts at 0, never falls and stays below 2^64.
pub trait Source {
    /// Holds of a source that tells which bytes are left.
    ghost tells: { Type 0 };

    /// The bytes that are left.
    ghost left: { Self → List ℕ };

    /// How often it has failed.
    ghost faults: { Self → ℕ };

    /// Places some of the bytes that are left, from the first on, and gives their number. 0 for a piece that isn't
    /// empty comes exactly where no byte is left. A read that fails takes no byte.
    fn read(&mut self, into: &mut [u8]) -> Result<usize, SourceFailed>
        ensures within { IfOk result (λ n. n ≤ length into.old) }
        ensures count { tells → IfOk result (λ n. n ≤ length (left self.old)) }
        ensures bytes { tells → IfOk result (λ n. into.new ≡ take n (left self.old) ++ drop n into.old) }
        ensures rest { tells → IfOk result (λ n. left self.new ≡ drop n (left self.old)) }
        ensures end { tells → IfOk result (λ n. 0 < length into.old → (n ≡ 0) ↔ (left self.old ≡ [])) }
        ensures kept { tells → OnErr result (left self.new ≡ left self.old) }
        ensures cause { HasCause (faults self.old) (faults self.new) result }
        ensures quiet { OnOk result (faults self.new ≡ faults self.old) }
        ensures fits { faults self.new < 2 ^ 64 };
}

/// A source in memory, which tells what it holds.
#[derive(Drop)]
pub struct MemSource {
    bytes: Vec<u8>,
    at: usize,
    piece: usize,
    calls: FailingCalls,
    faults: u64,
}

impl Model for MemSource {
    ghost use Rattle.std.specs.Prelude.{◌≤◌, ◌<◌, ◌^◌, ℕ, length, drop};
    ghost use Rattle.host_model.specs.MemSource.{MemSource};

    ghost Value = { MemSource };

    ghost view = { λ s. record { left = drop s.at s.bytes.items; piece = s.piece; calls = s.calls; faults = s.faults } };

    ghost invariant = { λ s. (s.at ≤ length s.bytes.items) × (0 < s.piece) × (s.faults < 2 ^ 64) };
}

impl MemSource {
    ghost use Rattle.host_model.specs.FailingCalls.{none_made};

    /// A source of these bytes, which gives at most `piece` of them at once. The reads with these numbers fail, from
    /// 1 on. The one error is want of memory.
    pub fn new(
        alloc: Global,
        bytes: &[u8],
        piece: usize,
        failing: &[u64],
    ) -> Result<MemSource, AllocError>
        requires { 0 < piece }
        ensures { IfOk result (λ source. source ≡ record { left = bytes.now; piece = piece; calls = none_made failing.now; faults = 0 }) }
    {
        Ok(MemSource {
            bytes: bytes.to_vec(alloc)?,
            at: 0,
            piece,
            calls: FailingCalls::new(alloc, failing)?,
            faults: 0,
        })
    }
}

impl Source for MemSource {
    ghost use Rattle.host_model.specs.FailingCalls.{IsNextFailing};
    ghost use Rattle.host_model.specs.MemSource.{with_read, with_fault};

    ghost tells = { Unit {0} };

    ghost left = { λ s. s.left };

    ghost faults = { λ s. s.faults };

    fn read(&mut self, into: &mut [u8]) -> Result<usize, SourceFailed>
        ensures fails { IsErr result ↔ IsNextFailing self.old.calls }
        ensures count { IfOk result (λ n. n ≡ min (length into.old) (min self.old.piece (length self.old.left))) }
        ensures bytes { IfOk result (λ n. into.new ≡ take n self.old.left ++ drop n into.old) }
        ensures end { IfOk result (λ n. 0 < length into.old → (n ≡ 0) ↔ (self.old.left ≡ [])) }
        ensures ok { IfOk result (λ n. self.new ≡ with_read self.old n) }
        ensures err { OnErr result ((self.new ≡ with_fault self.old) × (into.new ≡ into.old)) }
        ensures fits { self.new.faults < 2 ^ 64 }
        ensures later { self.old.faults ≤ self.new.faults }
    {
        if self.calls.next_fails() {
            self.faults = self.faults.saturating_add(1);
            return Err(SourceFailed);
        }
        let count = into.len().min(self.piece).min(self.bytes.len() - self.at);
        into[..count].copy_from_slice(&self.bytes[self.at..self.at + count]);
        self.at += count;
        Ok(count)
    }
}
