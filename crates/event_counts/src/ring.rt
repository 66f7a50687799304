// A list of counts in a ring: as time goes on the oldest counts give way to new ones.
ghost use Rattle.std.specs.Prelude.{◌≡◌, ◌↔◌, ◌++◌, IsTrue, length, replicate, IfOk};
ghost use Rattle.circular_buffer.specs.Buffer.{buffer};
ghost use Rattle.event_counts.specs.Lists.{turned, raised};

use circular_buffer::HeapCircularBuffer;
use std::alloc::{AllocError, Global};
use std::marker::Model;

/// A full ring of counts, of which the first is the newest. Contracts see it as the list of the counts.
#[derive(Drop)]
pub struct Ring {
    counts: HeapCircularBuffer<u32>,
}

impl Model for Ring {
    ghost use Rattle.std.specs.Prelude.{◌≡◌, ℕ, List, length};

    ghost Value = { List ℕ };

    ghost view = { λ r. r.counts.items };

    ghost invariant = { λ r. length r.counts.items ≡ r.counts.capacity };
}

impl Ring {
    /// A ring of so many zeros.
    pub(crate) fn of_zeros(alloc: Global, len: usize) -> Result<Ring, AllocError>
        ensures { IfOk result (λ r. r ≡ replicate len 0) }
    {
        let zeros = vec![in alloc; 0; len]?;
        Ring::of_counts(alloc, zeros.as_slice())
    }

    /// A ring of these counts.
    pub(crate) fn of_counts(alloc: Global, list: &[u32]) -> Result<Ring, AllocError>
        ensures { IfOk result (λ r. r ≡ list.now) }
    {
        let mut counts = HeapCircularBuffer::with_capacity(alloc, list.len())?;
        counts.fill_from_slice(list);
        Ok(Ring { counts })
    }

    /// The counts in two slices, the newest first.
    pub(crate) fn as_slices(&self) -> (&[u32], &[u32])
        ensures { result.0.now ++ result.1.now ≡ self.now }
    {
        self.counts.as_slices()
    }

    /// The same counts in a ring of their own.
    pub(crate) fn copy(&self, alloc: Global) -> Result<Ring, AllocError>
        ensures { IfOk result (λ r. r ≡ self.now) }
    {
        let (front, back) = self.as_slices();
        let mut counts = HeapCircularBuffer::with_capacity(alloc, front.len() + back.len())?;
        counts.fill_from_slice(front);
        counts.fill_from_slice(back);
        Ok(Ring { counts })
    }

    /// Whether both have the same counts. It takes no memory. Rings that begin at one place of their blocks, as those of shared
    /// counts do, are compared by whole runs of counts.
    pub(crate) fn is_same(&self, other: &Ring) -> bool
        ensures { IsTrue result ↔ (self.now ≡ other.now) }
    {
        let (front, back) = self.as_slices();
        let (other_front, other_back) = other.as_slices();
        if front.len() == other_front.len() {
            are_same(front, back, other_front, other_back)
        } else {
            self.has_same_each(other)
        }
    }

    // Whether both have the same counts, told one after the other.
    fn has_same_each(&self, other: &Ring) -> bool
        ensures { IsTrue result ↔ (self.now ≡ other.now) }
    {
        let len = self.counts.len();
        if other.counts.len() != len {
            return false;
        }
        for place in 0..len {
            if self.counts.get(place) != other.counts.get(place) {
                return false;
            }
        }
        true
    }

    /// Turns the ring by so many intervals. Each is a new zero, which takes the place of the oldest count.
    #[tactic(auto, using(crate::proofs::Turning::turned_min, crate::proofs::Turning::length_of_turned))]
    pub(crate) fn turn(&mut self, steps: u64)
        ensures { self.new ≡ turned steps self.old }
    {
        let steps = steps.min(self.counts.len() as u64);
        turn_by(&mut self.counts, steps);
    }

    /// Adds to the newest count, up to the greatest `u32`.
    #[tactic(auto, using(crate::proofs::Turning::raised_newest, crate::proofs::Turning::raised_none))]
    pub(crate) fn raise(&mut self, count: u32)
        ensures { self.new ≡ raised count self.old }
    {
        if let Some(newest) = self.counts.pop_front() {
            self.counts.push_front(newest.saturating_add(count));
        }
    }
}

// Whether both parts are the same, of which the front ones are equally long.
fn are_same(front: &[u32], back: &[u32], other_front: &[u32], other_back: &[u32]) -> bool
    requires { length front.now ≡ length other_front.now }
    ensures { IsTrue result ↔ (front.now ++ back.now ≡ other_front.now ++ other_back.now) }
{
    front == other_front && back == other_back
}

// Turns a full ring by so many intervals, one after the other.
#[tactic(auto, using(crate::proofs::Turning::turned_once, crate::proofs::Turning::turned_not))]
fn turn_by(counts: &mut HeapCircularBuffer<u32>, steps: u64)
    requires { length counts.old.items ≡ counts.old.capacity }
    ensures { counts.new ≡ buffer (turned steps counts.old.items) counts.old.capacity }
{
    let mut left = steps;
    while left > 0 {
        counts.push_front(0);
        left -= 1;
    }
}
