// The counts of all names.
ghost use Rattle.std.specs.Prelude.{◌≡◌, ◌≤◌, ◌+◌, [], length, slice_range};
ghost use Rattle.std.specs.List.{AllByRecursion};
ghost use Rattle.event_counts.specs.Sound.{IsSound, IsSoundName};

use crate::shared_counts::SharedCounts;
use sequences::{ExactClone, SharedList};
use std::alloc::{AllocError, Global};
use std::marker::Model;

/// The most names that are counted.
pub(crate) const MAX_NAMES: usize = 64;

/// The counts of at most 64 names, in order by name. Contracts see them as the list of the counts of each name. A clone shares
/// the list.
#[derive(Drop)]
pub struct Counts {
    pub(crate) names: SharedList<SharedCounts>,
}

impl Model for Counts {
    ghost use Rattle.std.specs.Prelude.{List};
    ghost use Rattle.event_counts.specs.declared.name_counts.NameCounts.{NameCounts};
    ghost use Rattle.event_counts.specs.Sound.{IsSound};

    ghost Value = { List NameCounts };

    ghost view = { λ c. c.names };

    ghost invariant = { λ c. IsSound c.names };
}

/// The same counts. It takes no memory.
impl Clone for Counts {
    ghost is_clone = { λ c d. d ≡ c };

    fn clone(&self) -> Result<Counts, AllocError> {
        Ok(Counts {
            names: self.names.clone()?,
        })
    }
}

impl ExactClone for Counts {
    ghost exact = { λ c d same. same };
}

impl Counts {
    /// Counts without names. It takes no memory.
    pub fn new(alloc: Global) -> Counts
        ensures { result ≡ [] }
    {
        Counts {
            names: SharedList::new(alloc),
        }
    }

    /// How many names are counted.
    pub fn len(&self) -> usize
        ensures { result ≡ length self.now }
    {
        self.names().len()
    }

    /// What counts keep by their type: names in order, at most 64, each with full lists of counts and a moment up to the end of
    /// the year 9999. The call does nothing.
    pub fn keeps(&self)
        ensures { IsSound self.now }
    {
        let _names = self.names();
    }

    /// The counts of each name, in order by name.
    pub(crate) fn names(&self) -> &[SharedCounts]
        ensures names { result.now ≡ self.now }
        ensures sound { IsSound self.now }
    {
        self.names.as_slice()
    }

    /// The counts of so many names from a place on.
    #[tactic(auto, using(crate::proofs::Parts::part_sound, crate::proofs::Parts::part_short))]
    pub(crate) fn part(&self, start: usize, count: usize) -> &[SharedCounts]
        requires { start + count ≤ length self.now }
        ensures names { result.now ≡ slice_range self.now start (start + count) }
        ensures sound { AllByRecursion IsSoundName result.now }
        ensures most { length result.now ≤ 64 }
    {
        &self.names()[start..start + count]
    }
}
