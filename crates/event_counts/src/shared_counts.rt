// The counts of a name, which several owners share.
ghost use Rattle.std.specs.Prelude.{◌≡◌, IfOk};

use crate::name_counts::NameCounts;
use sequences::ExactClone;
use std::alloc::{AllocError, Global};
use std::marker::Model;
use std::rc::Rc;

/// The counts of a name. A clone shares them. Contracts see it as the counts.
#[derive(Drop)]
pub struct SharedCounts {
    counts: Rc<NameCounts>,
}

impl Model for SharedCounts {
    ghost use Rattle.event_counts.specs.declared.name_counts.NameCounts.{NameCounts};

    ghost Value = { NameCounts };

    ghost view = { λ c. c.counts.value };
}

impl SharedCounts {
    /// Counts of their own.
    pub(crate) fn new(alloc: Global, counts: NameCounts) -> Result<SharedCounts, AllocError>
        ensures { IfOk result (λ c. c ≡ counts) }
    {
        Ok(SharedCounts {
            counts: Rc::new(alloc, counts)?,
        })
    }

    /// The counts. It takes no memory.
    pub(crate) fn get(&self) -> &NameCounts
        ensures { result.now ≡ self.now }
    {
        &self.counts
    }
}

/// The same counts with one more owner. It takes no memory.
impl Clone for SharedCounts {
    ghost is_clone = { λ c d. d ≡ c };

    fn clone(&self) -> Result<SharedCounts, AllocError> {
        Ok(SharedCounts {
            counts: self.counts.clone()?,
        })
    }
}

impl ExactClone for SharedCounts {
    ghost exact = { λ c d same. same };
}
