// The numbering of an object's calls, of which some fail.
ghost use Rattle.std.specs.Prelude.{◌≡◌, ◌↔◌, IfOk, IsTrue};
ghost use Rattle.host_model.specs.FailingCalls.{none_made, counted, IsNextFailing};

use std::alloc::{AllocError, Global};
use std::marker::Model;

/// Which calls fail, by their numbers from 1 on, and how many were made.
#[derive(Drop)]
pub struct FailingCalls {
    numbers: Vec<u64>,
    number: u64,
}

impl Model for FailingCalls {
    ghost use Rattle.host_model.specs.FailingCalls.{FailingCalls};

    ghost Value = { FailingCalls };

    ghost view = { λ calls. record { numbers = calls.numbers.items; number = calls.number } };
}

impl FailingCalls {
    /// No call is made yet, and those with these numbers fail.
    pub(crate) fn new(alloc: Global, numbers: &[u64]) -> Result<FailingCalls, AllocError>
        ensures { IfOk result (λ calls. calls ≡ none_made numbers.now) }
    {
        Ok(FailingCalls {
            numbers: numbers.to_vec(alloc)?,
            number: 0,
        })
    }

    /// Counts a call, and tells whether it fails.
    pub(crate) fn next_fails(&mut self) -> bool
        ensures listed { IsTrue result ↔ IsNextFailing self.old }
        ensures counted { self.new ≡ counted self.old }
    {
        self.number = self.number.saturating_add(1);
        let number = self.number;
        self.numbers.iter().any(|listed| *listed == number)
    }
}
