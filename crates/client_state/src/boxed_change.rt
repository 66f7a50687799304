// A change of a client's state in a box.
ghost use Rattle.std.specs.Prelude.{◌≡◌, IfOk};
ghost use Rattle.std.specs.Borrow.{sem};

use crate::state_change::StateChange;
use std::alloc::{AllocError, Global};
use std::marker::Model;

/// What a command makes of a client's state, in a box, so that a step is moved in few words. Contracts see it as the change.
#[derive(Drop)]
pub struct BoxedChange {
    change: Box<StateChange>,
}

impl Model for BoxedChange {
    ghost use Rattle.std.specs.Coded.{codes};
    ghost use Rattle.json_tree.specs.Json.{json_code};
    ghost use Rattle.client_state.specs.declared.state_change.StateChange.{StateChange};

    ghost Value = { StateChange };

    ghost coded = { Prim.hlevel (codes, json_code) };

    ghost view = { λ c. c.change.value };
}

impl BoxedChange {
    ghost use Rattle.client_state.specs.Lending.{LendsChange};

    /// A change in a box of its own.
    pub fn new(alloc: Global, change: StateChange) -> Result<BoxedChange, AllocError>
        ensures { IfOk result (λ c. c ≡ change) }
    {
        Ok(BoxedChange {
            change: Box::new(alloc, change)?,
        })
    }

    /// The change. It takes no memory.
    pub fn get(&self) -> &StateChange
        ensures { result.now ≡ self.now }
    {
        &self.change
    }

    /// The change, to be changed where it stands. It takes no memory.
    pub fn get_mut(&mut self) -> &mut StateChange
        ensures* writes_back { sem 𝓛 (LendsChange self.entry result) }
        ensures value { result.now ≡ self.old }
    {
        &mut self.change
    }
}
