// `confirm`: the host application knows the changes up to a number.
ghost use Rattle.std.specs.Prelude.{◌≡◌, IfOk};
ghost use Rattle.client_steps.specs.declared.session.Session.{Session};
ghost use Rattle.client_steps.specs.Asked.{asked_outcome, FollowsFrom};
ghost use Rattle.client_steps.specs.Steps.{confirming};

use crate::asked::Asked;
use change_outbox::ConfirmFault;
use client_state::{ClientState, StateChange};
use client_words::{Answer, Refusal};
use std::alloc::{AllocError, Global};

/// What `confirm` asks for.
pub fn confirming(alloc: Global, state: &ClientState, number: u64) -> Result<Asked, AllocError>
    ensures asks { IfOk result (λ asked. (session : Session) → asked_outcome state.now session asked
        ≡ confirming state.now session number) }
    ensures follows { IfOk result (λ asked. FollowsFrom state.now asked) }
{
    match state.outbox.confirm(number) {
        Ok(outbox) => {
            // Its contract says that the outbox is sound.
            outbox.next();
            let change = StateChange::of_outbox(outbox);
            Asked::new_state(alloc, change, Answer::Okay)
        }
        Err(ConfirmFault::NoSuchChange(next)) => Ok(Asked::Refused(Refusal::NoSuchChange(next))),
        Err(ConfirmFault::OutOfMemory) => Err(AllocError),
    }
}
