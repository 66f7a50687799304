// `fetch`: the recipes of a payload become pending.
ghost use Rattle.std.specs.Prelude.{◌≡◌, ◌≤◌, List, ℕ, IfOk, IsErrOf};
ghost use Rattle.json_tree.specs.Tree.{json_of};
ghost use Rattle.recipe_reader.specs.Payloads.{payload_of};
ghost use Rattle.host_model.specs.Causes.{Rose};
ghost use Rattle.enrol_states.specs.declared.state.State.{State};
ghost use Rattle.enrol_states.specs.Consistent.{AreKept};
ghost use Rattle.client_state.specs.Sound.{IsConsistent};
ghost use Rattle.client_steps.specs.declared.session.Session.{Session};
ghost use Rattle.client_steps.specs.Asked.{asked_outcome, FollowsFrom};
ghost use Rattle.client_steps.specs.Fetching.{file_tree};
ghost use Rattle.client_steps.specs.Found.{accepted, fetched_outcome};
ghost use Rattle.client_steps.specs.Steps.{fetched, fetching, enrolling};

use crate::asked::Asked;
use crate::faults::StepFault;
use crate::files::read_tree;
use client_state::ClientState;
use client_words::{Answer, Refusal};
use host_model::Shelf;
use json_tree::Tree;
use recipe_reader::{Payload, PayloadFault, read_payload};
use sequences::Text;
use state_codec::RecipeLists;
use std::alloc::{AllocError, Global};

/// What `fetch` asks for in this state.
pub fn fetching<F: Shelf>(
    alloc: Global,
    state: &ClientState,
    shelf: &mut F,
    file: &Text,
) -> Result<Asked, StepFault>
    requires { IsConsistent state.now }
    ensures asks { F.tells → IfOk result (λ asked. (session : Session)
        → asked_outcome state.now session asked ≡ enrolling state.now session (fetching state.now.enrolment session (file_tree file.now (F.file shelf.old file.now)))) }
    ensures follows { IfOk result (λ asked. FollowsFrom state.now asked) }
    ensures files { F.tells → (name : List ℕ) → F.file shelf.new name ≡ F.file shelf.old name }
    ensures asked { F.asks shelf.old file.now shelf.new }
    ensures cause { IsErrOf result StepFault.ShelfFault → Rose (F.faults shelf.old) (F.faults shelf.new) }
    ensures faults { F.faults shelf.old ≤ F.faults shelf.new }
    ensures quiet { ¬ IsErrOf result StepFault.ShelfFault → F.faults shelf.new ≡ F.faults shelf.old }
{
    match fetch(alloc, shelf, file)? {
        Ok(payload) => Ok(with_pending(alloc, state, payload)?),
        Err(refusal) => Ok(Asked::Refused(refusal)),
    }
}

/// The state with the recipes of a payload pending.
fn with_pending(alloc: Global, state: &ClientState, payload: Payload) -> Result<Asked, AllocError>
    requires consistent { IsConsistent state.now }
    requires kept { AreKept payload.recipes }
    ensures asks { IfOk result (λ asked. (session : Session) → asked_outcome state.now session asked ≡ enrolling state.now session (accepted state.now.enrolment session payload)) }
    ensures follows { IfOk result (λ asked. FollowsFrom state.now asked) }
{
    let Payload { recipes, skipped } = payload;
    let kept = recipes.as_slice().len() as u32;
    let mut next = state.enrolment.clone()?;
    next.pending = Some(recipes);
    let answer = Answer::Fetched { kept, skipped };
    Ok(Asked::enrolled(alloc, next, RecipeLists::LiveAsBefore, answer)?)
}

/// The payload of the file of this name, or the refusal of the command.
fn fetch<F: Shelf>(
    alloc: Global,
    shelf: &mut F,
    name: &Text,
) -> Result<Result<Payload, Refusal>, StepFault>
    ensures found { F.tells → IfOk result (λ found. (e : State) (session : Session)
        → fetching e session (file_tree name.now (F.file shelf.old name.now)) ≡ fetched_outcome e session found) }
    ensures kept { IfOk result (λ found. IfOk found (λ payload. AreKept payload.recipes)) }
    ensures files { F.tells → (other : List ℕ) → F.file shelf.new other ≡ F.file shelf.old other }
    ensures asked { F.asks shelf.old name.now shelf.new }
    ensures cause { IsErrOf result StepFault.ShelfFault → Rose (F.faults shelf.old) (F.faults shelf.new) }
    ensures faults { F.faults shelf.old ≤ F.faults shelf.new }
    ensures quiet { ¬ IsErrOf result StepFault.ShelfFault → F.faults shelf.new ≡ F.faults shelf.old }
{
    match read_tree(alloc, shelf, name)? {
        Ok(tree) => Ok(payload_in(alloc, &tree)?),
        Err(refusal) => Ok(Err(refusal)),
    }
}

/// The payload of a tree, or the refusal of the command.
fn payload_in(alloc: Global, tree: &Tree) -> Result<Result<Payload, Refusal>, AllocError>
    ensures found { IfOk result (λ found. (e : State) (session : Session) → fetched e session (payload_of (json_of tree.now)) ≡ fetched_outcome e session found) }
    ensures kept { IfOk result (λ found. IfOk found (λ payload. AreKept payload.recipes)) }
{
    match read_payload(alloc, tree) {
        Ok(payload) => {
            // Its contract says that the recipes are in order.
            payload.recipes.as_slice();
            Ok(Ok(payload))
        }
        Err(PayloadFault::NoData) => Ok(Err(Refusal::NoData)),
        Err(PayloadFault::TooManyRecipes(count)) => Ok(Err(Refusal::TooManyRecipes(count))),
        Err(PayloadFault::OutOfMemory) => Err(AllocError),
    }
}
