// `context`: the context of the run is read.
ghost use Rattle.std.specs.Prelude.{◌≡◌, ◌≤◌, List, ℕ, IfOk, IsErrOf};
ghost use Rattle.json_tree.specs.Tree.{json_of};
ghost use Rattle.host_model.specs.Causes.{Rose};
ghost use Rattle.app_context.specs.Contexts.{context_of};
ghost use Rattle.client_state.specs.declared.client_state.ClientState.{ClientState};
ghost use Rattle.client_steps.specs.declared.session.Session.{Session};
ghost use Rattle.client_steps.specs.Asked.{asked_outcome, FollowsFrom};
ghost use Rattle.client_steps.specs.Fetching.{file_tree};
ghost use Rattle.client_steps.specs.Steps.{context_read, reading_context};

use crate::asked::Asked;
use crate::faults::StepFault;
use crate::files::read_tree;
use crate::run_context::RunContext;
use crate::session::SessionChange;
use app_context::{ContextFault, read_context};
use client_words::Refusal;
use host_model::Shelf;
use json_tree::Tree;
use sequences::Text;
use std::alloc::{AllocError, Global};

/// What `context` asks for.
pub fn reading_context<F: Shelf>(
    alloc: Global,
    shelf: &mut F,
    file: &Text,
) -> Result<Asked, StepFault>
    ensures asks { F.tells → IfOk result (λ asked. (s : ClientState) (session : Session)
        → asked_outcome s session asked ≡ reading_context s session (file_tree file.now (F.file shelf.old file.now))) }
    ensures follows { IfOk result (λ asked. (s : ClientState) → FollowsFrom s asked) }
    ensures files { F.tells → (name : List ℕ) → F.file shelf.new name ≡ F.file shelf.old name }
    ensures asked { F.asks shelf.old file.now shelf.new }
    ensures cause { IsErrOf result StepFault.ShelfFault → Rose (F.faults shelf.old) (F.faults shelf.new) }
    ensures faults { F.faults shelf.old ≤ F.faults shelf.new }
    ensures quiet { ¬ IsErrOf result StepFault.ShelfFault → F.faults shelf.new ≡ F.faults shelf.old }
{
    match read_tree(alloc, shelf, file)? {
        Ok(tree) => Ok(context_in(alloc, &tree)?),
        Err(refusal) => Ok(Asked::Refused(refusal)),
    }
}

/// What it asks for where its file holds this tree.
fn context_in(alloc: Global, tree: &Tree) -> Result<Asked, AllocError>
    ensures asks { IfOk result (λ asked. (s : ClientState) (session : Session) → asked_outcome s session asked ≡ context_read s session (context_of (json_of tree.now))) }
    ensures follows { IfOk result (λ asked. (s : ClientState) → FollowsFrom s asked) }
{
    match read_context(alloc, tree) {
        Ok(context) => {
            let context = RunContext::new(alloc, context)?;
            Ok(Asked::in_session(SessionChange::Context(context)))
        }
        Err(ContextFault::BadContext(key)) => Ok(Asked::Refused(Refusal::BadContext(key))),
        Err(ContextFault::OutOfMemory) => Err(AllocError),
    }
}
