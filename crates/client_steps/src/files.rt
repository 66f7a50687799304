// The JSON files that commands name.
ghost use Rattle.std.specs.Prelude.{◌≡◌, ◌≤◌, List, ℕ, IfOk, IsErrOf};
ghost use Rattle.json_tree.specs.Bytes.{tree_of};
ghost use Rattle.host_model.specs.Causes.{Rose};
ghost use Rattle.client_steps.specs.Fetching.{shallow_tree, file_tree};
ghost use Rattle.client_steps.specs.Found.{IsTree};

use crate::faults::StepFault;
use client_words::Refusal;
use host_model::{Shelf, ShelfAnswer};
use json_tree::{Tree, TreeFault, read};
use sequences::Text;
use std::alloc::{AllocError, Global};

/// The tree of the file of this name, or the refusal of a command that wants one.
#[tactic(auto, unfolding(crate::specs::Fetching::file_tree))]
pub(crate) fn read_tree<F: Shelf>(
    alloc: Global,
    shelf: &mut F,
    name: &Text,
) -> Result<Result<Tree, Refusal>, StepFault>
    ensures found { F.tells → IfOk result (λ found. IsTree found (file_tree name.now (F.file shelf.old name.now))) }
    ensures files { F.tells → (other : List ℕ) → F.file shelf.new other ≡ F.file shelf.old other }
    ensures asked { F.asks shelf.old name.now shelf.new }
    ensures cause { IsErrOf result StepFault.ShelfFault → Rose (F.faults shelf.old) (F.faults shelf.new) }
    ensures faults { F.faults shelf.old ≤ F.faults shelf.new }
    ensures quiet { ¬ IsErrOf result StepFault.ShelfFault → F.faults shelf.new ≡ F.faults shelf.old }
{
    match shelf.take(alloc, name.as_str()) {
        ShelfAnswer::Bytes(bytes) => Ok(tree_in(alloc, name, &bytes)?),
        ShelfAnswer::Absent => Ok(Err(Refusal::AbsentFile(name.clone()?))),
        ShelfAnswer::TooLarge(length) => Ok(Err(Refusal::FileTooLarge(name.clone()?, length))),
        ShelfAnswer::Failed => Err(StepFault::ShelfFault),
        ShelfAnswer::OutOfMemory => Err(StepFault::OutOfMemory),
    }
}

/// The tree of the bytes of the file of this name, or the refusal of a command that wants one.
fn tree_in(alloc: Global, name: &Text, bytes: &[u8]) -> Result<Result<Tree, Refusal>, AllocError>
    ensures { IfOk result (λ found. IsTree found (shallow_tree name.now (tree_of bytes.now))) }
{
    match read(alloc, bytes) {
        Ok(tree) => Ok(Ok(tree)),
        Err(TreeFault::NotJson) => Ok(Err(Refusal::NotJson(name.clone()?))),
        Err(TreeFault::TooDeep) => Ok(Err(Refusal::NotJson(name.clone()?))),
        Err(TreeFault::OutOfMemory) => Err(AllocError),
    }
}
