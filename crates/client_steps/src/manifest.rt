// The manifest of a run is set.
ghost use Rattle.std.specs.Prelude.{◌≡◌, ◌≤◌, List, ℕ, IfOk, IsErrOf};
ghost use Rattle.host_model.specs.Causes.{Rose};
ghost use Rattle.fml_types.specs.Sound.{IsSoundManifest};
ghost use Rattle.fml_link.specs.Asked.{IsAskedFrom};
ghost use Rattle.fml_link.specs.Laws.{LinksBack};
ghost use Rattle.fml_merge.specs.Faults.{bad_default};
ghost use Rattle.client_state.specs.declared.client_state.ClientState.{ClientState};
ghost use Rattle.client_steps.specs.declared.session.Session.{Session};
ghost use Rattle.client_steps.specs.Asked.{asked_outcome, FollowsFrom};
ghost use Rattle.client_steps.specs.Manifests.{where_fits, manifest_of};
ghost use Rattle.client_steps.specs.Steps.{setting_manifest};

use crate::asked::Asked;
use crate::faults::StepFault;
use crate::linked_manifest::LinkedManifest;
use crate::session::SessionChange;
use client_words::Refusal;
use fml_link::{LinkFault, link};
use fml_merge::{DefaultFault, check_defaults};
use fml_types::Manifest;
use host_model::Shelf;
use sequences::Text;
use std::alloc::{AllocError, Global};

/// What `manifest` asks for.
pub fn setting_manifest<F: Shelf>(
    alloc: Global,
    shelf: &mut F,
    file: &Text,
    channel: &Text,
) -> Result<Asked, StepFault>
    ensures asks { F.tells → IfOk result (λ asked. (s : ClientState) (session : Session)
        → asked_outcome s session asked ≡ setting_manifest s session (manifest_of (F.file shelf.old) file.now channel.now)) }
    ensures follows { IfOk result (λ asked. (s : ClientState) → FollowsFrom s asked) }
    ensures files { F.tells → (name : List ℕ) → F.file shelf.new name ≡ F.file shelf.old name }
    ensures asked { IsAskedFrom F.Shelf file.now channel.now shelf.old shelf.new }
    ensures cause { IsErrOf result StepFault.ShelfFault → Rose (F.faults shelf.old) (F.faults shelf.new) }
    ensures faults { F.faults shelf.old ≤ F.faults shelf.new }
    ensures quiet { ¬ IsErrOf result StepFault.ShelfFault → F.faults shelf.new ≡ F.faults shelf.old }
{
    match read_manifest(alloc, shelf, file, channel)? {
        Ok(manifest) => Ok(Asked::in_session(SessionChange::Manifest(manifest))),
        Err(refusal) => Ok(Asked::Refused(refusal)),
    }
}

/// The manifest of the files that start with the one of this name, or the refusal of the command.
#[tactic(auto, unfolding(crate::specs::Manifests::manifest_of))]
fn read_manifest<F: Shelf>(
    alloc: Global,
    shelf: &mut F,
    name: &Text,
    channel: &Text,
) -> Result<Result<LinkedManifest, Refusal>, StepFault>
    ensures found { F.tells → IfOk result (λ found. found ≡ manifest_of (F.file shelf.old) name.now channel.now) }
    ensures files { F.tells → (other : List ℕ) → F.file shelf.new other ≡ F.file shelf.old other }
    ensures asked { IsAskedFrom F.Shelf name.now channel.now shelf.old shelf.new }
    ensures cause { IsErrOf result StepFault.ShelfFault → Rose (F.faults shelf.old) (F.faults shelf.new) }
    ensures faults { F.faults shelf.old ≤ F.faults shelf.new }
    ensures quiet { ¬ IsErrOf result StepFault.ShelfFault → F.faults shelf.new ≡ F.faults shelf.old }
{
    match link(alloc, shelf, name.as_str(), channel.as_str()) {
        Ok(manifest) => Ok(checked(alloc, manifest)?),
        Err(LinkFault::Refused(refusal)) => Ok(Err(Refusal::NotLinked(refusal))),
        Err(LinkFault::ShelfFault) => Err(StepFault::ShelfFault),
        Err(LinkFault::OutOfMemory) => Err(StepFault::OutOfMemory),
    }
}

/// A manifest that is linked, or the refusal of its first default that doesn't fit.
fn checked(alloc: Global, manifest: Manifest) -> Result<Result<LinkedManifest, Refusal>, AllocError>
    requires sound { IsSoundManifest manifest }
    requires back { LinksBack manifest }
    ensures { IfOk result (λ found. found ≡ where_fits manifest (bad_default manifest)) }
{
    // Its contract says that the features' names rise.
    manifest.features.as_slice();
    match check_defaults(alloc, &manifest) {
        Ok(()) => Ok(Ok(LinkedManifest::new(alloc, manifest)?)),
        Err(DefaultFault::BadDefault { owner, place }) => {
            Ok(Err(Refusal::BadDefault(owner, place)))
        }
        Err(DefaultFault::OutOfMemory) => Err(AllocError),
    }
}
