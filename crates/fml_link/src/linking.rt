// The manifest of a root for a channel.
ghost use Rattle.std.specs.Prelude.{◌≡◌, ◌≤◌, List, ℕ, IfOk, IsErrOf};
ghost use Rattle.host_model.specs.Causes.{Rose};
ghost use Rattle.fml_types.specs.Sound.{IsSoundManifest};
ghost use Rattle.fml_imports.specs.Joining.{joined};
ghost use Rattle.fml_imports.specs.Sound.{AreRead};
ghost use Rattle.fml_imports.specs.WellFormed.{IsWellFormed};
ghost use Rattle.fml_link.specs.Asked.{IsAskedFrom};
ghost use Rattle.fml_link.specs.Laws.{LinksBack};
ghost use Rattle.fml_link.specs.Linking.{linked, of_files};
ghost use Rattle.fml_link.specs.Outcome.{Gives};

use crate::fault::{LinkFault, LinkRefusal};
use crate::files::files_of;
use fml_imports::{JoinFault, Linked, join};
use fml_types::Manifest;
use host_model::Shelf;
use sequences::Sequence;
use std::alloc::Global;

/// The manifest of the files on the shelf that start with the one of this name, for this channel,
/// or its first fault. The files are those of the Feature Manifest Language (FML).
///
/// The files are the list that starts with `name` and this channel, and to which each file, in the
/// list's order, adds those of its includes, for its own channel, and then of its imports, for
/// theirs, whose names aren't in it. So files may include and import each other. There may be 64.
/// The files are read in that order, and each may give `AbsentFile`, `FileTooLarge`, `NotJson` or
/// `BadShape`, or `TooManyFiles` where it brings the 65th name, or `ImportClash` where it includes
/// or imports a file that is listed for another channel.
///
/// Then the files are joined: `fml_imports::join` says how, and for what that is refused (`NotJoined`).
///
/// The manifest links back: a shelf on which a file is the text of its single file, as
/// `fml_imports::single` gives it, links that file for the manifest's channel to an equal manifest,
/// where the text has at most 4,194,304 bytes.
///
/// `ShelfFault` comes exactly where the shelf failed in this call. Whatever comes, the shelf has been
/// asked for no file, or for the first ones of that list, each of them once.
#[tactic(auto, using(crate::proofs::Linked::fails_bind), unfolding(crate::specs::Linking::linked))]
pub fn link<F: Shelf>(
    alloc: Global,
    shelf: &mut F,
    name: &str,
    channel: &str,
) -> Result<Manifest, LinkFault>
    ensures links { F.tells → Gives result (linked (F.file shelf.old) name.now channel.now) }
    ensures sound { IfOk result (λ m. IsSoundManifest m) }
    ensures well_formed { IfOk result (λ m. IsWellFormed m) }
    ensures links_back { IfOk result (λ m. LinksBack m) }
    ensures files { F.tells → (other : List ℕ) → F.file shelf.new other ≡ F.file shelf.old other }
    ensures cause { IsErrOf result LinkFault.ShelfFault → Rose (F.faults shelf.old) (F.faults shelf.new) }
    ensures faults { F.faults shelf.old ≤ F.faults shelf.new }
    ensures quiet { ¬ IsErrOf result LinkFault.ShelfFault → F.faults shelf.new ≡ F.faults shelf.old }
    ensures asked { IsAskedFrom F.Shelf name.now channel.now shelf.old shelf.new }
{
    let files = files_of(alloc, shelf, name, channel)?;
    joined(alloc, files, channel)
}

/// The manifest that the files are joined into.
fn joined(alloc: Global, files: Sequence<Linked>, channel: &str) -> Result<Manifest, LinkFault>
    requires { AreRead files }
    ensures gives { Gives result (of_files (joined files channel.now)) }
    ensures sound { IfOk result (λ m. IsSoundManifest m) }
    ensures well_formed { IfOk result (λ m. IsWellFormed m) }
    ensures links_back { IfOk result (λ m. LinksBack m) }
    ensures not_shelf { ¬ IsErrOf result LinkFault.ShelfFault }
{
    match join(alloc, files, channel) {
        Ok(manifest) => Ok(manifest),
        Err(JoinFault::Refused(refusal)) => {
            Err(LinkFault::Refused(LinkRefusal::NotJoined(refusal)))
        }
        Err(JoinFault::OutOfMemory) => Err(LinkFault::OutOfMemory),
    }
}
