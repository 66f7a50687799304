// The files of a manifest.
ghost use Rattle.std.specs.Prelude.{◌≡◌, ◌≤◌, List, ℕ, IfOk, IsErrOf};
ghost use Rattle.json_tree.specs.Bytes.{tree_of};
ghost use Rattle.json_tree.specs.Json.{depth};
ghost use Rattle.json_tree.specs.Tree.{json_of};
ghost use Rattle.host_model.specs.Causes.{Rose};
ghost use Rattle.fml_reader.specs.Modules.{module_of};
ghost use Rattle.fml_imports.specs.Sound.{IsRead, AreRead};
ghost use Rattle.fml_link.specs.Asked.{IsAskedFrom};
ghost use Rattle.fml_link.specs.Files.{shallow_tree, in_file, file_tree, file_module, files_of};
ghost use Rattle.fml_link.specs.Outcome.{Gives, GivesTree, GivesModule};

use crate::fault::{LinkFault, LinkRefusal};
use crate::names::{FileList, MAX_FILES};
use fml_imports::Linked;
use fml_reader::{Module, ModuleFault, ModuleRefusal, read_module};
use host_model::{Shelf, ShelfAnswer};
use json_tree::{Tree, TreeFault, read};
use sequences::{Sequence, Text};
use std::alloc::Global;

/// What the files of a root say where it is asked for by a channel. They are read in the order in
/// which their names are met.
#[tactic(auto, using(crate::proofs::Listing::listed_fails, crate::proofs::Asking::asked_none))]
pub(crate) fn files_of<F: Shelf>(
    alloc: Global,
    shelf: &mut F,
    root: &str,
    channel: &str,
) -> Result<Sequence<Linked>, LinkFault>
    ensures reads { F.tells → Gives result (files_of (F.file shelf.old) root.now channel.now) }
    ensures read { IfOk result (λ files. AreRead files) }
    ensures files { F.tells → (other : List ℕ) → F.file shelf.new other ≡ F.file shelf.old other }
    ensures cause { IsErrOf result LinkFault.ShelfFault → Rose (F.faults shelf.old) (F.faults shelf.new) }
    ensures faults { F.faults shelf.old ≤ F.faults shelf.new }
    ensures quiet { ¬ IsErrOf result LinkFault.ShelfFault → F.faults shelf.new ≡ F.faults shelf.old }
    ensures asked { IsAskedFrom F.Shelf root.now channel.now shelf.old shelf.new }
{
    let mut list = FileList::of_root(alloc, root, channel)?;
    let mut files = Sequence::new(alloc);
    for place in 0..MAX_FILES {
        match list.get(place) {
            Some(listed) => {
                let file = linked_file(alloc, shelf, listed)?;
                list.add_named(&file.channel, &file.module)?;
                files.push(file)?;
            }
            None => return Ok(files),
        }
    }
    Ok(files)
}

/// The file of this name, which is read for this channel.
#[tactic(auto, using(crate::proofs::Linked::fails_bind))]
fn linked_file<F: Shelf>(
    alloc: Global,
    shelf: &mut F,
    listed: &(Text, Text),
) -> Result<Linked, LinkFault>
    ensures reads { F.tells → GivesModule result (file_module listed.now.0 (F.file shelf.old listed.now.0)) }
    ensures listed { IfOk result (λ file. (file.name, file.channel) ≡ listed.now) }
    ensures read { IfOk result (λ file. IsRead file.module) }
    ensures files { F.tells → (other : List ℕ) → F.file shelf.new other ≡ F.file shelf.old other }
    ensures cause { IsErrOf result LinkFault.ShelfFault → Rose (F.faults shelf.old) (F.faults shelf.new) }
    ensures faults { F.faults shelf.old ≤ F.faults shelf.new }
    ensures quiet { ¬ IsErrOf result LinkFault.ShelfFault → F.faults shelf.new ≡ F.faults shelf.old }
    ensures asked { F.asks shelf.old listed.now.0 shelf.new }
{
    let (name, channel) = listed;
    let module = file_module(alloc, shelf, name)?;
    Ok(Linked {
        name: name.clone()?,
        channel: channel.clone()?,
        module,
    })
}

/// What the file of this name says.
#[tactic(auto, using(crate::proofs::Linked::fails_bind), unfolding(crate::specs::Files::file_module))]
fn file_module<F: Shelf>(alloc: Global, shelf: &mut F, name: &Text) -> Result<Module, LinkFault>
    ensures reads { F.tells → Gives result (file_module name.now (F.file shelf.old name.now)) }
    ensures read { IfOk result (λ m. IsRead m) }
    ensures files { F.tells → (other : List ℕ) → F.file shelf.new other ≡ F.file shelf.old other }
    ensures cause { IsErrOf result LinkFault.ShelfFault → Rose (F.faults shelf.old) (F.faults shelf.new) }
    ensures faults { F.faults shelf.old ≤ F.faults shelf.new }
    ensures quiet { ¬ IsErrOf result LinkFault.ShelfFault → F.faults shelf.new ≡ F.faults shelf.old }
    ensures asked { F.asks shelf.old name.now shelf.new }
{
    let tree = file_tree(alloc, shelf, name)?;
    module_in(alloc, name, &tree)
}

/// The tree of the file of this name.
#[tactic(auto, unfolding(crate::specs::Files::file_tree))]
fn file_tree<F: Shelf>(alloc: Global, shelf: &mut F, name: &Text) -> Result<Tree, LinkFault>
    ensures reads { F.tells → GivesTree result (file_tree name.now (F.file shelf.old name.now)) }
    ensures shallow { IfOk result (λ tree. depth (json_of tree) ≤ 64) }
    ensures files { F.tells → (other : List ℕ) → F.file shelf.new other ≡ F.file shelf.old other }
    ensures cause { IsErrOf result LinkFault.ShelfFault → Rose (F.faults shelf.old) (F.faults shelf.new) }
    ensures faults { F.faults shelf.old ≤ F.faults shelf.new }
    ensures quiet { ¬ IsErrOf result LinkFault.ShelfFault → F.faults shelf.new ≡ F.faults shelf.old }
    ensures asked { F.asks shelf.old name.now shelf.new }
{
    match shelf.take(alloc, name.as_str()) {
        ShelfAnswer::Bytes(bytes) => tree_in(alloc, name, &bytes),
        ShelfAnswer::Absent => Err(LinkFault::Refused(LinkRefusal::AbsentFile(name.clone()?))),
        ShelfAnswer::TooLarge(length) => Err(LinkFault::Refused(LinkRefusal::FileTooLarge(
            name.clone()?,
            length,
        ))),
        ShelfAnswer::Failed => Err(LinkFault::ShelfFault),
        ShelfAnswer::OutOfMemory => Err(LinkFault::OutOfMemory),
    }
}

/// The tree of the bytes of the file of this name.
fn tree_in(alloc: Global, name: &Text, bytes: &[u8]) -> Result<Tree, LinkFault>
    ensures reads { GivesTree result (shallow_tree name.now (tree_of bytes.now)) }
    ensures shallow { IfOk result (λ tree. depth (json_of tree) ≤ 64) }
    ensures not_shelf { ¬ IsErrOf result LinkFault.ShelfFault }
{
    match read(alloc, bytes) {
        Ok(tree) => Ok(tree),
        Err(TreeFault::NotJson) => Err(LinkFault::Refused(LinkRefusal::NotJson(name.clone()?))),
        Err(TreeFault::TooDeep) => Err(LinkFault::Refused(LinkRefusal::NotJson(name.clone()?))),
        Err(TreeFault::OutOfMemory) => Err(LinkFault::OutOfMemory),
    }
}

/// What the tree of the file of this name says.
fn module_in(alloc: Global, name: &Text, tree: &Tree) -> Result<Module, LinkFault>
    requires { depth (json_of tree.now) ≤ 64 }
    ensures reads { Gives result (in_file name.now (module_of (json_of tree.now))) }
    ensures read { IfOk result (λ m. IsRead m) }
    ensures not_shelf { ¬ IsErrOf result LinkFault.ShelfFault }
{
    tree.keeps();
    match read_module(alloc, tree) {
        Ok(module) => Ok(module),
        Err(ModuleFault::Refused(ModuleRefusal::BadShape(path))) => Err(LinkFault::Refused(
            LinkRefusal::BadShape(name.clone()?, path),
        )),
        Err(ModuleFault::OutOfMemory) => Err(LinkFault::OutOfMemory),
    }
}
