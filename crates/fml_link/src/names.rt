// The list of a manifest's files.
ghost use Rattle.std.specs.Prelude.{◌≡◌, ℕ, List, [], ◌∷◌, ◌++◌, None, map, IfOk, IsErrOf, OnOk, option_map, slice_get, Some, false, if◌then◌else◌};
ghost use Rattle.fml_types.specs.Named.{found, has_name};
ghost use Rattle.fml_link.specs.Files.{included_by, imported_by, named_by, with_file, with_files, with_named, where_other, first_clash};
ghost use Rattle.fml_link.specs.Names.{AreMet};
ghost use Rattle.fml_link.specs.Outcome.{Leaves};

use crate::fault::{LinkFault, LinkRefusal};
use fml_reader::{Import, Module};
use sequences::{Sequence, Text};
use std::alloc::{AllocError, Global};
use std::collections::BTreeMap;

/// The most files of a manifest.
pub(crate) const MAX_FILES: usize = 64;

/// The names of files in the order in which they are met, each with the channel that the file is
/// read for, and the channels by name.
#[derive(Drop)]
pub(crate) struct FileList {
    list: Sequence<(Text, Text)>,
    channels: BTreeMap<Text, Text>,
}

impl FileList {
    /// The root alone, for this channel.
    pub(crate) fn of_root(alloc: Global, root: &str, channel: &str) -> Result<FileList, AllocError>
        ensures list { IfOk result (λ files. files.list ≡ (root.now, channel.now) ∷ []) }
        ensures met { IfOk result (λ files. AreMet files) }
    {
        let root = Text::new(alloc, root)?;
        let channel = Text::new(alloc, channel)?;
        let mut files = FileList::none(alloc);
        files.add_new(&root, &channel)?;
        Ok(files)
    }

    /// No file at all.
    fn none(alloc: Global) -> FileList
        ensures list { result.list ≡ [] }
        ensures met { AreMet result }
    {
        FileList {
            list: Sequence::new(alloc),
            channels: BTreeMap::new(alloc),
        }
    }

    /// The file at a place, where there is one.
    pub(crate) fn get(&self, place: usize) -> Option<&(Text, Text)>
        ensures { option_map (λ file. file.now) result ≡ slice_get self.now.list place }
    {
        self.list.get(place)
    }

    /// Adds the files that a file of this channel includes and imports, where none of them is
    /// listed for another channel then.
    #[tactic(auto, using(crate::proofs::Linked::fails_bind, crate::proofs::Linked::each_append), unfolding(crate::specs::Files::with_named))]
    pub(crate) fn add_named(&mut self, channel: &Text, file: &Module) -> Result<(), LinkFault>
        requires { AreMet self.old }
        ensures leaves { Leaves self.new.list result (with_named self.old.list (named_by channel.now file.now)) }
        ensures met { OnOk result (AreMet self.new) }
        ensures not_shelf { ¬ IsErrOf result LinkFault.ShelfFault }
    {
        let includes = file.includes.as_slice();
        let imports = file.imports.as_slice();
        self.add_includes(channel, includes)?;
        self.add_imports(imports)?;
        match self.clash(channel, includes, imports) {
            None => Ok(()),
            Some(name) => Err(LinkFault::Refused(LinkRefusal::ImportClash(name.clone()?))),
        }
    }

    /// Adds those of the includes that aren't met yet, in their order, for this channel.
    #[tactic(auto, using(crate::proofs::Linked::mapped_fails, crate::proofs::Linked::mapped_turn))]
    fn add_includes(&mut self, channel: &Text, includes: &[Text]) -> Result<(), LinkFault>
        requires { AreMet self.old }
        ensures leaves { Leaves self.new.list result (with_files self.old.list (included_by channel.now includes.now)) }
        ensures met { OnOk result (AreMet self.new) }
        ensures not_shelf { ¬ IsErrOf result LinkFault.ShelfFault }
    {
        for include in includes {
            self.add(include, channel)?;
        }
        Ok(())
    }

    /// Adds those of the imported files that aren't met yet, in their order.
    #[tactic(auto, using(crate::proofs::Linked::mapped_fails, crate::proofs::Linked::mapped_turn))]
    fn add_imports(&mut self, imports: &[Import]) -> Result<(), LinkFault>
        requires { AreMet self.old }
        ensures leaves { Leaves self.new.list result (with_files self.old.list (imported_by imports.now)) }
        ensures met { OnOk result (AreMet self.new) }
        ensures not_shelf { ¬ IsErrOf result LinkFault.ShelfFault }
    {
        for import in imports {
            self.add(&import.path, &import.channel)?;
        }
        Ok(())
    }

    /// Adds a file, unless its name is met already.
    fn add(&mut self, name: &Text, channel: &Text) -> Result<(), LinkFault>
        requires { AreMet self.old }
        ensures leaves { Leaves self.new.list result (with_file self.old.list (name.now, channel.now)) }
        ensures met { OnOk result (AreMet self.new) }
        ensures not_shelf { ¬ IsErrOf result LinkFault.ShelfFault }
    {
        if self.is_met(name) {
            return Ok(());
        }
        if self.list.len() >= MAX_FILES {
            return Err(LinkFault::Refused(LinkRefusal::TooManyFiles));
        }
        self.add_new(name, channel)?;
        Ok(())
    }

    fn is_met(&self, name: &Text) -> bool
        requires { AreMet self.now }
        ensures { result ≡ has_name name.now self.now.list }
    {
        self.channels.contains_key(name)
    }

    /// Adds a name that isn't met yet.
    fn add_new(&mut self, name: &Text, channel: &Text) -> Result<(), AllocError>
        requires met { AreMet self.old }
        requires is_new { has_name name.now self.old.list ≡ false }
        ensures list { OnOk result (self.new.list ≡ self.old.list ++ (name.now, channel.now) ∷ []) }
        ensures met { OnOk result (AreMet self.new) }
    {
        self.channels.insert(name.clone()?, channel.clone()?)?;
        self.list.push((name.clone()?, channel.clone()?))?;
        Ok(())
    }

    /// The first of the includes and then of the imported files that is listed for another channel.
    #[tactic(auto, using(crate::proofs::Linked::found_append))]
    fn clash<'a>(
        &self,
        channel: &Text,
        includes: &'a [Text],
        imports: &'a [Import],
    ) -> Option<&'a Text>
        requires { AreMet self.now }
        ensures { option_map (λ name. name.now) result ≡ first_clash self.now.list (included_by channel.now includes.now ++ imported_by imports.now) }
    {
        match self.clash_of_includes(channel, includes) {
            Some(name) => Some(name),
            None => self.clash_of_imports(imports),
        }
    }

    #[tactic(auto, using(crate::proofs::Linked::mapped_found_here, crate::proofs::Linked::mapped_found_turn, crate::proofs::Linked::mapped_found_end))]
    fn clash_of_includes<'a>(&self, channel: &Text, includes: &'a [Text]) -> Option<&'a Text>
        requires { AreMet self.now }
        ensures { option_map (λ name. name.now) result ≡ first_clash self.now.list (included_by channel.now includes.now) }
    {
        for include in includes {
            if self.is_other(include, channel) {
                return Some(include);
            }
        }
        None
    }

    #[tactic(auto, using(crate::proofs::Linked::mapped_found_here, crate::proofs::Linked::mapped_found_turn, crate::proofs::Linked::mapped_found_end))]
    fn clash_of_imports<'a>(&self, imports: &'a [Import]) -> Option<&'a Text>
        requires { AreMet self.now }
        ensures { option_map (λ name. name.now) result ≡ first_clash self.now.list (imported_by imports.now) }
    {
        for import in imports {
            if self.is_other(&import.path, &import.channel) {
                return Some(&import.path);
            }
        }
        None
    }

    /// Whether the file is listed for another channel.
    fn is_other(&self, name: &Text, channel: &Text) -> bool
        requires { AreMet self.now }
        ensures { (if result then Some name.now else None) ≡ where_other name.now channel.now (found name.now self.now.list) }
    {
        match self.channels.get(name) {
            Some(listed) => listed != channel,
            None => false,
        }
    }
}
