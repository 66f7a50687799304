// What the files of a manifest define.
ghost use Rattle.std.specs.Prelude.{◌≡◌, ◌++◌, map, option_map, IfOk, OnOk};
ghost use Rattle.fml_imports.specs.Outcome.{Leaves, each};
ghost use Rattle.fml_imports.specs.Held.{GivesHeld, held};
ghost use Rattle.fml_imports.specs.Overrides.{file_overrides, overrides_of, overridden};
ghost use Rattle.fml_imports.specs.Joining.{manifest_with, unknown_override};
ghost use Rattle.fml_imports.specs.Tables.{no_tables, with_enum, with_object, with_feature, with_module, tables_of, feature_for, module_for};

use crate::fault::JoinFault;
use crate::joining::Linked;
use crate::merging::{has_name, merge, taken};
use crate::overrides::{features_for, lay, push_overrides};
use fml_types::{
    ByName, DefaultEntry, EnumDefinition, FeatureDefinition, Manifest, ObjectDefinition, TypeTable,
};
use sequences::{Sequence, Text};
use std::alloc::{AllocError, Global};
use std::mem;

/// What is defined, in order by name.
#[derive(Drop)]
pub(crate) struct TablesByName {
    enums: ByName<EnumDefinition>,
    objects: ByName<ObjectDefinition>,
    features: ByName<FeatureDefinition>,
}

impl TablesByName {
    fn new(alloc: Global) -> TablesByName
        ensures { held result ≡ no_tables }
    {
        TablesByName {
            enums: ByName::new(alloc),
            objects: ByName::new(alloc),
            features: ByName::new(alloc),
        }
    }

    /// Adds the enums of a file, which are taken out of it.
    fn add_enums(
        &mut self,
        alloc: Global,
        enums: &mut ByName<EnumDefinition>,
    ) -> Result<(), JoinFault>
        ensures { Leaves (held self.new) result (each with_enum (held self.old) enums.old) }
    {
        let own = taken(alloc, enums);
        merge(alloc, &mut self.enums, own, &self.objects)
    }

    /// Adds the objects of a file, which are taken out of it.
    fn add_objects(
        &mut self,
        alloc: Global,
        objects: &mut ByName<ObjectDefinition>,
    ) -> Result<(), JoinFault>
        ensures { Leaves (held self.new) result (each with_object (held self.old) objects.old) }
    {
        let own = taken(alloc, objects);
        merge(alloc, &mut self.objects, own, &self.enums)
    }

    /// Adds the features of a file of this channel, which are taken out of it, with those of their
    /// entries that count for the asked one.
    fn add_features(
        &mut self,
        alloc: Global,
        asked: &Text,
        channel: &Text,
        features: &mut ByName<FeatureDefinition>,
    ) -> Result<(), JoinFault>
        ensures { Leaves (held self.new) result (each with_feature (held self.old) (map (feature_for asked.now channel.now) features.old)) }
    {
        let own = taken(alloc, features);
        let counted = features_for(alloc, asked, channel, own)?;
        let none: ByName<FeatureDefinition> = ByName::new(alloc);
        merge(alloc, &mut self.features, counted, &none)
    }
}

/// What files define, and what their imports lay over features.
#[derive(Drop)]
pub(crate) struct Definitions {
    tables: TablesByName,
    overrides: Sequence<(Text, Sequence<DefaultEntry>)>,
}

impl Definitions {
    /// Adds what a file says, as it counts for the asked channel. It is taken out of the file.
    #[tactic(auto, using(crate::proofs::Steps::fails_bind), unfolding(crate::specs::Tables::with_module))]
    fn add_file(&mut self, alloc: Global, asked: &Text, file: &mut Linked) -> Result<(), JoinFault>
        ensures tables { Leaves (held self.new.tables) result (with_module (held self.old.tables) (module_for asked.now file.old)) }
        ensures overrides { OnOk result (self.new.overrides ≡ self.old.overrides ++ file_overrides asked.now file.old) }
    {
        self.tables.add_enums(alloc, &mut file.module.enums)?;
        self.tables.add_enums(alloc, &mut file.module.types_enums)?;
        self.tables.add_objects(alloc, &mut file.module.objects)?;
        self.tables
            .add_objects(alloc, &mut file.module.types_objects)?;
        self.tables
            .add_features(alloc, asked, &file.channel, &mut file.module.features)?;
        let imports = mem::replace(&mut file.module.imports, Sequence::new(alloc));
        push_overrides(alloc, &mut self.overrides, asked, &file.channel, imports)?;
        Ok(())
    }

    /// The first name of an override that no feature has.
    #[tactic(auto, using(crate::proofs::Steps::found_here, crate::proofs::Steps::found_turn, crate::proofs::Steps::found_end))]
    pub(crate) fn unknown_override(&self) -> Option<&Text>
        ensures { option_map (λ name. name.now) result ≡ unknown_override self.now.overrides (held self.now.tables) }
    {
        for (name, _) in self.overrides.as_slice() {
            if !has_name(&self.tables.features, name) {
                return Some(name);
            }
        }
        None
    }

    /// The manifest of all this, with no type looked at.
    pub(crate) fn into_manifest(self, alloc: Global, channel: Text) -> Result<Manifest, AllocError>
        ensures { IfOk result (λ m. m ≡ manifest_with (held self.tables) self.overrides channel) }
    {
        let tables = self.tables;
        let features = overridden(alloc, tables.features, self.overrides)?;
        let types = TypeTable {
            enums: tables.enums,
            objects: tables.objects,
        };
        Ok(Manifest {
            types,
            features,
            channel,
        })
    }
}

/// The features with the overrides laid over them.
fn overridden(
    alloc: Global,
    features: ByName<FeatureDefinition>,
    overrides: Sequence<(Text, Sequence<DefaultEntry>)>,
) -> Result<ByName<FeatureDefinition>, AllocError>
    ensures { IfOk result (λ all. all ≡ map (overridden overrides) features) }
{
    let mut features = features;
    for (name, entries) in overrides.into_vec() {
        lay(alloc, &mut features, &name, entries)?;
    }
    Ok(features)
}

/// What the files define and lay over features, as it counts for the asked channel, where no name
/// is met twice in its space.
#[tactic(auto, using(crate::proofs::Steps::each_fails, crate::proofs::Steps::each_turn))]
pub(crate) fn defined(
    alloc: Global,
    files: Sequence<Linked>,
    asked: &Text,
) -> Result<Definitions, JoinFault>
    ensures tables { GivesHeld result (tables_of (map (module_for asked.now) files)) }
    ensures overrides { IfOk result (λ d. d.overrides ≡ overrides_of asked.now files) }
{
    let mut definitions = Definitions {
        tables: TablesByName::new(alloc),
        overrides: Sequence::new(alloc),
    };
    for mut file in files.into_vec() {
        definitions.add_file(alloc, asked, &mut file)?;
    }
    Ok(definitions)
}
