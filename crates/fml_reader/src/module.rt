// One file of a manifest.
ghost use Rattle.std.specs.Prelude.{◌≡◌, codes, Some, option_map};
ghost use Rattle.json_tree.specs.Tree.{json_of};
ghost use Rattle.fml_reader.specs.Modules.{types_in, definitions_of, module_of};
ghost use Rattle.fml_reader.specs.Outcome.{Gives, under};
ghost use Rattle.fml_reader.specs.Values.{object_in};

use crate::fault::{ModuleFault, under};
use crate::imports::Import;
use crate::values::object_in;
use crate::walks::{either, in_types, optional};
use fml_types::{ByName, EnumDefinition, FeatureDefinition, ObjectDefinition};
use json_tree::Tree;
use sequences::{Sequence, Text};
use std::alloc::Global;

/// What one file of a manifest says.
#[derive(Drop)]
pub struct Module {
    pub channels: Sequence<Text>,
    /// The names of the files that it includes (`includes`, or else `include`), in order.
    pub includes: Sequence<Text>,
    /// The modules that it imports (`imports`, or else `import`), in order.
    pub imports: Sequence<Import>,
    pub enums: ByName<EnumDefinition>,
    /// The enums under `types`.
    pub types_enums: ByName<EnumDefinition>,
    pub objects: ByName<ObjectDefinition>,
    /// The objects under `types`.
    pub types_objects: ByName<ObjectDefinition>,
    pub features: ByName<FeatureDefinition>,
}

/// The module that a tree is, or the first place that doesn't have its shape.
///
/// A module is an object. Its keys are read in this order: `channels`, a list of texts; `includes`,
/// or `include` where that isn't there, the same; `imports`, or `import`, a list of imports;
/// `enums`, then `enums` in the object `types`; `objects`, then `objects` in `types`; `features`.
/// Each may be absent, and is empty then. Members are read in the order of their keys.
///
/// An import is an object with the texts `path` and `channel`, and may have `features`, lists of
/// entries under names of features.
///
/// Enums, objects and features stand under names. An enum is an object with at least one member in
/// `variants`, an object has `fields`, and a feature may have `variables`, `defaults` and
/// `allow-coenrollment`, a truth value. The keys of variants, fields and variables have 1 to 80
/// bytes. A field or variable has a `type` and may have a `default`. An entry of `defaults` may have
/// `channel`, a text of names that commas divide, and `channels`, a list of texts; it has a
/// `value`. A default or value has at most 65,536 bytes of compact text.
#[tactic(auto, unfolding(crate::specs::Modules::module_of))]
pub fn read_module(alloc: Global, tree: &Tree) -> Result<Module, ModuleFault>
    ensures { Gives (λ m. m) result (module_of (json_of tree.now)) }
{
    object_in(alloc, tree)?;
    let channels = optional(alloc, tree, "channels", Sequence::new(alloc))?;
    let includes = either(alloc, tree, "includes", "include", Sequence::new(alloc))?;
    let imports = either(alloc, tree, "imports", "import", Sequence::new(alloc))?;
    definitions(alloc, tree, channels, includes, imports)
}

/// The enums, objects and features of a file with these channels, includes and imports.
#[tactic(auto, unfolding(crate::specs::Modules::definitions_of))]
fn definitions(
    alloc: Global,
    tree: &Tree,
    channels: Sequence<Text>,
    includes: Sequence<Text>,
    imports: Sequence<Import>,
) -> Result<Module, ModuleFault>
    ensures { Gives (λ m. m) result (definitions_of channels includes imports (json_of tree.now)) }
{
    let enums = optional(alloc, tree, "enums", ByName::new(alloc))?;
    let types = types_in(alloc, tree.get("types"))?;
    let types_enums = in_types(alloc, types, "enums", ByName::new(alloc))?;
    let objects = optional(alloc, tree, "objects", ByName::new(alloc))?;
    let types_objects = in_types(alloc, types, "objects", ByName::new(alloc))?;
    let features = optional(alloc, tree, "features", ByName::new(alloc))?;
    Ok(Module {
        channels,
        includes,
        imports,
        enums,
        types_enums,
        objects,
        types_objects,
        features,
    })
}

/// `types`, which is an object where it is there.
#[tactic(auto, using(crate::proofs::Unders::gives_under))]
fn types_in(alloc: Global, tree: Option<&Tree>) -> Result<Option<&Tree>, ModuleFault>
    ensures { Gives (λ o. option_map (λ t. json_of t.now) o) result (types_in (option_map (λ t. json_of t.now) tree.entry)) }
{
    match tree {
        Some(types) => object_types(alloc, types),
        None => Ok(None),
    }
}

fn object_types(alloc: Global, types: &Tree) -> Result<Option<&Tree>, ModuleFault>
    ensures { Gives (λ o. option_map (λ t. json_of t.now) o) result (types_in (Some (json_of types.now))) }
{
    checked_types(alloc, types)?;
    Ok(Some(types))
}

#[tactic(auto, using(crate::proofs::Unders::gives_under))]
fn checked_types(alloc: Global, types: &Tree) -> Result<(), ModuleFault>
    ensures { Gives (λ u. u) result (under (codes "types") (object_in (json_of types.now))) }
{
    under(alloc, "types", object_in(alloc, types))
}
