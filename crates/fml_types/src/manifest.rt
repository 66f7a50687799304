// The tables of a manifest.
ghost use Rattle.std.specs.Prelude.{◌≡◌, [], ◌∷◌, ◌++◌, IfOk, OnOk};
ghost use Rattle.fml_types.specs.Coenrolling.{coenrolling};

use crate::by_name::ByName;
use crate::field_type::FieldType;
use json_tree::Tree;
use sequences::{Sequence, Text};
use std::alloc::{AllocError, Global};

/// A field of an object, or a variable of a feature.
#[derive(Drop)]
pub struct Field {
    pub field_type: FieldType,
    /// What stands under `default`, null too.
    pub default: Option<Tree>,
}

/// An enum.
#[derive(Drop)]
pub struct EnumDefinition {
    /// The names of its variants. Nothing is kept of a variant but its name.
    pub variants: ByName<()>,
}

/// An object.
#[derive(Drop)]
pub struct ObjectDefinition {
    pub fields: ByName<Field>,
}

/// A default of a feature as a whole.
#[derive(Drop)]
pub struct DefaultEntry {
    /// The channels that it is for, in their order. Where this is absent it is for every channel.
    pub channels: Option<Sequence<Text>>,
    /// What it gives to the variables.
    pub value: Tree,
}

/// A feature.
#[derive(Drop)]
pub struct FeatureDefinition {
    pub variables: ByName<Field>,
    /// Laid over the variables' own defaults, one after the other.
    pub defaults: Sequence<DefaultEntry>,
    /// Whether several experiments may have the feature at once (`allow-coenrollment`).
    pub allows_coenrollment: bool,
}

/// The enums and the objects that types name.
#[derive(Drop)]
pub struct TypeTable {
    pub enums: ByName<EnumDefinition>,
    pub objects: ByName<ObjectDefinition>,
}

/// A manifest, for one channel.
#[derive(Drop)]
pub struct Manifest {
    pub types: TypeTable,
    pub features: ByName<FeatureDefinition>,
    pub channel: Text,
}

/// The names of the features that several experiments may have at once, in order.
pub fn coenrolling_features(
    alloc: Global,
    manifest: &Manifest,
) -> Result<Sequence<Text>, AllocError>
    ensures { IfOk result (λ names. names ≡ coenrolling manifest.now.features) }
{
    let features = manifest.features.as_slice();
    let mut names = Sequence::new(alloc);
    for (name, feature) in features {
        push_coenrolling(&mut names, name, feature)?;
    }
    Ok(names)
}

fn push_coenrolling(
    names: &mut Sequence<Text>,
    name: &Text,
    feature: &FeatureDefinition,
) -> Result<(), AllocError>
    ensures { OnOk result (names.new ≡ names.old ++ coenrolling ((name.now, feature.now) ∷ [])) }
{
    if feature.allows_coenrollment {
        names.push(name.clone()?)?;
    }
    Ok(())
}
