// Which names of types are known, and which objects are grounded.
ghost use Rattle.std.specs.Prelude.{◌≡◌, ◌||◌, List, ℕ, option_map};
ghost use Rattle.fml_types.specs.Named.{has_name};
ghost use Rattle.fml_types.specs.Ground.{grounding};
ghost use Rattle.fml_types.specs.Shapes.{key_of, shape_of};
ghost use Rattle.fml_types.specs.Sound.{unknown_key, unknown_name, where_unknown};
ghost use Rattle.fml_types.specs.declared.manifest.FeatureDefinition.{FeatureDefinition};
ghost use Rattle.fml_types.specs.declared.manifest.ObjectDefinition.{ObjectDefinition};
ghost use Rattle.fml_imports.specs.Imports.{first_found};
ghost use Rattle.fml_imports.specs.Joining.{unknown_in, unknown_of, all_known, all_grounded, channel_known, imports_known, overrides_known};
ghost use Rattle.fml_imports.specs.Outcome.{Gives};

use crate::fault::{JoinFault, JoinRefusal};
use crate::merging::has_name;
use fml_types::{
    ByName, FeatureDefinition, Field, FieldType, GroundFault, Key, Manifest, ObjectDefinition,
    TypeTable, Ungrounded, grounded,
};
use sequences::Text;
use std::alloc::Global;

/// Each name in a type of the manifest is known.
pub(crate) fn all_known(manifest: &Manifest) -> Result<(), JoinFault>
    ensures { Gives result (all_known (unknown_of manifest.now)) }
{
    if let Some(name) = unknown_of_objects(&manifest.types) {
        return Err(JoinFault::Refused(JoinRefusal::UnknownType(name.clone()?)));
    }
    if let Some(name) = unknown_of_features(&manifest.types, &manifest.features) {
        return Err(JoinFault::Refused(JoinRefusal::UnknownType(name.clone()?)));
    }
    Ok(())
}

/// No object is too high or too heavy.
pub(crate) fn all_grounded(alloc: Global, types: &TypeTable) -> Result<(), JoinFault>
    ensures { Gives result (all_grounded (grounding types.now)) }
{
    match grounded(alloc, types) {
        Ok(()) => Ok(()),
        Err(GroundFault::Refused(Ungrounded::EndlessObject(name))) => Err(JoinFault::Refused(
            JoinRefusal::EndlessObject(name),
        )),
        Err(GroundFault::Refused(Ungrounded::ObjectTooLarge(name))) => Err(JoinFault::Refused(
            JoinRefusal::ObjectTooLarge(name),
        )),
        Err(GroundFault::OutOfMemory) => Err(JoinFault::OutOfMemory),
    }
}

pub(crate) fn channel_known(is_known: bool) -> Result<(), JoinFault>
    ensures { Gives result (channel_known is_known) }
{
    if is_known {
        Ok(())
    } else {
        Err(JoinFault::Refused(JoinRefusal::UnknownChannel))
    }
}

pub(crate) fn imports_known(unknown: &Option<Text>) -> Result<(), JoinFault>
    ensures { Gives result (imports_known unknown.now) }
{
    match unknown {
        None => Ok(()),
        Some(path) => Err(JoinFault::Refused(JoinRefusal::UnknownImport(path.clone()?))),
    }
}

pub(crate) fn overrides_known(unknown: &Option<Text>) -> Result<(), JoinFault>
    ensures { Gives result (overrides_known unknown.now) }
{
    match unknown {
        None => Ok(()),
        Some(name) => Err(JoinFault::Refused(JoinRefusal::UnknownOverride(name.clone()?))),
    }
}

/// The first unknown name in the types of the objects' fields.
#[tactic(auto, using(crate::proofs::Steps::found_here, crate::proofs::Steps::found_turn, crate::proofs::Steps::found_end))]
fn unknown_of_objects(types: &TypeTable) -> Option<&Text>
    ensures { option_map (λ name. name.now) result ≡ first_found (λ (o : List ℕ × ObjectDefinition). unknown_in types.now o.1.fields) types.now.objects }
{
    for (_, object) in types.objects.as_slice() {
        if let Some(name) = unknown_in(types, &object.fields) {
            return Some(name);
        }
    }
    None
}

/// The first unknown name in the types of the features' variables.
#[tactic(auto, using(crate::proofs::Steps::found_here, crate::proofs::Steps::found_turn, crate::proofs::Steps::found_end))]
fn unknown_of_features<'a>(
    types: &TypeTable,
    features: &'a ByName<FeatureDefinition>,
) -> Option<&'a Text>
    ensures { option_map (λ name. name.now) result ≡ first_found (λ (f : List ℕ × FeatureDefinition). unknown_in types.now f.1.variables) features.now }
{
    for (_, feature) in features.as_slice() {
        if let Some(name) = unknown_in(types, &feature.variables) {
            return Some(name);
        }
    }
    None
}

/// The first unknown name in the types of the fields.
#[tactic(auto, using(crate::proofs::Steps::found_here, crate::proofs::Steps::found_turn, crate::proofs::Steps::found_end))]
fn unknown_in<'a>(types: &TypeTable, fields: &'a ByName<Field>) -> Option<&'a Text>
    ensures { option_map (λ name. name.now) result ≡ unknown_in types.now fields.now }
{
    for (_, field) in fields.as_slice() {
        if let Some(name) = unknown_name(types, &field.field_type) {
            return Some(name);
        }
    }
    None
}

/// The first unknown name in a type, from the left.
fn unknown_name<'a>(types: &TypeTable, of: &'a FieldType) -> Option<&'a Text>
    ensures { option_map (λ name. name.now) result ≡ unknown_name types.now (shape_of of.now) }
{
    match of {
        FieldType::Named(name) => unknown_type(types, name),
        FieldType::Option(inner) => unknown_name(types, inner.get()),
        FieldType::List(inner) => unknown_name(types, inner.get()),
        FieldType::Map(key, inner) => match unknown_key(types, key) {
            Some(name) => Some(name),
            None => unknown_name(types, inner.get()),
        },
        _ => None,
    }
}

/// The name, unless it is an enum's or an object's.
fn unknown_type<'a>(types: &TypeTable, name: &'a Text) -> Option<&'a Text>
    ensures { option_map (λ name. name.now) result ≡ where_unknown name.now (has_name name.now types.now.enums || has_name name.now types.now.objects) }
{
    if has_name(&types.enums, name) || has_name(&types.objects, name) {
        None
    } else {
        Some(name)
    }
}

/// The name of a map's key, unless it is an enum's.
fn unknown_key<'a>(types: &TypeTable, key: &'a Key) -> Option<&'a Text>
    ensures { option_map (λ name. name.now) result ≡ unknown_key types.now (key_of key.now) }
{
    match key {
        Key::Named(name) => {
            if has_name(&types.enums, name) {
                None
            } else {
                Some(name)
            }
        }
        Key::String => None,
    }
}
