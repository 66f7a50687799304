// Which default of a manifest doesn't fit first.
ghost use Rattle.std.specs.Prelude.{◌≡◌, Some, None, decimal, codes, option_map, ◌++◌, IfOk};
ghost use Rattle.fml_types.specs.Shapes.{shape_of};
ghost use Rattle.json_tree.specs.Tree.{json_of};
ghost use Rattle.fml_merge.specs.Faults.{bad_default, bad_in_object, bad_in_feature, bad_field, default_fits, bad_entry, entry_fits, first_owner, GivesDefaults};
ghost use Rattle.fml_merge.specs.declared.defaults.DefaultFault.TheVariants.{OutOfMemory};

use fml_types::{
    ByName, DefaultEntry, FeatureDefinition, Field, Manifest, ObjectDefinition, TypeTable,
};
use fml_value::{fields_fit, fits};
use itoa::Buffer;
use json_tree::Tree;
use sequences::Text;
use std::alloc::{AllocError, AllocFailed, Global};

/// Why the defaults of a manifest are refused.
#[derive(Drop)]
pub enum DefaultFault {
    /// The first default that doesn't fit. The owner is the name of an object or of a feature, and
    /// the place is `/fields/NAME` in an object and `/variables/NAME` or `/defaults/INDEX` in a
    /// feature, where the first entry has index 0.
    BadDefault { owner: Text, place: Text },
    OutOfMemory,
}

impl From<AllocError> for DefaultFault {
    ghost from_gives = { λ _ e. e ≡ OutOfMemory };

    fn from(_e: AllocError) -> DefaultFault {
        DefaultFault::OutOfMemory
    }
}

/// Whether each default of a manifest fits: those of the objects' fields and of the features'
/// variables fit their types, and each entry of a feature's defaults is an object whose keys are
/// variables and whose values fit them.
///
/// Objects come by name with their fields by name, then features by name with their variables by
/// name and then their entries in order.
#[tactic(auto, unfolding(crate::specs::Faults::bad_default))]
pub fn check_defaults(alloc: Global, manifest: &Manifest) -> Result<(), DefaultFault>
    ensures { GivesDefaults result (bad_default manifest.now) }
{
    check_objects(alloc, manifest)?;
    check_features(alloc, manifest)?;
    Ok(())
}

fn check_objects(alloc: Global, manifest: &Manifest) -> Result<(), DefaultFault>
    ensures { GivesDefaults result (first_owner (bad_in_object manifest.now.types) manifest.now.types.objects) }
{
    let objects = manifest.types.objects.as_slice();
    for (name, object) in objects {
        let bad = bad_in_object(alloc, &manifest.types, object)?;
        if let Some(place) = bad {
            return bad_default(name, place);
        }
    }
    Ok(())
}

fn check_features(alloc: Global, manifest: &Manifest) -> Result<(), DefaultFault>
    ensures { GivesDefaults result (first_owner (bad_in_feature manifest.now.types) manifest.now.features) }
{
    let features = manifest.features.as_slice();
    for (name, feature) in features {
        let bad = bad_in_feature(alloc, &manifest.types, feature)?;
        if let Some(place) = bad {
            return bad_default(name, place);
        }
    }
    Ok(())
}

fn bad_default(owner: &Text, place: Text) -> Result<(), DefaultFault>
    ensures { GivesDefaults result (Some (owner.now, place)) }
{
    let owner = owner.clone()?;
    Err(DefaultFault::BadDefault { owner, place })
}

// The place of the first default of the object that doesn't fit.
fn bad_in_object(
    alloc: Global,
    types: &TypeTable,
    object: &ObjectDefinition,
) -> Result<Option<Text>, AllocError>
    ensures { IfOk result (λ place. place ≡ bad_in_object types.now object.now) }
{
    match bad_field(types, &object.fields) {
        Some(name) => Ok(Some(place_of(alloc, "/fields/", name.as_str())?)),
        None => Ok(None),
    }
}

// The place of the first default of the feature that doesn't fit.
fn bad_in_feature(
    alloc: Global,
    types: &TypeTable,
    feature: &FeatureDefinition,
) -> Result<Option<Text>, AllocError>
    ensures { IfOk result (λ place. place ≡ bad_in_feature types.now feature.now) }
{
    if let Some(name) = bad_field(types, &feature.variables) {
        return Ok(Some(place_of(alloc, "/variables/", name.as_str())?));
    }
    match bad_entry(types, &feature.variables, feature.defaults.as_slice()) {
        Some(index) => Ok(Some(place_of(alloc, "/defaults/", Buffer::new().format(index))?)),
        None => Ok(None),
    }
}

// A place of a manifest: the key of a walk, and the name or the index under it.
fn place_of(alloc: Global, walk: &str, name: &str) -> Result<Text, AllocError>
    ensures { IfOk result (λ place. place ≡ walk.now ++ name.now) }
{
    let mut place = String::from_str(alloc, walk)?;
    place.push_str(name)?;
    Ok(Text::from_string(place))
}

// The name of the first field or variable whose default doesn't fit.
fn bad_field<'a>(types: &TypeTable, fields: &'a ByName<Field>) -> Option<&'a Text>
    ensures { option_map (λ name. name.now) result ≡ bad_field types.now fields.now }
{
    let pairs = fields.as_slice();
    for (name, field) in pairs {
        if !default_fits(types, field) {
            return Some(name);
        }
    }
    None
}

fn default_fits(types: &TypeTable, field: &Field) -> bool
    ensures { result ≡ default_fits types.now (shape_of field.now.field_type) field.now.default }
{
    match &field.default {
        None => true,
        Some(tree) => fits(types, &field.field_type, tree),
    }
}

// The index of the first entry that doesn't fit.
fn bad_entry(
    types: &TypeTable,
    variables: &ByName<Field>,
    entries: &[DefaultEntry],
) -> Option<usize>
    ensures { result ≡ bad_entry types.now variables.now 0 entries.now }
{
    for (index, entry) in entries.iter().enumerate() {
        if !entry_fits(types, variables, &entry.value) {
            return Some(index);
        }
    }
    None
}

// Whether the tree is an object whose keys are variables and whose values fit them.
fn entry_fits(types: &TypeTable, variables: &ByName<Field>, tree: &Tree) -> bool
    ensures { result ≡ entry_fits types.now variables.now (json_of tree.now) }
{
    match tree {
        Tree::Object(members) => fields_fit(types, variables, members),
        _ => false,
    }
}
