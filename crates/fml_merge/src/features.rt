// Defaults of features, and trees laid over values of features.
ghost use Rattle.std.specs.Prelude.{◌≡◌, map, IfOk, bytes_eq};
ghost use Rattle.std.specs.List.{list_any};
ghost use Rattle.fml_types.specs.Sound.{IsSoundTable, IsGrounded, AreSoundFields};
ghost use Rattle.fml_value.specs.TypedOf.{typed_of};
ghost use Rattle.json_tree.specs.Json.{members_of};
ghost use Rattle.json_tree.specs.Tree.{json_of};
ghost use Rattle.fml_merge.specs.Features as features;
ghost use Rattle.fml_merge.specs.Features.{IsOfFeature, is_for, patches_for, objects_among, AreSound};

use crate::laying::Layering;
use crate::overlays::MAX_LEVELS;
use crate::parts::{MemberTypes, entries_in};
use fml_types::{DefaultEntry, FeatureDefinition, Manifest, Text};
use fml_value::Value;
use json_tree::{Members, Tree};
use std::alloc::{AllocError, Global};

/// The default of a feature: the object of its variables, each with its own default laid over the
/// zero of its type, over which each entry of the feature's defaults is laid in order that is for
/// the manifest's channel, or for every channel.
///
/// The one error is want of memory.
pub fn default_of(
    alloc: Global,
    manifest: &Manifest,
    feature: &FeatureDefinition,
) -> Result<Value, AllocError>
    ensures value { IfOk result (λ v. typed_of v ≡ features.default_of manifest.now feature.now) }
    ensures typed { IfOk result (λ v. IsSoundTable manifest.now.types → IsGrounded manifest.now.types → AreSoundFields manifest.now.types feature.now.variables → IsOfFeature manifest.now feature.now (typed_of v)) }
{
    let layering = Layering {
        alloc,
        types: &manifest.types,
        levels: MAX_LEVELS,
    };
    let value = Value::Object(layering.initial(&feature.variables)?);
    let entries = feature.defaults.as_slice();
    let patches = patches_for(alloc, manifest.channel.as_str(), entries)?;
    overlay_each(alloc, manifest, feature, value, patches.as_slice())
}

/// The patches laid over a value of the feature, one after the other, each as `overlay_feature` lays it. A patch costs
/// its own members, and what two or more of them lay over is gone through once for all of them.
///
/// The one error is want of memory.
pub fn overlay_each(
    alloc: Global,
    manifest: &Manifest,
    feature: &FeatureDefinition,
    base: Value,
    patches: &[&Tree],
) -> Result<Value, AllocError>
    ensures value { IfOk result (λ v. typed_of v ≡ features.overlay_each manifest.now feature.now (typed_of base) (map (λ t. json_of t.now) patches.now)) }
    ensures typed { IfOk result (λ v. IsSoundTable manifest.now.types → IsGrounded manifest.now.types → AreSoundFields manifest.now.types feature.now.variables → IsOfFeature manifest.now feature.now (typed_of base) → IsOfFeature manifest.now feature.now (typed_of v)) }
{
    let objects = objects_among(alloc, patches)?;
    let layers = objects.as_slice();
    if layers.is_empty() {
        return Ok(base);
    }
    let variables = MemberTypes::Fields(&feature.variables);
    let base = entries_in(alloc, base);
    let layering = Layering {
        alloc,
        types: &manifest.types,
        levels: MAX_LEVELS,
    };
    Ok(Value::Object(layering.lay_layers(variables, base, layers)?))
}

/// The patch laid over a value of the feature, as over an object whose fields are the variables: a
/// patch that is no object leaves the value as it was, and keys that are no variables are ignored.
///
/// The one error is want of memory.
pub fn overlay_feature(
    alloc: Global,
    manifest: &Manifest,
    feature: &FeatureDefinition,
    base: Value,
    patch: &Tree,
) -> Result<Value, AllocError>
    ensures value { IfOk result (λ v. typed_of v ≡ features.overlay_feature manifest.now feature.now (typed_of base) (json_of patch.now)) }
    ensures typed { IfOk result (λ v. IsSoundTable manifest.now.types → IsGrounded manifest.now.types → AreSoundFields manifest.now.types feature.now.variables → IsOfFeature manifest.now feature.now (typed_of base) → IsOfFeature manifest.now feature.now (typed_of v)) }
{
    patch.keeps();
    match patch {
        Tree::Object(members) => {
            let variables = MemberTypes::Fields(&feature.variables);
            let base = entries_in(alloc, base);
            let layering = Layering {
                alloc,
                types: &manifest.types,
                levels: MAX_LEVELS,
            };
            Ok(Value::Object(layering.lay_members(variables, base, members)?))
        }
        _ => Ok(base),
    }
}

// The patches of the entries that are for the channel, in order.
fn patches_for<'a>(
    alloc: Global,
    channel: &str,
    entries: &'a [DefaultEntry],
) -> Result<Vec<&'a Tree>, AllocError>
    ensures { IfOk result (λ ts. map (λ t. json_of t.now) ts.items ≡ patches_for channel.now entries.now) }
{
    let mut patches = Vec::new(alloc);
    for entry in entries {
        if is_for(entry, channel) {
            patches.push(&entry.value)?;
        }
    }
    Ok(patches)
}

// The members of the patches that are objects, in order.
fn objects_among<'a>(alloc: Global, patches: &[&'a Tree]) -> Result<Vec<&'a Members>, AllocError>
    ensures layers { IfOk result (λ ls. map (λ l. members_of l.now) ls.items ≡ objects_among (map (λ t. json_of t.now) patches.now)) }
    ensures sound { IfOk result (λ ls. AreSound (map (λ t. json_of t.now) patches.now)) }
{
    let mut layers = Vec::new(alloc);
    for patch in patches {
        patch.keeps();
        if let Tree::Object(members) = patch {
            layers.push(members)?;
        }
    }
    Ok(layers)
}

// Whether the entry is for the channel.
fn is_for(entry: &DefaultEntry, channel: &str) -> bool
    ensures { result ≡ is_for channel.now entry.now.channels }
{
    match &entry.channels {
        None => true,
        Some(channels) => is_among(channels.as_slice(), channel),
    }
}

fn is_among(channels: &[Text], channel: &str) -> bool
    ensures { result ≡ list_any (bytes_eq channel.now) channels.now }
{
    for name in channels {
        if channel == name.as_str() {
            return true;
        }
    }
    false
}
