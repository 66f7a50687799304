// The entries that files and their imports have for features.
ghost use Rattle.std.specs.Prelude.{◌≡◌, ◌<◌, ◌++◌, ℕ, List, [], ◌∷◌, None, IfOk, OnOk, length, map, if◌then◌else◌};
ghost use Rattle.std.specs.List.{flat_map};
ghost use Rattle.fml_types.specs.Named.{AreRising};
ghost use Rattle.fml_types.specs.declared.manifest.DefaultEntry.{DefaultEntry};
ghost use Rattle.fml_imports.specs.Channels.{is_for, kept_entries, entries_for};
ghost use Rattle.fml_imports.specs.Overrides.{import_overrides, overridden, laid_at};
ghost use Rattle.fml_imports.specs.Tables.{definition_for, feature_for};

use crate::merging::{risen, taken};
use fml_reader::Import;
use fml_types::{ByName, DefaultEntry, FeatureDefinition};
use sequences::{Sequence, Text};
use std::alloc::{AllocError, Global};

/// The features of a file of this channel, with those of their entries that count for the asked one.
pub(crate) fn features_for(
    alloc: Global,
    asked: &Text,
    channel: &Text,
    features: ByName<FeatureDefinition>,
) -> Result<ByName<FeatureDefinition>, AllocError>
    ensures { IfOk result (λ fs. fs ≡ map (feature_for asked.now channel.now) features) }
{
    let features = risen(features);
    let mut pairs = Vec::with_capacity(alloc, features.len())?;
    for (name, definition) in features {
        let definition = definition_for(alloc, asked, channel, definition)?;
        pairs.push((name, definition))?;
    }
    Ok(ByName::from_vec(pairs))
}

/// The feature of a file of this channel, with those of its entries that count for the asked one.
fn definition_for(
    alloc: Global,
    asked: &Text,
    channel: &Text,
    feature: FeatureDefinition,
) -> Result<FeatureDefinition, AllocError>
    ensures { IfOk result (λ f. f ≡ definition_for asked.now channel.now feature) }
{
    let defaults = entries_for(alloc, asked, channel, feature.defaults)?;
    Ok(FeatureDefinition {
        variables: feature.variables,
        defaults,
        allows_coenrollment: feature.allows_coenrollment,
    })
}

/// Those of a file of this channel that count for the asked one.
fn entries_for(
    alloc: Global,
    asked: &Text,
    channel: &Text,
    entries: Sequence<DefaultEntry>,
) -> Result<Sequence<DefaultEntry>, AllocError>
    ensures { IfOk result (λ es. es ≡ entries_for asked.now channel.now entries) }
{
    if channel == asked {
        return Ok(entries);
    }
    kept_entries(alloc, channel, entries)
}

/// Those that are for the channel, each for every channel then.
fn kept_entries(
    alloc: Global,
    channel: &Text,
    entries: Sequence<DefaultEntry>,
) -> Result<Sequence<DefaultEntry>, AllocError>
    ensures { IfOk result (λ es. es ≡ kept_entries channel.now entries) }
{
    let mut kept = Sequence::new(alloc);
    for entry in entries.into_vec() {
        push_kept(&mut kept, channel, entry)?;
    }
    Ok(kept)
}

fn push_kept(
    kept: &mut Sequence<DefaultEntry>,
    channel: &Text,
    entry: DefaultEntry,
) -> Result<(), AllocError>
    ensures { OnOk result (kept.new ≡ kept.old ++ kept_entries channel.now (entry ∷ [])) }
{
    if is_for(channel, &entry.channels) {
        kept.push(DefaultEntry {
            channels: None,
            value: entry.value,
        })?;
    }
    Ok(())
}

fn is_for(channel: &Text, channels: &Option<Sequence<Text>>) -> bool
    ensures { result ≡ is_for channel.now channels.now }
{
    match channels {
        None => true,
        Some(names) => names.as_slice().contains(channel),
    }
}

/// Adds what the imports of a file of this channel lay over features, as it counts for the asked
/// one.
pub(crate) fn push_overrides(
    alloc: Global,
    overrides: &mut Sequence<(Text, Sequence<DefaultEntry>)>,
    asked: &Text,
    channel: &Text,
    imports: Sequence<Import>,
) -> Result<(), AllocError>
    ensures { OnOk result (overrides.new ≡ overrides.old ++ flat_map (import_overrides asked.now channel.now) imports) }
{
    for import in imports.into_vec() {
        push_import(alloc, overrides, asked, channel, import)?;
    }
    Ok(())
}

fn push_import(
    alloc: Global,
    overrides: &mut Sequence<(Text, Sequence<DefaultEntry>)>,
    asked: &Text,
    channel: &Text,
    import: Import,
) -> Result<(), AllocError>
    ensures { OnOk result (overrides.new ≡ overrides.old ++ import_overrides asked.now channel.now import) }
{
    for (name, entries) in import.features.into_vec() {
        let entries = entries_for(alloc, asked, channel, entries)?;
        overrides.push((name, entries))?;
    }
    Ok(())
}

/// Lays entries over the feature of this name, where there is one.
#[tactic(auto, using(crate::proofs::Overriding::laid_turn, crate::proofs::Overriding::laid_none, crate::proofs::Overriding::place_there, crate::proofs::Overriding::laid_all_rise))]
pub(crate) fn lay(
    alloc: Global,
    features: &mut ByName<FeatureDefinition>,
    name: &Text,
    entries: Sequence<DefaultEntry>,
) -> Result<(), AllocError>
    ensures { OnOk result ((rest : List (List ℕ × List DefaultEntry)) → map (overridden rest) features.new ≡ map (overridden ((name.now, entries) ∷ rest)) features.old) }
{
    match features.place(name.as_str()) {
        Some(place) => {
            let mut pairs = risen(taken(alloc, features));
            lay_at(&mut pairs, place, entries)?;
            put_back(features, pairs);
            Ok(())
        }
        None => Ok(()),
    }
}

/// Lays entries over the feature at this place.
fn lay_at(
    features: &mut Vec<(Text, FeatureDefinition)>,
    place: usize,
    entries: Sequence<DefaultEntry>,
) -> Result<(), AllocError>
    requires { place < length features.old.items }
    ensures { OnOk result (features.new.items ≡ laid_at place entries features.old.items) }
{
    append(&mut features[place].1.defaults, entries)?;
    Ok(())
}

fn put_back<T: Drop>(names: &mut ByName<T>, pairs: Vec<(Text, T)>)
    requires { AreRising pairs.items }
    ensures { names.new ≡ pairs.items }
{
    *names = ByName::from_vec(pairs);
}

fn append(
    defaults: &mut Sequence<DefaultEntry>,
    entries: Sequence<DefaultEntry>,
) -> Result<(), AllocError>
    ensures { OnOk result (defaults.new ≡ defaults.old ++ entries) }
{
    for entry in entries.into_vec() {
        defaults.push(entry)?;
    }
    Ok(())
}
