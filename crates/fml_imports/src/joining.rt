// The manifest of files for a channel.
ghost use Rattle.std.specs.Prelude.{◌≡◌, IfOk, option_map};
ghost use Rattle.json_tree.specs.Json.{IsSound};
ghost use Rattle.fml_types.specs.Sound.{IsSoundManifest};
ghost use Rattle.fml_imports.specs.Channels.{is_among};
ghost use Rattle.fml_imports.specs.Joining.{joined, checked, root_channels};
ghost use Rattle.fml_imports.specs.Outcome.{Gives, Leaves};
ghost use Rattle.fml_imports.specs.Single.{single};
ghost use Rattle.fml_imports.specs.Sound.{AreRead};
ghost use Rattle.fml_imports.specs.WellFormed.{IsWellFormed};

use crate::checks::{all_grounded, all_known, channel_known, imports_known, overrides_known};
use crate::fault::JoinFault;
use crate::imports::first_unknown_import;
use crate::tables::defined;
use fml_reader::Module;
use fml_types::Manifest;
use sequences::{Sequence, Text};
use std::alloc::{AllocError, Global};

/// A file of a manifest.
#[derive(Drop)]
pub struct Linked {
    pub name: Text,
    /// The channel that it is read for.
    pub channel: Text,
    pub module: Module,
}

/// The manifest that the files are for this channel, or its first fault. The first of them is the
/// root.
///
/// What the files define is joined. Enums and objects share one space of names, and features have
/// another. In the order of the files, and in each of enums, enums of its `types`, objects, objects
/// of its `types` and features, the first name that was met before in its space is a
/// `DuplicateName`. In the types of the objects' fields and then of the features' variables, by
/// name, the first name that is neither an enum's nor an object's, or that is a map's key and no
/// enum's, is an `UnknownType`. `EndlessObject` and `ObjectTooLarge` are those of
/// `fml_types::grounded`. The channel has to be among the `channels` of the root, the channel of
/// each import among those of the file that it names, and at last each override has to have the
/// name of a feature.
///
/// A feature's entries are its own, and after them the overrides of its name, in the order of the
/// files and of the imports in each. An entry that stands in a file that is read for this channel
/// stays as it is. One that stands in another file is for every channel where it is for the
/// channel of that file, and is left out where it isn't.
#[tactic(auto, using(crate::proofs::Steps::fails_bind), unfolding(crate::specs::Joining::joined))]
pub fn join(alloc: Global, files: Sequence<Linked>, channel: &str) -> Result<Manifest, JoinFault>
    requires { AreRead files }
    ensures joins { Gives result (joined files channel.now) }
    ensures sound { IfOk result (λ m. IsSoundManifest m) }
    ensures well_formed { IfOk result (λ m. IsWellFormed m) }
    ensures sound_single { IfOk result (λ m. IsSound (single m)) }
{
    let channel = Text::new(alloc, channel)?;
    let is_known = is_channel(files.as_slice(), &channel);
    let unknown_import = first_unknown_import(alloc, files.as_slice())?;
    let definitions = defined(alloc, files, &channel)?;
    let unknown_override = copied(definitions.unknown_override())?;
    let manifest = definitions.into_manifest(alloc, channel)?;
    checked(alloc, manifest, is_known, unknown_import, unknown_override)
}

fn copied(name: Option<&Text>) -> Result<Option<Text>, AllocError>
    ensures { IfOk result (λ copy. copy ≡ option_map (λ text. text.now) name.entry) }
{
    match name {
        Some(text) => Ok(Some(text.clone()?)),
        None => Ok(None),
    }
}

/// The manifest, where its types are known and grounded, the root has the channel, and no import
/// and no override is unknown.
fn checked(
    alloc: Global,
    manifest: Manifest,
    has_channel: bool,
    unknown_import: Option<Text>,
    unknown_override: Option<Text>,
) -> Result<Manifest, JoinFault>
    ensures { Gives result (checked manifest has_channel unknown_import unknown_override) }
{
    check(
        alloc,
        &manifest,
        has_channel,
        &unknown_import,
        &unknown_override,
    )?;
    Ok(manifest)
}

/// Refuses the manifest for its first fault, where it has one.
#[tactic(auto, using(crate::proofs::Steps::fails_bind), unfolding(crate::specs::Joining::checked))]
fn check(
    alloc: Global,
    manifest: &Manifest,
    has_channel: bool,
    unknown_import: &Option<Text>,
    unknown_override: &Option<Text>,
) -> Result<(), JoinFault>
    ensures { Leaves manifest.now result (checked manifest.now has_channel unknown_import.now unknown_override.now) }
{
    all_known(manifest)?;
    all_grounded(alloc, &manifest.types)?;
    channel_known(has_channel)?;
    imports_known(unknown_import)?;
    overrides_known(unknown_override)
}

/// Whether the root, which is the first of the files, has the channel.
fn is_channel(files: &[Linked], channel: &Text) -> bool
    ensures { result ≡ is_among channel.now (root_channels files.now) }
{
    match files {
        [root, ..] => root.module.channels.as_slice().contains(channel),
        [] => false,
    }
}
