// Imports whose channel the imported file doesn't have.
ghost use Rattle.std.specs.Prelude.{◌≡◌, option_map, IfOk};
ghost use Rattle.fml_imports.specs.Channels.{is_among};
ghost use Rattle.fml_imports.specs.Imports.{channels_of, first_found, unknown_import, first_unknown_import};
ghost use Rattle.fml_imports.specs.Standings.{AreStandings};

use crate::joining::Linked;
use fml_reader::Import;
use sequences::Text;
use std::alloc::{AllocError, Global};
use std::collections::BTreeMap;

/// Where a file stands, and whether it has the channel that it is read for.
#[derive(Drop)]
struct Standing {
    place: usize,
    has_channel: bool,
}

/// The path of the first import whose channel the imported file doesn't have.
pub(crate) fn first_unknown_import(
    alloc: Global,
    files: &[Linked],
) -> Result<Option<Text>, AllocError>
    ensures { IfOk result (λ path. path ≡ first_unknown_import files.now) }
{
    let standings = standings(alloc, files)?;
    match unknown_of_files(files, &standings) {
        Some(path) => Ok(Some(path.clone()?)),
        None => Ok(None),
    }
}

/// The files by name.
fn standings(alloc: Global, files: &[Linked]) -> Result<BTreeMap<Text, Standing>, AllocError>
    ensures { IfOk result (λ standings. AreStandings files.now files.now standings) }
{
    let mut standings = BTreeMap::new(alloc);
    for place in (0..files.len()).rev() {
        let file = &files[place];
        let has_channel = file.module.channels.as_slice().contains(&file.channel);
        standings.insert(file.name.clone()?, Standing { place, has_channel })?;
    }
    Ok(standings)
}

#[tactic(auto, using(crate::proofs::Steps::found_here, crate::proofs::Steps::found_turn, crate::proofs::Steps::found_end))]
fn unknown_of_files<'a>(
    files: &'a [Linked],
    standings: &BTreeMap<Text, Standing>,
) -> Option<&'a Text>
    requires { AreStandings files.now files.now standings.now }
    ensures { option_map (λ path. path.now) result ≡ first_unknown_import files.now }
{
    for file in files {
        if let Some(path) = unknown_of(files, standings, file.module.imports.as_slice()) {
            return Some(path);
        }
    }
    None
}

#[tactic(auto, using(crate::proofs::Steps::found_here, crate::proofs::Steps::found_turn, crate::proofs::Steps::found_end))]
fn unknown_of<'a>(
    files: &[Linked],
    standings: &BTreeMap<Text, Standing>,
    imports: &'a [Import],
) -> Option<&'a Text>
    requires { AreStandings files.now files.now standings.now }
    ensures { option_map (λ path. path.now) result ≡ first_found (unknown_import files.now) imports.now }
{
    for import in imports {
        if !has_channel(files, standings, import) {
            return Some(&import.path);
        }
    }
    None
}

/// Whether the imported file has the import's channel.
fn has_channel(files: &[Linked], standings: &BTreeMap<Text, Standing>, import: &Import) -> bool
    requires { AreStandings files.now files.now standings.now }
    ensures { result ≡ is_among import.now.channel (channels_of import.now.path files.now) }
{
    let Some(standing) = standings.get(&import.path) else {
        return false;
    };
    let Some(file) = files.get(standing.place) else {
        return false;
    };
    has(file, standing, &import.channel)
}

/// Whether the file has the channel. Where it is read for that channel, this is known.
fn has(file: &Linked, standing: &Standing, channel: &Text) -> bool
    requires { standing.now.has_channel ≡ is_among file.now.channel file.now.module.channels }
    ensures { result ≡ is_among channel.now file.now.module.channels }
{
    if file.channel == *channel {
        standing.has_channel
    } else {
        file.module.channels.as_slice().contains(channel)
    }
}
