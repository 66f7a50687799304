// The words behind the name of a command.
ghost use Rattle.std.specs.Prelude.{◌≡◌, ◌⊎◌, List, ℕ, Err, All, map, length};
ghost use Rattle.client_words.specs.Commands.{yes_or_no_in, kinds_in, text_in, name_in, count_in, number_in, slug_in, id_in, manifest_command, context_command, fetch_command, feature_command, participate_command, opt_out_command, opt_in_command, reset_command, event_command, confirm_command, bytes_at, IsWithin};
ghost use Rattle.client_words.specs.Commands as spec;

use crate::command::Command;
use crate::line::{LineFault, bytes_at};
use enrol_states::Kinds;
use plain_text::{Slug, SlugFault, is_name, read_number, slug_of};
use sequences::Text;
use std::alloc::Global;
use std::str;
use uuid::Uuid;

/// The most times that an event is said to have come.
const MAX_COUNT: u64 = 1_000_000;

/// The words behind `manifest`: the name of its first file, and the channel, both in UTF-8.
pub(crate) fn manifest_command(
    alloc: Global,
    line: &[u8],
    arguments: &[(usize, usize)],
) -> Result<Command, LineFault>
    requires { All (IsWithin (length line.now)) arguments.now }
    ensures { (result ≡ manifest_command (map (bytes_at line.now) arguments.now)) ⊎ (result ≡ Err LineFault.OutOfMemory) }
{
    let [word, next] = arguments else {
        return Err(LineFault::BadWords);
    };
    let file = text_in(alloc, bytes_at(line, *word))?;
    let channel = text_in(alloc, bytes_at(line, *next))?;
    Ok(Command::Manifest { file, channel })
}

/// The words behind `context`: the one name of a file, in UTF-8.
pub(crate) fn context_command(
    alloc: Global,
    line: &[u8],
    arguments: &[(usize, usize)],
) -> Result<Command, LineFault>
    requires { All (IsWithin (length line.now)) arguments.now }
    ensures { (result ≡ context_command (map (bytes_at line.now) arguments.now)) ⊎ (result ≡ Err LineFault.OutOfMemory) }
{
    let [word] = arguments else {
        return Err(LineFault::BadWords);
    };
    let file = text_in(alloc, bytes_at(line, *word))?;
    Ok(Command::Context { file })
}

/// The words behind `fetch`: the one name of a file, in UTF-8.
pub(crate) fn fetch_command(
    alloc: Global,
    line: &[u8],
    arguments: &[(usize, usize)],
) -> Result<Command, LineFault>
    requires { All (IsWithin (length line.now)) arguments.now }
    ensures { (result ≡ fetch_command (map (bytes_at line.now) arguments.now)) ⊎ (result ≡ Err LineFault.OutOfMemory) }
{
    let [word] = arguments else {
        return Err(LineFault::BadWords);
    };
    let file = text_in(alloc, bytes_at(line, *word))?;
    Ok(Command::Fetch { file })
}

/// A command that has no words behind it.
pub(crate) fn alone(command: Command, arguments: &[(usize, usize)]) -> Result<Command, LineFault>
    ensures { (line : List ℕ) → result ≡ spec.alone command (map (bytes_at line) arguments.now) }
{
    match arguments {
        [] => Ok(command),
        _ => Err(LineFault::BadWords),
    }
}

/// The words behind `participate`: `yes` or `no`, for the recipes of both kinds, or behind `experiments` or `rollouts`
/// for those of one.
pub(crate) fn participate_command(
    line: &[u8],
    arguments: &[(usize, usize)],
) -> Result<Command, LineFault>
    requires { All (IsWithin (length line.now)) arguments.now }
    ensures { result ≡ participate_command (map (bytes_at line.now) arguments.now) }
{
    match arguments {
        [word] => {
            let on = yes_or_no_in(bytes_at(line, *word))?;
            Ok(Command::Participate {
                kinds: Kinds::Both,
                on,
            })
        }
        [word, next] => {
            let kinds = kinds_in(bytes_at(line, *word))?;
            let on = yes_or_no_in(bytes_at(line, *next))?;
            Ok(Command::Participate { kinds, on })
        }
        _ => Err(LineFault::BadWords),
    }
}

/// The words behind `opt-out`: the one slug.
pub(crate) fn opt_out_command(
    alloc: Global,
    line: &[u8],
    arguments: &[(usize, usize)],
) -> Result<Command, LineFault>
    requires { All (IsWithin (length line.now)) arguments.now }
    ensures { (result ≡ opt_out_command (map (bytes_at line.now) arguments.now)) ⊎ (result ≡ Err LineFault.OutOfMemory) }
{
    let [word] = arguments else {
        return Err(LineFault::BadWords);
    };
    let slug = slug_in(alloc, bytes_at(line, *word))?;
    Ok(Command::OptOut { slug })
}

/// The words behind `opt-in`: the slug, and the slug of a branch.
pub(crate) fn opt_in_command(
    alloc: Global,
    line: &[u8],
    arguments: &[(usize, usize)],
) -> Result<Command, LineFault>
    requires { All (IsWithin (length line.now)) arguments.now }
    ensures { (result ≡ opt_in_command (map (bytes_at line.now) arguments.now)) ⊎ (result ≡ Err LineFault.OutOfMemory) }
{
    let [word, next] = arguments else {
        return Err(LineFault::BadWords);
    };
    let slug = slug_in(alloc, bytes_at(line, *word))?;
    let branch = slug_in(alloc, bytes_at(line, *next))?;
    Ok(Command::OptIn { slug, branch })
}

/// The words behind `reset`: the one id.
pub(crate) fn reset_command(line: &[u8], arguments: &[(usize, usize)]) -> Result<Command, LineFault>
    requires { All (IsWithin (length line.now)) arguments.now }
    ensures { result ≡ reset_command (map (bytes_at line.now) arguments.now) }
{
    let [word] = arguments else {
        return Err(LineFault::BadWords);
    };
    let id = id_in(bytes_at(line, *word))?;
    Ok(Command::Reset { id })
}

/// The words behind `feature`: the one name of a feature, in UTF-8.
pub(crate) fn feature_command(
    alloc: Global,
    line: &[u8],
    arguments: &[(usize, usize)],
) -> Result<Command, LineFault>
    requires { All (IsWithin (length line.now)) arguments.now }
    ensures { (result ≡ feature_command (map (bytes_at line.now) arguments.now)) ⊎ (result ≡ Err LineFault.OutOfMemory) }
{
    let [word] = arguments else {
        return Err(LineFault::BadWords);
    };
    let name = text_in(alloc, bytes_at(line, *word))?;
    Ok(Command::Feature { name })
}

/// The words behind `event`: the name of what the user did, and how many times.
pub(crate) fn event_command(
    alloc: Global,
    line: &[u8],
    arguments: &[(usize, usize)],
) -> Result<Command, LineFault>
    requires { All (IsWithin (length line.now)) arguments.now }
    ensures { (result ≡ event_command (map (bytes_at line.now) arguments.now)) ⊎ (result ≡ Err LineFault.OutOfMemory) }
{
    let [word, next] = arguments else {
        return Err(LineFault::BadWords);
    };
    let name = name_in(alloc, bytes_at(line, *word))?;
    let count = count_in(bytes_at(line, *next))?;
    Ok(Command::Event { name, count })
}

/// The words behind `confirm`: the one number.
pub(crate) fn confirm_command(
    line: &[u8],
    arguments: &[(usize, usize)],
) -> Result<Command, LineFault>
    requires { All (IsWithin (length line.now)) arguments.now }
    ensures { result ≡ confirm_command (map (bytes_at line.now) arguments.now) }
{
    let [word] = arguments else {
        return Err(LineFault::BadWords);
    };
    let number = number_in(bytes_at(line, *word))?;
    Ok(Command::Confirm { number })
}

// ---- words

/// Whether the word is `yes`, where it is that or `no`.
fn yes_or_no_in(word: &[u8]) -> Result<bool, LineFault>
    ensures { result ≡ yes_or_no_in word.now }
{
    if word == b"yes".as_slice() {
        Ok(true)
    } else if word == b"no".as_slice() {
        Ok(false)
    } else {
        Err(LineFault::BadWords)
    }
}

/// The kind of recipes that the word names.
fn kinds_in(word: &[u8]) -> Result<Kinds, LineFault>
    ensures { result ≡ kinds_in word.now }
{
    if word == b"experiments".as_slice() {
        Ok(Kinds::Experiments)
    } else if word == b"rollouts".as_slice() {
        Ok(Kinds::Rollouts)
    } else {
        Err(LineFault::BadWords)
    }
}

/// The name of a file, a channel or a feature, where the word is in UTF-8.
pub(crate) fn text_in(alloc: Global, word: &[u8]) -> Result<Text, LineFault>
    ensures { (result ≡ text_in word.now) ⊎ (result ≡ Err LineFault.OutOfMemory) }
{
    match str::from_utf8(word) {
        Ok(name) => Ok(Text::new(alloc, name)?),
        Err(_) => Err(LineFault::BadWords),
    }
}

/// The name of what a user did, or of a preference, where the word is a name.
pub(crate) fn name_in(alloc: Global, word: &[u8]) -> Result<Text, LineFault>
    ensures { (result ≡ name_in word.now) ⊎ (result ≡ Err LineFault.OutOfMemory) }
{
    if !is_name(word) {
        return Err(LineFault::BadWords);
    }
    text_in(alloc, word)
}

/// The number from 1 to 1,000,000 that the word is in decimal, with no sign and no leading zero.
#[tactic(auto, unfolding(crate::specs::Commands::count_in))]
fn count_in(word: &[u8]) -> Result<u32, LineFault>
    ensures { result ≡ count_in word.now }
{
    match read_number(word) {
        Some(count) if 1 <= count && count <= MAX_COUNT => Ok(count as u32),
        _ => Err(LineFault::BadWords),
    }
}

/// The number below 2 to the 64 that the word is in decimal, with no sign and no leading zero.
#[tactic(auto, unfolding(crate::specs::Commands::number_in))]
fn number_in(word: &[u8]) -> Result<u64, LineFault>
    ensures { result ≡ number_in word.now }
{
    match read_number(word) {
        Some(number) => Ok(number),
        None => Err(LineFault::BadWords),
    }
}

/// The slug that the word is.
#[tactic(auto, unfolding(crate::specs::Commands::slug_in))]
fn slug_in(alloc: Global, word: &[u8]) -> Result<Slug, LineFault>
    ensures { (result ≡ slug_in word.now) ⊎ (result ≡ Err LineFault.OutOfMemory) }
{
    match slug_of(alloc, word) {
        Ok(slug) => Ok(slug),
        Err(SlugFault::BadSlug(place)) => Err(LineFault::BadSlug(place)),
        Err(SlugFault::OutOfMemory) => Err(LineFault::OutOfMemory),
    }
}

/// The sixteen bytes of the id that the word is, in one of its four text forms (RFC 9562).
#[tactic(auto, unfolding(crate::specs::Commands::id_in))]
fn id_in(word: &[u8]) -> Result<[u8; 16], LineFault>
    ensures { result ≡ id_in word.now }
{
    match Uuid::try_parse_ascii(word) {
        Ok(id) => Ok(id.into_bytes()),
        Err(_) => Err(LineFault::BadId),
    }
}
