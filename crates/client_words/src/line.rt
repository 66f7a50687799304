// A line of a script, and its command.
ghost use Rattle.std.specs.Prelude.{◌≡◌, ◌⊎◌, ◌∷◌, Err, IfOk, All, map, length};
ghost use Rattle.plain_text.specs.Spans.{words};
ghost use Rattle.client_words.specs.Commands.{command_of, command_of_words, words_of, bytes_at, IsCommand, IsWithin};

use crate::arguments::{
    alone, confirm_command, context_command, event_command, feature_command, fetch_command,
    manifest_command, opt_in_command, opt_out_command, participate_command, reset_command,
};
use crate::command::Command;
use crate::preferences::{bind_command, clear_preference_command, set_preference_command};
use plain_text::words;
use std::alloc::{AllocError, Global};

/// The most bytes of a line, without its end.
pub const MAX_LINE_LEN: usize = 4096;

/// Why a line has no command, in the order in which the causes are tested.
#[derive(Clone, Copy, Debug, PartialEq, Eq)]
pub enum LineFault {
    /// The line has more than 4,096 bytes.
    LineTooLong,
    /// The line has no words. It does nothing and has no answer.
    Blank,
    /// The first word is no command.
    UnknownCommand,
    /// The words behind the first are not those of the command: there are more or fewer, those behind `participate` are
    /// others, the name of a file, a channel or a feature isn't in UTF-8, the name of an event or a preference isn't 1 to 80
    /// ASCII letters, digits, `-`, `_` and `.`, the number behind an event isn't from 1 to 1,000,000, that behind `confirm`
    /// isn't below 2 to the 64, or the value of a preference isn't the JSON (RFC 8259) of a truth value, of a whole number of
    /// 64 bits with a sign, or of a text.
    BadWords,
    /// A word that stands for a slug fails to be one at this place: the first such word.
    BadSlug(usize),
    /// The word that stands for an id is none (RFC 9562).
    BadId,
    /// Want of memory.
    OutOfMemory,
}

impl From<AllocError> for LineFault {
    ghost use Rattle.std.specs.Prelude.{◌≡◌};
    ghost use Rattle.client_words.specs.declared.line.LineFault.TheVariants.{OutOfMemory};

    ghost from_gives = { λ _ fault. fault ≡ OutOfMemory };

    fn from(_: AllocError) -> Self {
        LineFault::OutOfMemory
    }
}

/// The command of a line, or the first fault that applies. Words are separated by spaces and tabs. The slugs of the command
/// are slugs, its id has sixteen bytes, of an event the name is a name and the count is 1 to 1,000,000, and of a preference the
/// name is a name and the value is `Truth`, `Whole` or `Text`.
#[tactic(auto, unfolding(crate::specs::Commands::command_of))]
pub fn read_command(alloc: Global, line: &[u8]) -> Result<Command, LineFault>
    ensures value { (result ≡ command_of line.now) ⊎ (result ≡ Err LineFault.OutOfMemory) }
    ensures kept { IfOk result IsCommand }
{
    if line.len() > MAX_LINE_LEN {
        return Err(LineFault::LineTooLong);
    }
    if line.is_empty() {
        return Err(LineFault::Blank);
    }
    let spans = words(alloc, line)?;
    command_at(alloc, line, spans.as_slice())
}

/// The command of the words at these spans of a line.
fn command_at(alloc: Global, line: &[u8], spans: &[(usize, usize)]) -> Result<Command, LineFault>
    requires { All (IsWithin (length line.now)) spans.now }
    ensures { (result ≡ command_of_words (map (bytes_at line.now) spans.now)) ⊎ (result ≡ Err LineFault.OutOfMemory) }
{
    match spans {
        [] => Err(LineFault::Blank),
        [name, arguments @ ..] => named(alloc, bytes_at(line, *name), line, arguments),
    }
}

/// The command of this name, with the words behind it.
fn named(
    alloc: Global,
    name: &[u8],
    line: &[u8],
    arguments: &[(usize, usize)],
) -> Result<Command, LineFault>
    requires { All (IsWithin (length line.now)) arguments.now }
    ensures { (result ≡ command_of_words (name.now ∷ map (bytes_at line.now) arguments.now)) ⊎ (result ≡ Err LineFault.OutOfMemory) }
{
    if name == b"manifest".as_slice() {
        manifest_command(alloc, line, arguments)
    } else if name == b"context".as_slice() {
        context_command(alloc, line, arguments)
    } else if name == b"fetch".as_slice() {
        fetch_command(alloc, line, arguments)
    } else if name == b"apply".as_slice() {
        alone(Command::Apply, arguments)
    } else if name == b"participate".as_slice() {
        participate_command(line, arguments)
    } else if name == b"opt-out".as_slice() {
        opt_out_command(alloc, line, arguments)
    } else if name == b"opt-in".as_slice() {
        opt_in_command(alloc, line, arguments)
    } else if name == b"reset".as_slice() {
        reset_command(line, arguments)
    } else if name == b"show".as_slice() {
        alone(Command::Show, arguments)
    } else if name == b"feature".as_slice() {
        feature_command(alloc, line, arguments)
    } else if name == b"write-manifest".as_slice() {
        alone(Command::WriteManifest, arguments)
    } else if name == b"event".as_slice() {
        event_command(alloc, line, arguments)
    } else if name == b"changes".as_slice() {
        alone(Command::Changes, arguments)
    } else if name == b"confirm".as_slice() {
        confirm_command(line, arguments)
    } else if name == b"bind".as_slice() {
        bind_command(alloc, line, arguments)
    } else if name == b"set-pref".as_slice() {
        set_preference_command(alloc, line, arguments)
    } else if name == b"clear-pref".as_slice() {
        clear_preference_command(alloc, line, arguments)
    } else if name == b"prefs".as_slice() {
        alone(Command::Preferences, arguments)
    } else {
        Err(LineFault::UnknownCommand)
    }
}

/// The bytes at a span of a text.
pub fn bytes_at(text: &[u8], span: (usize, usize)) -> &[u8]
    requires { IsWithin (length text.now) span }
    ensures { result.now ≡ bytes_at text.now span }
{
    let (start, end) = span;
    &text[start..end]
}
