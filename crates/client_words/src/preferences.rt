// The words behind the commands of preferences.
ghost use Rattle.std.specs.Prelude.{◌≡◌, ◌⊎◌, Err, All, map, length};
ghost use Rattle.json_tree.specs.Tree.{json_of};
ghost use Rattle.client_words.specs.Commands.{bind_command, set_preference_command, clear_preference_command, value_in, preference_value, bytes_at, IsWithin};

use crate::arguments::{name_in, text_in};
use crate::command::Command;
use crate::line::{LineFault, bytes_at};
use json_tree::{Tree, TreeFault, read};
use pref_bindings::is_value;
use std::alloc::Global;

/// The words behind `bind`: the one name of a file, in UTF-8.
pub(crate) fn bind_command(
    alloc: Global,
    line: &[u8],
    arguments: &[(usize, usize)],
) -> Result<Command, LineFault>
    requires { All (IsWithin (length line.now)) arguments.now }
    ensures { (result ≡ bind_command (map (bytes_at line.now) arguments.now)) ⊎ (result ≡ Err LineFault.OutOfMemory) }
{
    let [word] = arguments else {
        return Err(LineFault::BadWords);
    };
    let file = text_in(alloc, bytes_at(line, *word))?;
    Ok(Command::Bind { file })
}

/// The words behind `set-pref`: the name of a preference, and its value.
pub(crate) fn set_preference_command(
    alloc: Global,
    line: &[u8],
    arguments: &[(usize, usize)],
) -> Result<Command, LineFault>
    requires { All (IsWithin (length line.now)) arguments.now }
    ensures { (result ≡ set_preference_command (map (bytes_at line.now) arguments.now)) ⊎ (result ≡ Err LineFault.OutOfMemory) }
{
    let [name_word, value_word] = arguments else {
        return Err(LineFault::BadWords);
    };
    let name = name_in(alloc, bytes_at(line, *name_word))?;
    let value = value_in(alloc, bytes_at(line, *value_word))?;
    Ok(Command::SetPreference { name, value })
}

/// The words behind `clear-pref`: the one name of a preference.
pub(crate) fn clear_preference_command(
    alloc: Global,
    line: &[u8],
    arguments: &[(usize, usize)],
) -> Result<Command, LineFault>
    requires { All (IsWithin (length line.now)) arguments.now }
    ensures { (result ≡ clear_preference_command (map (bytes_at line.now) arguments.now)) ⊎ (result ≡ Err LineFault.OutOfMemory) }
{
    let [word] = arguments else {
        return Err(LineFault::BadWords);
    };
    let name = name_in(alloc, bytes_at(line, *word))?;
    Ok(Command::ClearPreference { name })
}

/// The value of a preference, whose JSON (RFC 8259) the word is: a truth value, a whole number of 64 bits with a sign, or a text.
#[tactic(auto, unfolding(crate::specs::Commands::value_in))]
fn value_in(alloc: Global, word: &[u8]) -> Result<Tree, LineFault>
    ensures { (result ≡ value_in word.now) ⊎ (result ≡ Err LineFault.OutOfMemory) }
{
    match read(alloc, word) {
        Ok(tree) => value_of(tree),
        Err(TreeFault::NotJson | TreeFault::TooDeep) => Err(LineFault::BadWords),
        Err(TreeFault::OutOfMemory) => Err(LineFault::OutOfMemory),
    }
}

/// The tree, where a preference can have it.
fn value_of(tree: Tree) -> Result<Tree, LineFault>
    ensures { result ≡ preference_value (json_of tree) }
{
    tree.keeps();
    if is_value(&tree) {
        Ok(tree)
    } else {
        Err(LineFault::BadWords)
    }
}
