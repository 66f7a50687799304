// The text of a refusal.
ghost use Rattle.std.specs.Prelude.{◌≡◌, ◌++◌, IfOk, OnOk, string_bytes};
ghost use Rattle.std.specs.Fmt.{decimal};
ghost use Rattle.fml_link.specs.declared.fault.LinkRefusal.TheVariants as link;
ghost use Rattle.client_words.specs.declared.refusal.Refusal.TheVariants.{BadDefault, FeatureTaken};
ghost use Rattle.client_words.specs.Refusals.{quoted, file_length_words, join_words, link_words, refusal_words, refusal_lines};

use crate::refusal::Refusal;
use crate::rows::push_words;
use fml_imports::JoinRefusal;
use fml_link::LinkRefusal;
use itoa::Buffer;
use json_tree::{Tree, write};
use plain_text::Slug;
use sequences::Text;
use std::alloc::{AllocError, Global};

/// The text of a refusal: a whole line.
#[tactic(auto, unfolding(crate::specs::Refusals::refusal_lines))]
pub(crate) fn refusal_text(alloc: Global, refusal: &Refusal) -> Result<Text, AllocError>
    ensures { IfOk result (λ text. text ≡ refusal_lines refusal.now) }
{
    let mut text = String::from_str(alloc, "refused ")?;
    push_refusal(&mut text, alloc, refusal)?;
    text.push_str("\n")?;
    Ok(Text::from_string(text))
}

/// The name of a refusal, and what it names.
fn push_refusal(text: &mut String, alloc: Global, refusal: &Refusal) -> Result<(), AllocError>
    ensures { OnOk result (string_bytes text.new ≡ string_bytes text.old ++ refusal_words refusal.now) }
{
    match refusal {
        Refusal::NoManifest => text.push_str("NoManifest"),
        Refusal::NoContext => text.push_str("NoContext"),
        Refusal::AbsentFile(name) => push_quoted(text, alloc, "AbsentFile ", name.as_str()),
        Refusal::FileTooLarge(name, length) => push_file_length(text, alloc, name, *length),
        Refusal::NotJson(name) => push_quoted(text, alloc, "NotJson ", name.as_str()),
        Refusal::BadContext(key) => push_quoted(text, alloc, "BadContext ", key.name()),
        Refusal::BadBinding(feature) => push_quoted(text, alloc, "BadBinding ", feature.as_str()),
        Refusal::NoData => text.push_str("NoData"),
        Refusal::TooManyRecipes(count) => push_number(text, "TooManyRecipes ", u128::from(*count)),
        Refusal::NotLinked(refusal) => push_link_refusal(text, alloc, refusal),
        Refusal::BadDefault(owner, path) => push_default(text, alloc, owner, path),
        Refusal::UnknownFeature => text.push_str("UnknownFeature"),
        Refusal::OptedOutLimit => text.push_str("OptedOutLimit"),
        Refusal::NoSuchExperiment => text.push_str("NoSuchExperiment"),
        Refusal::NotParticipating => text.push_str("NotParticipating"),
        Refusal::NoSuchBranch => text.push_str("NoSuchBranch"),
        Refusal::FeatureTaken(holder, feature) => push_taken(text, holder, feature),
        Refusal::EventLimit => text.push_str("EventLimit"),
        Refusal::NoSuchChange(next) => push_number(text, "NoSuchChange ", u128::from(*next)),
        Refusal::ChangesSpent => text.push_str("ChangesSpent"),
        Refusal::StateTooLarge(size) => push_number(text, "StateTooLarge ", *size),
    }
}

/// What is said of files that don't link.
fn push_link_refusal(
    text: &mut String,
    alloc: Global,
    refusal: &LinkRefusal,
) -> Result<(), AllocError>
    ensures { OnOk result (string_bytes text.new ≡ string_bytes text.old ++ link_words refusal.now) }
{
    match refusal {
        LinkRefusal::AbsentFile(name) => push_quoted(text, alloc, "AbsentFile ", name.as_str()),
        LinkRefusal::FileTooLarge(name, length) => push_file_length(text, alloc, name, *length),
        LinkRefusal::NotJson(name) => push_quoted(text, alloc, "NotJson ", name.as_str()),
        LinkRefusal::BadShape(name, path) => push_shape(text, alloc, name, path),
        LinkRefusal::TooManyFiles => text.push_str("TooManyFiles"),
        LinkRefusal::ImportClash(name) => push_quoted(text, alloc, "ImportClash ", name.as_str()),
        LinkRefusal::NotJoined(refusal) => push_join_refusal(text, alloc, refusal),
    }
}

/// What is said of files that aren't joined.
fn push_join_refusal(
    text: &mut String,
    alloc: Global,
    refusal: &JoinRefusal,
) -> Result<(), AllocError>
    ensures { OnOk result (string_bytes text.new ≡ string_bytes text.old ++ join_words refusal.now) }
{
    match refusal {
        JoinRefusal::DuplicateName(name) => push_words(text, "DuplicateName ", name.as_str()),
        JoinRefusal::UnknownType(name) => push_words(text, "UnknownType ", name.as_str()),
        JoinRefusal::EndlessObject(name) => push_words(text, "EndlessObject ", name.as_str()),
        JoinRefusal::ObjectTooLarge(name) => push_words(text, "ObjectTooLarge ", name.as_str()),
        JoinRefusal::UnknownChannel => text.push_str("UnknownChannel"),
        JoinRefusal::UnknownImport(path) => {
            push_quoted(text, alloc, "UnknownImport ", path.as_str())
        }
        JoinRefusal::UnknownOverride(name) => push_words(text, "UnknownOverride ", name.as_str()),
    }
}

/// A file that is too long, with its length.
fn push_file_length(
    text: &mut String,
    alloc: Global,
    name: &Text,
    length: u64,
) -> Result<(), AllocError>
    ensures { OnOk result (string_bytes text.new ≡ string_bytes text.old ++ file_length_words name.now length) }
{
    push_quoted(text, alloc, "FileTooLarge ", name.as_str())?;
    push_number(text, " ", u128::from(length))
}

/// A file that is no module, with the path of the first place that hasn't its shape.
fn push_shape(text: &mut String, alloc: Global, name: &Text, path: &Text) -> Result<(), AllocError>
    ensures { OnOk result (string_bytes text.new ≡ string_bytes text.old ++ link_words (link.BadShape name.now path.now)) }
{
    push_quoted(text, alloc, "BadShape ", name.as_str())?;
    push_quoted(text, alloc, " ", path.as_str())
}

/// A default that doesn't fit, with the name of its object or feature and its path there.
fn push_default(
    text: &mut String,
    alloc: Global,
    owner: &Text,
    path: &Text,
) -> Result<(), AllocError>
    ensures { OnOk result (string_bytes text.new ≡ string_bytes text.old ++ refusal_words (BadDefault owner.now path.now)) }
{
    push_words(text, "BadDefault ", owner.as_str())?;
    push_quoted(text, alloc, " ", path.as_str())
}

/// A feature that another recipe holds.
fn push_taken(text: &mut String, holder: &Slug, feature: &Text) -> Result<(), AllocError>
    ensures { OnOk result (string_bytes text.new ≡ string_bytes text.old ++ refusal_words (FeatureTaken holder.now feature.now)) }
{
    push_words(text, "FeatureTaken ", holder.text())?;
    push_words(text, " ", feature.as_str())
}

/// A name of a file, a path or a key, as canonical JSON behind a word.
#[tactic(auto, unfolding(crate::specs::Refusals::quoted))]
fn push_quoted(text: &mut String, alloc: Global, front: &str, name: &str) -> Result<(), AllocError>
    ensures { OnOk result (string_bytes text.new ≡ string_bytes text.old ++ (front.now ++ quoted name.now)) }
{
    let tree = Tree::Text(Text::new(alloc, name)?);
    push_words(text, front, write(alloc, &tree)?.as_str())
}

/// A number behind a word.
fn push_number(text: &mut String, front: &str, number: u128) -> Result<(), AllocError>
    ensures { OnOk result (string_bytes text.new ≡ string_bytes text.old ++ (front.now ++ decimal number)) }
{
    push_words(text, front, Buffer::new().format(number))
}
