// The text of an answer.
ghost use Rattle.std.specs.Prelude.{◌≡◌, ◌≢◌, [], ◌∷◌, ◌++◌, IfOk};
ghost use Rattle.json_tree.specs.Bytes.{text_of};
ghost use Rattle.json_tree.specs.Tree.{json_of};
ghost use Rattle.client_words.specs.Answers.{participating_in, yes_or_no, shown_lines, fetched_lines, changes_lines, preferences_lines, answer_lines, fault_answer};
ghost use Rattle.client_words.specs.Answers as spec;

use crate::answer::Answer;
use crate::line::LineFault;
use crate::refusal_texts::refusal_text;
use crate::rows::push_lines;
use change_outbox::Entries;
use enrol_states::Row;
use itoa::Buffer;
use json_tree::{Tree, write};
use plain_text::Slug;
use pref_bindings::Prefs;
use recipe_reader::SkipReason;
use sequences::{Sequence, SharedList, Text};
use std::alloc::{AllocError, Global};
use uuid::Uuid;

/// The text of an answer to a command: whole lines.
#[tactic(auto, unfolding(crate::specs::Answers::answer_lines))]
pub fn answer_text(alloc: Global, answer: &Answer) -> Result<Text, AllocError>
    ensures { IfOk result (λ text. text ≡ answer_lines answer.now) }
{
    match answer {
        Answer::Okay => Text::new(alloc, "ok\n"),
        Answer::Fetched { kept, skipped } => fetched_text(alloc, *kept, skipped),
        Answer::Applied { enrolled, rows } => applied_text(alloc, *enrolled, *rows),
        Answer::Value(tree) => tree_text(alloc, "value ", tree),
        Answer::Manifest(tree) => tree_text(alloc, "manifest ", tree),
        Answer::Changes(changes) => changes_text(alloc, changes),
        Answer::Preferences(preferences) => preferences_text(alloc, preferences),
        Answer::Shown {
            id,
            experiments,
            rollouts,
            pending,
            opted_out,
            rows,
        } => shown_text(
            alloc,
            *id,
            *experiments,
            *rollouts,
            *pending,
            opted_out,
            rows,
        ),
        Answer::Refused(refusal) => refusal_text(alloc, refusal),
    }
}

/// The text of the answer to a line that has no command: a whole line, or nothing for a blank one.
pub fn line_text(alloc: Global, fault: &LineFault) -> Result<Text, AllocError>
    requires { fault.now ≢ LineFault.OutOfMemory }
    ensures { IfOk result (λ text. text ≡ fault_answer fault.now) }
{
    match fault {
        LineFault::LineTooLong => Text::new(alloc, "refused LineTooLong\n"),
        LineFault::Blank => Text::new(alloc, ""),
        LineFault::UnknownCommand => Text::new(alloc, "refused UnknownCommand\n"),
        LineFault::BadWords => Text::new(alloc, "refused BadWords\n"),
        LineFault::BadSlug(place) => bad_slug_text(alloc, *place),
        LineFault::BadId => Text::new(alloc, "refused BadId\n"),
        LineFault::OutOfMemory => unreachable!(),
    }
}

/// What is said of a word that is no slug, with the place of its first bad byte.
fn bad_slug_text(alloc: Global, place: usize) -> Result<Text, AllocError>
    ensures { IfOk result (λ text. text ≡ fault_answer (LineFault.BadSlug place)) }
{
    let mut text = String::from_str(alloc, "refused BadSlug ")?;
    text.push_str(Buffer::new().format(place))?;
    text.push_str("\n")?;
    Ok(Text::from_string(text))
}

/// The text of an id, in lower case and with hyphens (RFC 9562).
#[tactic(auto, unfolding(crate::specs::Answers::hyphenated))]
pub fn hyphenated(alloc: Global, id: Uuid) -> Result<Text, AllocError>
    ensures { IfOk result (λ text. text ≡ spec.hyphenated id) }
{
    let mut buffer = Uuid::encode_buffer();
    Text::new(alloc, id.hyphenated().encode_lower(&mut buffer))
}

/// What `fetch` says.
#[tactic(auto, unfolding(crate::specs::Answers::fetched_lines))]
fn fetched_text(
    alloc: Global,
    kept: u32,
    skipped: &Sequence<(u32, SkipReason)>,
) -> Result<Text, AllocError>
    ensures { IfOk result (λ text. text ≡ fetched_lines kept skipped.now) }
{
    let mut text = String::from_str(alloc, "fetched ")?;
    text.push_str(Buffer::new().format(kept))?;
    text.push_str(" skipped ")?;
    text.push_str(Buffer::new().format(skipped.len()))?;
    text.push_str("\n")?;
    push_lines(alloc, &mut text, skipped.as_slice())?;
    Ok(Text::from_string(text))
}

/// What `apply` says.
#[tactic(auto, unfolding(crate::specs::Answers::answer_lines))]
fn applied_text(alloc: Global, enrolled: usize, rows: usize) -> Result<Text, AllocError>
    ensures { IfOk result (λ text. text ≡ answer_lines (Answer.Applied enrolled rows)) }
{
    let mut text = String::from_str(alloc, "applied ")?;
    text.push_str(Buffer::new().format(enrolled))?;
    text.push_str(" of ")?;
    text.push_str(Buffer::new().format(rows))?;
    text.push_str("\n")?;
    Ok(Text::from_string(text))
}

/// A tree's compact text behind a word: what `feature` and `write-manifest` say.
fn tree_text(alloc: Global, front: &str, tree: &Tree) -> Result<Text, AllocError>
    ensures { IfOk result (λ text. text ≡ front.now ++ text_of (json_of tree.now) ++ 10 ∷ []) }
{
    let mut text = String::from_str(alloc, front)?;
    text.push_str(write(alloc, tree)?.as_str())?;
    text.push_str("\n")?;
    Ok(Text::from_string(text))
}

/// What `changes` says.
#[tactic(auto, unfolding(crate::specs::Answers::changes_lines))]
fn changes_text(alloc: Global, changes: &Entries) -> Result<Text, AllocError>
    ensures { IfOk result (λ text. text ≡ changes_lines changes.now) }
{
    let mut text = String::from_str(alloc, "")?;
    push_lines(alloc, &mut text, changes.as_slice())?;
    text.push_str("end\n")?;
    Ok(Text::from_string(text))
}

/// What `prefs` says.
#[tactic(auto, unfolding(crate::specs::Answers::preferences_lines))]
fn preferences_text(alloc: Global, preferences: &Prefs) -> Result<Text, AllocError>
    ensures { IfOk result (λ text. text ≡ preferences_lines preferences.now) }
{
    let mut text = String::from_str(alloc, "")?;
    push_lines(alloc, &mut text, preferences.as_slice())?;
    text.push_str("end\n")?;
    Ok(Text::from_string(text))
}

/// What `show` says.
#[tactic(auto, unfolding(crate::specs::Answers::shown_lines))]
fn shown_text(
    alloc: Global,
    id: Uuid,
    experiments: bool,
    rollouts: bool,
    pending: bool,
    opted_out: &SharedList<Slug>,
    rows: &SharedList<Row>,
) -> Result<Text, AllocError>
    ensures { IfOk result (λ text. text ≡ shown_lines id experiments rollouts pending opted_out.now rows.now) }
{
    let mut text = String::from_str(alloc, "id ")?;
    text.push_str(hyphenated(alloc, id)?.as_str())?;
    text.push_str("\nparticipating ")?;
    text.push_str(participating_in(experiments, rollouts))?;
    text.push_str("\npending ")?;
    text.push_str(yes_or_no(pending))?;
    text.push_str("\n")?;
    push_lines(alloc, &mut text, opted_out.as_slice())?;
    push_lines(alloc, &mut text, rows.as_slice())?;
    text.push_str("end\n")?;
    Ok(Text::from_string(text))
}

/// The kinds of recipes that the client takes part in: `yes` for both, `no` for none.
fn participating_in(experiments: bool, rollouts: bool) -> &'static str
    ensures { result.now ≡ participating_in experiments rollouts }
{
    match (experiments, rollouts) {
        (true, true) => "yes",
        (true, false) => "experiments",
        (false, true) => "rollouts",
        (false, false) => "no",
    }
}

fn yes_or_no(flag: bool) -> &'static str
    ensures { result.now ≡ yes_or_no flag }
{
    if flag { "yes" } else { "no" }
}
