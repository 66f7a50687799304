// A tree read as a context.
ghost use Rattle.std.specs.Prelude.{◌≡◌, ◌++◌, ◌↔◌, Some, Err, IfOk, OnOk, option_map, not};
ghost use Rattle.std.specs.List.{find, list_all};
ghost use Rattle.json_tree.specs.Json.{get, members_of};
ghost use Rattle.json_tree.specs.Tree.{json_of};
ghost use Rattle.app_context.specs.Keys.{name_of, fits, is_text, are_texts, is_object_of_texts, is_object, needs, may_have, bad_key};
ghost use Rattle.app_context.specs.Contexts.{Gives, context_of, context_in, text_in, members_in};
ghost use Rattle.app_context.specs.declared.reading.ContextFault.TheVariants.{OutOfMemory};

use crate::context::Context;
use crate::key::{ContextKey, KEYS};
use crate::members::{Wanted, members_in, texts_in};
use json_tree::{Members, Tree};
use sequences::Text;
use std::alloc::{AllocError, Global};

/// Why `read_context` gives no context.
#[derive(Clone, Copy, Debug, PartialEq, Eq)]
pub enum ContextFault {
    /// The value of the key isn't one that it may have: a text of `AppName` and `Channel`, absent,
    /// null or a text of those up to `AndroidSdkVersion`, absent, null or an object of texts of
    /// `Units`, and absent, null or an object of `CustomTargetingAttributes`. It is the first such
    /// key in the order in which `ContextKey` lists them.
    BadContext(ContextKey),
    OutOfMemory,
}

impl From<AllocError> for ContextFault {
    ghost from_gives = { λ _ e. e ≡ OutOfMemory };

    fn from(_e: AllocError) -> ContextFault {
        ContextFault::OutOfMemory
    }
}

/// The context that the tree is. Other keys than those of `ContextKey` are read past, and a tree
/// that isn't an object lacks all of them.
#[tactic(auto, unfolding(crate::specs::Contexts::context_of))]
pub fn read_context(alloc: Global, tree: &Tree) -> Result<Context, ContextFault>
    ensures reads { Gives result (context_of (json_of tree.now)) }
    ensures bad { (key : ContextKey) → (result ≡ Err (ContextFault.BadContext key)) ↔ (bad_key (json_of tree.now) ≡ Some key) }
{
    match bad_key(tree) {
        Some(key) => Err(ContextFault::BadContext(key)),
        None => Ok(context_in(alloc, tree)?),
    }
}

/// The first key whose value is none that it may have.
#[tactic(auto, unfolding(crate::specs::Keys::bad_key))]
fn bad_key(tree: &Tree) -> Option<ContextKey>
    ensures { result ≡ bad_key (json_of tree.now) }
{
    first_bad(&KEYS, tree)
}

fn first_bad(keys: &[ContextKey], tree: &Tree) -> Option<ContextKey>
    ensures { result ≡ find (λ key. not (fits key (get (name_of key) (json_of tree.now)))) keys.now }
{
    keys.iter()
        .copied()
        .find(|key| !fits(*key, tree.get(key.name())))
}

/// Whether the value is one that the key may have.
fn fits(key: ContextKey, value: Option<&Tree>) -> bool
    ensures { result ≡ fits key (option_map (λ t. json_of t.now) value.entry) }
{
    match key {
        ContextKey::AppName | ContextKey::Channel => is_needed_text(value),
        ContextKey::Units => may_be_texts(value),
        ContextKey::CustomTargetingAttributes => may_be_object(value),
        _ => may_be_text(value),
    }
}

fn is_needed_text(value: Option<&Tree>) -> bool
    ensures { result ≡ needs is_text (option_map (λ t. json_of t.now) value.entry) }
{
    match value {
        Some(Tree::Text(_)) => true,
        _ => false,
    }
}

fn may_be_text(value: Option<&Tree>) -> bool
    ensures { result ≡ may_have is_text (option_map (λ t. json_of t.now) value.entry) }
{
    match value {
        None | Some(Tree::Null | Tree::Text(_)) => true,
        Some(_) => false,
    }
}

fn may_be_texts(value: Option<&Tree>) -> bool
    ensures { result ≡ may_have is_object_of_texts (option_map (λ t. json_of t.now) value.entry) }
{
    match value {
        None | Some(Tree::Null) => true,
        Some(Tree::Object(members)) => are_texts(members),
        Some(_) => false,
    }
}

#[tactic(auto, using(crate::proofs::Pairs::all_texts_are))]
fn are_texts(members: &Members) -> bool
    ensures { result ≡ are_texts (members_of members.now) }
{
    all_texts(members.as_slice())
}

fn all_texts(members: &[(Text, Tree)]) -> bool
    ensures { result ≡ list_all (λ m. is_text (json_of m.1)) members.now }
{
    members.iter().all(|member| is_text(&member.1))
}

fn is_text(tree: &Tree) -> bool
    ensures { result ≡ is_text (json_of tree.now) }
{
    matches!(tree, Tree::Text(_))
}

fn may_be_object(value: Option<&Tree>) -> bool
    ensures { result ≡ may_have is_object (option_map (λ t. json_of t.now) value.entry) }
{
    match value {
        None | Some(Tree::Null | Tree::Object(_)) => true,
        Some(_) => false,
    }
}

/// What stands under the keys of the tree.
#[tactic(auto, unfolding(crate::specs::Contexts::context_in))]
fn context_in(alloc: Global, tree: &Tree) -> Result<Context, AllocError>
    ensures { IfOk result (λ c. c ≡ context_in (json_of tree.now)) }
{
    Ok(Context {
        app_name: text_in(alloc, tree.get(ContextKey::AppName.name()))?,
        channel: text_in(alloc, tree.get(ContextKey::Channel.name()))?,
        texts: texts_in(alloc, Some(tree), Wanted::OptionalTexts)?,
        units: texts_in(alloc, tree.get(ContextKey::Units.name()), Wanted::AllTexts)?,
        custom: members_in(
            alloc,
            tree.get(ContextKey::CustomTargetingAttributes.name()),
        )?,
    })
}

/// The text, and an empty one for what is none.
fn text_in(alloc: Global, value: Option<&Tree>) -> Result<Text, AllocError>
    ensures { IfOk result (λ t. t ≡ text_in (option_map (λ t. json_of t.now) value.entry)) }
{
    match value {
        Some(Tree::Text(text)) => Ok(text.clone()?),
        _ => Ok(Text::from_string(String::new(alloc))),
    }
}
