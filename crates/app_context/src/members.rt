// The members of an object: its texts, and copies.
ghost use Rattle.std.specs.Prelude.{◌≡◌, ◌++◌, IfOk, OnOk, option_map};
ghost use Rattle.json_tree.specs.Json.{members_of};
ghost use Rattle.json_tree.specs.Tree.{json_of};
ghost use Rattle.enrol_states.specs.Order.{AreBelow};
ghost use Rattle.app_context.specs.Contexts.{is_optional_text, members_in, pairs_of, wants};
ghost use Rattle.app_context.specs.Named.{names_of, text_where, texts_where};

use crate::key::OPTIONAL_TEXTS;
use crate::named::NamedTexts;
use json_tree::{Members, Tree};
use sequences::Text;
use std::alloc::{AllocError, Global};

/// Which texts of an object are wanted.
#[derive(Clone, Copy, Drop)]
pub(crate) enum Wanted {
    AllTexts,
    /// Those of the keys whose text may be absent.
    OptionalTexts,
}

/// The members that have texts, of those that are wanted, where the value is an object.
pub(crate) fn texts_in(
    alloc: Global,
    value: Option<&Tree>,
    wanted: Wanted,
) -> Result<NamedTexts, AllocError>
    ensures { IfOk result (λ ts. ts ≡ texts_where (wants wanted) (members_in (option_map (λ t. json_of t.now) value.entry))) }
{
    match value {
        Some(Tree::Object(members)) => texts_where(alloc, members, wanted),
        _ => Ok(NamedTexts::new(alloc)),
    }
}

fn texts_where(alloc: Global, members: &Members, wanted: Wanted) -> Result<NamedTexts, AllocError>
    ensures { IfOk result (λ ts. ts ≡ texts_where (wants wanted) (members_of members.now)) }
{
    let pairs = members.as_slice();
    let mut texts = NamedTexts::new(alloc);
    for (name, value) in pairs {
        push_text(&mut texts, name, value, wants(wanted, name.as_str()))?;
    }
    Ok(texts)
}

/// Puts the name and its text at the end, where the value is one and is wanted.
fn push_text(
    texts: &mut NamedTexts,
    name: &Text,
    value: &Tree,
    is_wanted: bool,
) -> Result<(), AllocError>
    requires { AreBelow name.now (names_of texts.old) }
    ensures { OnOk result (texts.new ≡ texts.old ++ text_where (λ _. is_wanted) name.now (json_of value.now)) }
{
    match value {
        Tree::Text(text) if is_wanted => texts.push(name.clone()?, text.clone()?),
        _ => Ok(()),
    }
}

fn wants(wanted: Wanted, name: &str) -> bool
    ensures { result ≡ wants wanted name.now }
{
    match wanted {
        Wanted::AllTexts => true,
        Wanted::OptionalTexts => is_optional_text(name),
    }
}

fn is_optional_text(name: &str) -> bool
    ensures { result ≡ is_optional_text name.now }
{
    OPTIONAL_TEXTS.iter().any(|key| name == key.name())
}

/// A copy of the members, where the value is an object.
#[tactic(auto, using(crate::proofs::Pairs::pairs_of_members))]
pub(crate) fn members_in(alloc: Global, value: Option<&Tree>) -> Result<Members, AllocError>
    ensures { IfOk result (λ ms. ms ≡ pairs_of (members_in (option_map (λ t. json_of t.now) value.entry))) }
{
    match value {
        Some(Tree::Object(members)) => copy_of_members(alloc, members),
        _ => Ok(Members::new(alloc)),
    }
}

pub(crate) fn copy_of_members(alloc: Global, members: &Members) -> Result<Members, AllocError>
    ensures { IfOk result (λ ms. ms ≡ members.now) }
{
    let pairs = members.as_slice();
    let mut copies = Members::new(alloc);
    for (key, tree) in pairs {
        copies.push(key.clone()?, tree.clone()?)?;
    }
    Ok(copies)
}
