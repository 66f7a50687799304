//! Rows on conflicts: which wishes are granted, where recipes of one kind share features.
ghost use Rattle.enrol_conflicts.specs.Settlement.{HaveOwnSlugs};

use crate::inputs::slug;
use enrol_conflicts::{Candidate, settle, slugs_rise};
use recipe_reader::Kind;
use row_tables::{Fault, Found, cut};
use sequences::{Sequence, Text};
use std::alloc::{AllocError, Global};

/// The slugs of the wishes that are granted, each with a comma before it, over the names of coenrolling features. Row:
/// the wishes with `, ` between them, each a slug, `experiment` or `rollout`, the features with `+` between them, `in`
/// or `out` as the client was enrolled or not, and the moment of publishing or `none`.
pub(crate) fn find_granted(
    alloc: Global,
    coenrolling: &str,
    input: &str,
    found: &mut Found,
) -> Result<(), Fault> {
    let mut wishes = Vec::new(alloc);
    add_wishes(alloc, input, &mut wishes)?;
    find_granted_of(alloc, &wishes, coenrolling, found)
}

fn find_granted_of(
    alloc: Global,
    wishes: &[Candidate],
    coenrolling: &str,
    found: &mut Found,
) -> Result<(), Fault> {
    if !slugs_rise(wishes) {
        return Err(Fault::NoRow);
    }
    let coenrolling = texts(alloc, coenrolling)?;
    Ok(add_granted(alloc, wishes, coenrolling.as_slice(), found)?)
}

fn add_granted(
    alloc: Global,
    wishes: &[Candidate],
    coenrolling: &[Text],
    found: &mut Found,
) -> Result<(), AllocError>
    requires { HaveOwnSlugs wishes.now }
{
    let granted = settle(alloc, wishes, coenrolling)?;
    add_slugs(wishes, granted.as_slice(), found);
    Ok(())
}

// Adds the slugs of the wishes that are granted, each with a comma before it.
fn add_slugs(wishes: &[Candidate], granted: &[bool], found: &mut Found) {
    for (wish, is_granted) in wishes.iter().zip(granted) {
        if *is_granted {
            found.texts(&[", ", wish.slug.text()]);
        }
    }
}

fn add_wishes(alloc: Global, input: &str, wishes: &mut Vec<Candidate>) -> Result<(), Fault> {
    for text in input.split(", ") {
        wishes.push(wish(alloc, text)?)?;
    }
    Ok(())
}

fn wish(alloc: Global, text: &str) -> Result<Candidate, Fault> {
    let (name, rest) = cut(text);
    let (kind, rest) = cut(rest);
    let (features, rest) = cut(rest);
    let (enrolled, published) = cut(rest);
    let kind = kind_of(kind)?;
    let published = moment_of(published)?;
    let features = texts(alloc, features)?;
    Ok(Candidate {
        slug: slug(alloc, name)?,
        kind,
        features,
        was_enrolled: enrolled == "in",
        published,
    })
}

fn kind_of(text: &str) -> Result<Kind, Fault> {
    match text {
        "experiment" => Ok(Kind::Experiment),
        "rollout" => Ok(Kind::Rollout),
        _ => Err(Fault::NoRow),
    }
}

fn moment_of(text: &str) -> Result<Option<i64>, Fault> {
    if text == "none" {
        return Ok(None);
    }
    match text.parse::<i64>() {
        Ok(moment) => Ok(Some(moment)),
        Err(_) => Err(Fault::NoRow),
    }
}

// The texts between which there is a `+`.
fn texts(alloc: Global, names: &str) -> Result<Sequence<Text>, Fault> {
    let mut texts = Sequence::new(alloc);
    add_names(alloc, names, &mut texts)?;
    Ok(texts)
}

fn add_names(alloc: Global, names: &str, texts: &mut Sequence<Text>) -> Result<(), AllocError> {
    for name in names.split('+') {
        if !name.is_empty() {
            texts.push(Text::new(alloc, name)?)?;
        }
    }
    Ok(())
}
