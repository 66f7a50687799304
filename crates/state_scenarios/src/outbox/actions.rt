//! Rows on what actions leave of an outbox.
use super::shown::add_outbox;
use crate::inputs::{number, slug};
use change_outbox::{AppendChangesFault, Change, ChangeKind, ConfirmFault, Outbox};
use plain_text::Slug;
use row_tables::{Fault, Found, cut, parts};
use sequences::Sequence;
use std::alloc::Global;

/// The answers, and what the outbox then has. Row: actions with semicolons between them. An action is `append` and changes with
/// commas between them, `prepare` and changes, which are appended without taking the outbox that this makes, or `confirm` and a
/// number.
pub(crate) fn find_left(
    alloc: Global,
    outbox: &mut Outbox,
    input: &str,
    found: &mut Found,
) -> Result<(), Fault> {
    act_all(alloc, outbox, input, found)?;
    found.text("; ");
    Ok(add_outbox(outbox, found))
}

/// What an outbox has after an append to it, and what the outbox that this makes has. Row: actions with semicolons between them,
/// and behind ` | ` the changes that are then appended, with commas between them.
pub(crate) fn find_both(
    alloc: Global,
    outbox: &mut Outbox,
    input: &str,
    found: &mut Found,
) -> Result<(), Fault> {
    let (actions, changes) = parts(input)?;
    act_all(alloc, outbox, actions, found)?;
    found.clear();
    find_next(alloc, outbox, changes, found)
}

fn find_next(
    alloc: Global,
    outbox: &mut Outbox,
    changes: &str,
    found: &mut Found,
) -> Result<(), Fault> {
    let changes = changes_of(alloc, changes)?;
    match outbox.append(changes) {
        Ok(next) => {
            add_both(outbox, &next, found);
            drop(next);
            Ok(())
        }
        Err(_) => Err(Fault::NoRow),
    }
}

fn add_both(first: &Outbox, second: &Outbox, found: &mut Found) {
    add_outbox(first, found);
    found.text("; ");
    add_outbox(second, found)
}

/// Does the actions one after the other, and adds their answers.
pub(crate) fn act_all(
    alloc: Global,
    outbox: &mut Outbox,
    input: &str,
    found: &mut Found,
) -> Result<(), Fault> {
    for action in input.split("; ") {
        found.between(", ");
        act(alloc, outbox, action, found)?;
    }
    Ok(())
}

fn act(alloc: Global, outbox: &mut Outbox, action: &str, found: &mut Found) -> Result<(), Fault> {
    let (verb, rest) = cut(action);
    match verb {
        "append" => append(alloc, outbox, rest, found),
        "prepare" => prepare(alloc, outbox, rest, found),
        "confirm" => confirm(outbox, number(rest)?, found),
        _ => Err(Fault::NoRow),
    }
}

fn append(
    alloc: Global,
    outbox: &mut Outbox,
    changes: &str,
    found: &mut Found,
) -> Result<(), Fault> {
    let changes = changes_of(alloc, changes)?;
    match outbox.append(changes) {
        Ok(next) => {
            *outbox = next;
            Ok(found.text("ok"))
        }
        Err(fault) => add_spent(fault, found),
    }
}

fn prepare(
    alloc: Global,
    outbox: &mut Outbox,
    changes: &str,
    found: &mut Found,
) -> Result<(), Fault> {
    let changes = changes_of(alloc, changes)?;
    match outbox.append(changes) {
        Ok(next) => {
            drop(next);
            Ok(found.text("ok"))
        }
        Err(fault) => add_spent(fault, found),
    }
}

fn add_spent(fault: AppendChangesFault, found: &mut Found) -> Result<(), Fault> {
    match fault {
        AppendChangesFault::ChangesSpent => Ok(found.text("ChangesSpent")),
        AppendChangesFault::OutOfMemory => Err(Fault::OutOfMemory),
    }
}

fn confirm(outbox: &mut Outbox, number: u64, found: &mut Found) -> Result<(), Fault> {
    match outbox.confirm(number) {
        Ok(left) => {
            *outbox = left;
            Ok(found.text("ok"))
        }
        Err(ConfirmFault::NoSuchChange(next)) => Ok(add_refusal(next, found)),
        Err(ConfirmFault::OutOfMemory) => Err(Fault::OutOfMemory),
    }
}

fn add_refusal(next: u64, found: &mut Found) {
    found.text("NoSuchChange ");
    found.displayed(&next);
}

/// The changes that a text names with commas between them, or none.
pub(crate) fn changes_of(alloc: Global, text: &str) -> Result<Sequence<Change>, Fault> {
    let mut changes = Sequence::new(alloc);
    read_changes(alloc, text, &mut changes)?;
    Ok(changes)
}

fn read_changes(alloc: Global, text: &str, changes: &mut Sequence<Change>) -> Result<(), Fault> {
    if text == "none" {
        return Ok(());
    }
    for change in text.split(", ") {
        read_change(alloc, change, changes)?;
    }
    Ok(())
}

// `join` or `leave`, a slug and a branch.
fn read_change(alloc: Global, text: &str, changes: &mut Sequence<Change>) -> Result<(), Fault> {
    let (kind, names) = cut(text);
    let (name, branch) = cut(names);
    let kind = kind_of(kind)?;
    let slug = slug(alloc, name)?;
    add_change(alloc, slug, kind, branch, changes)
}

fn kind_of(word: &str) -> Result<ChangeKind, Fault> {
    match word {
        "join" => Ok(ChangeKind::Join),
        "leave" => Ok(ChangeKind::Leave),
        _ => Err(Fault::NoRow),
    }
}

fn add_change(
    alloc: Global,
    name: Slug,
    kind: ChangeKind,
    branch: &str,
    changes: &mut Sequence<Change>,
) -> Result<(), Fault> {
    let branch = slug(alloc, branch)?;
    let change = Change {
        number: 0,
        slug: name,
        kind,
        branch,
    };
    Ok(changes.push(change)?)
}
