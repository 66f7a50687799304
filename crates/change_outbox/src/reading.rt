// The outbox of rows.
ghost use Rattle.std.specs.Prelude.{◌≡◌, ◌<◌, ◌≤◌, ◌+◌, ◌-◌, ◌^◌, ◌↔◌, ℕ, List, length, map, IfOk, IfSome, IsErrOf, IsNone, IsTrue};
ghost use Rattle.enrol_states.specs.Statuses.{IsSlug};
ghost use Rattle.change_outbox.specs.declared.change.Change.{Change};
ghost use Rattle.change_outbox.specs.declared.change.ChangeKind.{ChangeKind};
ghost use Rattle.change_outbox.specs.Contents.{AreNumberedFrom, Contents, HasSlugs, HaveSlugs, IsSound, last_number};
ghost use Rattle.change_outbox.specs.Rows.{change_key, change_row, change_text, kind_letter, next_row, number_text, rows_of};

use crate::change::{Change, ChangeKind};
use crate::fault::OutboxFault;
use crate::outbox::{LAST_NUMBER, Outbox};
use crate::rows::{JOIN, LEAVE, OUTBOX, number_bytes};
use plain_text::{Slug, SlugFault, slug_of};
use row_batches::StoreRow;
use std::alloc::Global;

/// The sound outbox that has exactly these rows, in this order. `NotAnOutbox` comes exactly where there is none.
pub fn outbox_of(alloc: Global, rows: &[StoreRow]) -> Result<Outbox, OutboxFault>
    ensures outbox { IfOk result (λ o. IsSound o × (rows.now ≡ rows_of o)) }
    ensures not_an_outbox { IsErrOf result OutboxFault.NotAnOutbox → (o : Contents) → IsSound o → rows.now ≡ rows_of o → ⊥ }
{
    match rows {
        [] => Ok(Outbox::new(alloc)),
        [first, entries @ ..] => {
            let next = next_in(first)?;
            let changes = changes_in(alloc, next, entries)?;
            Ok(Outbox::of_entries(alloc, next, changes)?)
        }
    }
}

// The next number of the row, where it is above 1.
fn next_in(row: &StoreRow) -> Result<u64, OutboxFault>
    ensures row { IfOk result (λ next. row.now ≡ next_row next) }
    ensures low { IfOk result (λ next. 1 < next) }
    ensures high { IfOk result (λ next. next ≤ last_number) }
    ensures none { IsErrOf result OutboxFault.NotAnOutbox → (next : ℕ) → 1 < next → next ≤ last_number → row.now ≡ next_row next → ⊥ }
    ensures memory { IsErrOf result OutboxFault.OutOfMemory → ⊥ }
{
    if row.key.as_slice() != [OUTBOX].as_slice() {
        return Err(OutboxFault::NotAnOutbox);
    }
    match number_in(row.value.as_slice()) {
        Some(next) if 1 < next && next <= LAST_NUMBER => Ok(next),
        _ => Err(OutboxFault::NotAnOutbox),
    }
}

// The number of eight bytes, the highest first.
#[tactic(auto, unfolding(crate::specs::Rows::number_text))]
fn number_in(bytes: &[u8]) -> Option<u64>
    ensures some { IfSome result (λ number. bytes.now ≡ number_text number) }
    ensures fits { IfSome result (λ number. number < 2 ^ 64) }
    ensures none { IsNone result → (number : ℕ) → bytes.now ≡ number_text number → ⊥ }
{
    if bytes.len() != 8 {
        return None;
    }
    let mut number = [0; 8];
    number.copy_from_slice(bytes);
    Some(u64::from_be_bytes(number))
}

// The changes of the rows, which are numbered up to the next number.
fn changes_in(alloc: Global, next: u64, rows: &[StoreRow]) -> Result<Vec<Change>, OutboxFault>
    ensures rows { IfOk result (λ changes. rows.now ≡ map change_row changes.items) }
    ensures count { IfOk result (λ changes. length changes.items < next) }
    ensures numbers { IfOk result (λ changes. AreNumberedFrom (next - length changes.items) changes.items) }
    ensures slugs { IfOk result (λ changes. HaveSlugs changes.items) }
    ensures none { IsErrOf result OutboxFault.NotAnOutbox → (changes : List Change) → length changes < next → AreNumberedFrom (next - length changes) changes
        → HaveSlugs changes → rows.now ≡ map change_row changes → ⊥ }
{
    let count = rows.len() as u64;
    if count >= next {
        return Err(OutboxFault::NotAnOutbox);
    }
    changes_from(alloc, next - count, rows)
}

// The changes of the rows, which are numbered from this number on.
fn changes_from(alloc: Global, first: u64, rows: &[StoreRow]) -> Result<Vec<Change>, OutboxFault>
    requires { first + length rows.now < 2 ^ 64 }
    ensures rows { IfOk result (λ changes. rows.now ≡ map change_row changes.items) }
    ensures numbers { IfOk result (λ changes. AreNumberedFrom first changes.items) }
    ensures slugs { IfOk result (λ changes. HaveSlugs changes.items) }
    ensures none { IsErrOf result OutboxFault.NotAnOutbox → (changes : List Change) → AreNumberedFrom first changes → HaveSlugs changes
        → rows.now ≡ map change_row changes → ⊥ }
{
    let mut changes = Vec::with_capacity(alloc, rows.len())?;
    let mut number = first;
    for row in rows {
        changes.push(change_in(alloc, number, row)?)?;
        number += 1;
    }
    Ok(changes)
}

// The change of a row, which has this number.
fn change_in(alloc: Global, number: u64, row: &StoreRow) -> Result<Change, OutboxFault>
    ensures row { IfOk result (λ change. row.now ≡ change_row change) }
    ensures number { IfOk result (λ change. change.number ≡ number) }
    ensures slugs { IfOk result HasSlugs }
    ensures none { IsErrOf result OutboxFault.NotAnOutbox → (change : Change) → change.number ≡ number → HasSlugs change → row.now ≡ change_row change → ⊥ }
{
    if !is_key(row.key.as_slice(), number) {
        return Err(OutboxFault::NotAnOutbox);
    }
    let Some(parts) = parts_of(row.value.as_slice()) else {
        return Err(OutboxFault::NotAnOutbox);
    };
    Ok(Change {
        number,
        slug: slug_in(alloc, parts.slug)?,
        kind: parts.kind,
        branch: slug_in(alloc, parts.branch)?,
    })
}

// Whether the key is that of a change of this number.
fn is_key(key: &[u8], number: u64) -> bool
    ensures { IsTrue result ↔ (key.now ≡ change_key number) }
{
    match key {
        [OUTBOX, behind @ ..] => behind == number_bytes(number).as_slice(),
        _ => false,
    }
}

/// The parts of a change's value.
#[derive(Clone, Copy, Drop)]
pub(crate) struct Parts<'a> {
    pub kind: ChangeKind,
    pub slug: &'a [u8],
    pub branch: &'a [u8],
}

// The parts of a change that the bytes encode.
fn parts_of(bytes: &[u8]) -> Option<Parts<'_>>
    ensures some { IfSome result (λ parts. bytes.now ≡ change_text parts.kind parts.slug.now parts.branch.now) }
    ensures none { IsNone result → (kind : ChangeKind) (slug branch : List ℕ) → bytes.now ≡ change_text kind slug branch → ⊥ }
{
    let [letter, len, texts @ ..] = bytes else {
        return None;
    };
    let kind = kind_of(*letter)?;
    let (slug, branch) = texts.split_at_checked(*len as usize)?;
    Some(Parts { kind, slug, branch })
}

// The kind of a letter.
fn kind_of(letter: u8) -> Option<ChangeKind>
    ensures some { IfSome result (λ kind. letter ≡ kind_letter kind) }
    ensures none { IsNone result → (kind : ChangeKind) → letter ≡ kind_letter kind → ⊥ }
{
    match letter {
        JOIN => Some(ChangeKind::Join),
        LEAVE => Some(ChangeKind::Leave),
        _ => None,
    }
}

// The slug that the bytes are.
fn slug_in(alloc: Global, bytes: &[u8]) -> Result<Slug, OutboxFault>
    ensures text { IfOk result (λ slug. slug ≡ bytes.now) }
    ensures slug { IfOk result IsSlug }
    ensures none { IsErrOf result OutboxFault.NotAnOutbox → IsSlug bytes.now → ⊥ }
{
    match slug_of(alloc, bytes) {
        Ok(slug) => Ok(slug),
        Err(SlugFault::BadSlug(_)) => Err(OutboxFault::NotAnOutbox),
        Err(SlugFault::OutOfMemory) => Err(OutboxFault::OutOfMemory),
    }
}
