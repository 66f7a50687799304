// The entries of an outbox: a part of a list that outboxes share.
ghost use Rattle.std.specs.Prelude.{◌≡◌, ◌≤◌, ◌<◌, ◌+◌, ◌-◌, ◌^◌, ◌++◌, ◌∷◌, [], drop, length, take, IfOk, OnOk};
ghost use Rattle.change_outbox.specs.Contents.{HasSlugs, HaveSlugs, numbered};
ghost use Rattle.change_outbox.specs.Shown.{shared_items};

use crate::change::Change;
use sequences::Sequence;
use std::alloc::{AllocError, Global};
use std::marker::Model;
use std::rc::Rc;

/// The entries of an outbox, as the part of a list from `start` up to `end`. Contracts see the changes of the part. A clone shares
/// the list.
#[derive(Drop)]
pub struct Entries {
    alloc: Global,
    list: Option<Rc<Vec<Change>>>,
    start: usize,
    end: usize,
}

impl Model for Entries {
    ghost use Rattle.std.specs.Prelude.{List, length, slice_range, ◌≤◌};
    ghost use Rattle.change_outbox.specs.declared.change.Change.{Change};
    ghost use Rattle.change_outbox.specs.Shown.{shared_items};

    ghost Value = { List Change };

    ghost view = { λ e. slice_range (shared_items e.list) e.start e.end };

    ghost invariant = { λ e. (e.start ≤ e.end) × (e.end ≤ length (shared_items e.list)) };
}

/// The same entries. It takes no memory.
impl Clone for Entries {
    ghost is_clone = { λ e f. f ≡ e };

    fn clone(&self) -> Result<Entries, AllocError> {
        self.without_first(0)
    }
}

impl Entries {
    /// No entries. It takes no memory.
    pub(crate) fn new(alloc: Global) -> Entries
        ensures { result ≡ [] }
    {
        Entries {
            alloc,
            list: None,
            start: 0,
            end: 0,
        }
    }

    /// Takes over changes.
    pub(crate) fn from_vec(alloc: Global, changes: Vec<Change>) -> Result<Entries, AllocError>
        ensures { IfOk result (λ entries. entries ≡ changes.items) }
    {
        let end = changes.len();
        Ok(Entries {
            alloc,
            list: Some(Rc::new(alloc, changes)?),
            start: 0,
            end,
        })
    }

    /// The changes. It takes no memory.
    pub fn as_slice(&self) -> &[Change]
        ensures { result.now ≡ self.now }
    {
        match &self.list {
            Some(list) => &list.as_slice()[self.start..self.end],
            None => &[],
        }
    }

    /// The entries behind the first `count`. It takes no memory.
    pub(crate) fn without_first(&self, count: usize) -> Result<Entries, AllocError>
        requires { count ≤ length self.now }
        ensures { IfOk result (λ entries. entries ≡ drop count self.now) }
    {
        Ok(Entries {
            alloc: self.alloc,
            list: same_list(&self.list)?,
            start: self.start + count,
            end: self.end,
        })
    }

    /// The entries with changes behind them, under the numbers from this one on. Where the list has one owner, the changes are
    /// put into it, in the place of what stands behind the entries; else it is copied first.
    pub(crate) fn appended(
        &mut self,
        first: u64,
        changes: Sequence<Change>,
    ) -> Result<Entries, AllocError>
        requires { first + length changes < 2 ^ 64 }
        ensures same { self.new ≡ self.old }
        ensures entries { IfOk result (λ entries. entries ≡ self.old ++ numbered first changes) }
        ensures slugs { IfOk result (λ _. HaveSlugs changes) }
    {
        let changes = numbered(self.alloc, first, changes)?;
        self.trim_front()?;
        self.extended(changes)
    }

    // Copies the entries into a list of their own, where the list has more changes before them.
    fn trim_front(&mut self) -> Result<(), AllocError>
        ensures { self.new ≡ self.old }
    {
        if self.start > self.end - self.start {
            *self = copies(self.alloc, self.as_slice())?;
        }
        Ok(())
    }

    // The entries with changes behind them.
    fn extended(&mut self, changes: Vec<Change>) -> Result<Entries, AllocError>
        ensures same { self.new ≡ self.old }
        ensures entries { IfOk result (λ entries. entries ≡ self.old ++ changes.items) }
    {
        let count = changes.len();
        put_behind(self.alloc, &mut self.list, self.end, changes)?;
        Ok(Entries {
            alloc: self.alloc,
            list: same_list(&self.list)?,
            start: self.start,
            end: self.end + count,
        })
    }
}

// The list with one more owner.
fn same_list(list: &Option<Rc<Vec<Change>>>) -> Result<Option<Rc<Vec<Change>>>, AllocError>
    ensures { IfOk result (λ same. shared_items same ≡ shared_items list.now) }
{
    match list {
        Some(list) => Ok(Some(list.clone()?)),
        None => Ok(None),
    }
}

// Puts changes behind the first `end` of the list, in the place of those that stand there. A list with further owners is copied
// first.
fn put_behind(
    alloc: Global,
    list: &mut Option<Rc<Vec<Change>>>,
    end: usize,
    changes: Vec<Change>,
) -> Result<(), AllocError>
    requires { end ≤ length (shared_items list.old) }
    ensures kept { take end (shared_items list.new) ≡ take end (shared_items list.old) }
    ensures put { OnOk result (shared_items list.new ≡ take end (shared_items list.old) ++ changes.items) }
{
    match list {
        Some(list) => put_into_shared(list, end, changes),
        None => {
            *list = Some(Rc::new(alloc, changes)?);
            Ok(())
        }
    }
}

fn put_into_shared(
    list: &mut Rc<Vec<Change>>,
    end: usize,
    changes: Vec<Change>,
) -> Result<(), AllocError>
    requires { end ≤ length list.old.value.items }
    ensures kept { take end list.new.value.items ≡ take end list.old.value.items }
    ensures put { OnOk result (list.new.value.items ≡ take end list.old.value.items ++ changes.items) }
{
    let own = Rc::make_mut(list)?;
    put_into_vec(own, end, changes)
}

fn put_into_vec(list: &mut Vec<Change>, end: usize, changes: Vec<Change>) -> Result<(), AllocError>
    requires { end ≤ length list.old.items }
    ensures kept { take end list.new.items ≡ take end list.old.items }
    ensures put { OnOk result (list.new.items ≡ take end list.old.items ++ changes.items) }
{
    let mut changes = changes;
    list.truncate(end);
    list.append(&mut changes)
}

// The changes in a list of their own.
fn copies(alloc: Global, changes: &[Change]) -> Result<Entries, AllocError>
    ensures { IfOk result (λ entries. entries ≡ changes.now) }
{
    Entries::from_vec(alloc, changes.to_vec(alloc)?)
}

// The changes with numbers from this one on.
fn numbered(alloc: Global, first: u64, changes: Sequence<Change>) -> Result<Vec<Change>, AllocError>
    requires { first + length changes < 2 ^ 64 }
    ensures changes { IfOk result (λ vec. vec.items ≡ numbered first changes) }
    ensures slugs { IfOk result (λ _. HaveSlugs changes) }
{
    let mut vec = Vec::with_capacity(alloc, changes.len())?;
    let mut number = first;
    for change in changes.into_vec() {
        push_change(&mut vec, number, change)?;
        number += 1;
    }
    Ok(vec)
}

// Adds a change under a number.
fn push_change(vec: &mut Vec<Change>, number: u64, change: Change) -> Result<(), AllocError>
    ensures changes { OnOk result (vec.new.items ≡ vec.old.items ++ record change { number = number } ∷ []) }
    ensures slugs { OnOk result (HasSlugs change) }
{
    let _slug = change.slug.text();
    let _branch = change.branch.text();
    vec.push(Change { number, ..change })?;
    Ok(())
}
