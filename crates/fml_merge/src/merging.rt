// Entries that are gone through in order by name.
ghost use Rattle.std.specs.Prelude.{◌≡◌, [], ◌++◌, map, IfOk, OnOk};
ghost use Rattle.std.specs.Option.{option_to_list};
ghost use Rattle.fml_types.specs.Named.{AreRising};
ghost use Rattle.fml_value.specs.TypedOf.{entry_of};
ghost use Rattle.fml_merge.specs.Merging.{merged_in, left_in, is_below, is_named, lower, upper, named, unnamed};

use fml_value::{Entries, Value};
use sequences::Text;
use std::alloc::{AllocError, Global};
use std::collections::VecDeque;

/// The entries of a map or an object that are merged already, and those that are left.
#[derive(Drop)]
pub(crate) struct Merge {
    merged: Vec<(Text, Value)>,
    left: VecDeque<(Text, Value)>,
}

impl Merge {
    /// All entries are left.
    pub(crate) fn new(alloc: Global, entries: Entries) -> Merge
        ensures merged { merged_in result ≡ [] }
        ensures left { left_in result ≡ entries }
        ensures rising { AreRising entries }
    {
        Merge {
            merged: Vec::new(alloc),
            left: VecDeque::from_vec(entries.into_vec()),
        }
    }

    /// Merges the entries below the name as they are, and takes the next one where it has the name.
    pub(crate) fn take(&mut self, name: &str) -> Result<Option<(Text, Value)>, AllocError>
        ensures merged { OnOk result (merged_in self.new ≡ merged_in self.old ++ lower name.now (left_in self.old)) }
        ensures left { OnOk result (left_in self.new ≡ unnamed name.now (upper name.now (left_in self.old))) }
        ensures taken { IfOk result (λ entry. map entry_of (option_to_list entry) ≡ named name.now (upper name.now (left_in self.old))) }
    {
        move_below(&mut self.left, name, &mut self.merged)?;
        Ok(take_named(&mut self.left, name))
    }

    /// Merges an entry, where there is one.
    pub(crate) fn push(&mut self, entry: Option<(Text, Value)>) -> Result<(), AllocError>
        ensures merged { OnOk result (merged_in self.new ≡ merged_in self.old ++ map entry_of (option_to_list entry)) }
        ensures left { OnOk result (left_in self.new ≡ left_in self.old) }
    {
        push_some(&mut self.merged, entry)
    }

    /// The merged entries, and behind them those that are left.
    pub(crate) fn finish(self) -> Result<Entries, AllocError>
        requires { AreRising (merged_in self ++ left_in self) }
        ensures { IfOk result (λ es. es ≡ merged_in self ++ left_in self) }
    {
        let mut entries = self.merged;
        let mut left = self.left.into_vec();
        entries.append(&mut left)?;
        Ok(Entries::from_vec(entries))
    }
}

// Moves the entries below the name to the end of the others.
fn move_below(
    left: &mut VecDeque<(Text, Value)>,
    name: &str,
    merged: &mut Vec<(Text, Value)>,
) -> Result<(), AllocError>
    ensures merged { OnOk result (merged.new.items ≡ merged.old.items ++ lower name.now left.old.items) }
    ensures left { OnOk result (left.new.items ≡ upper name.now left.old.items) }
{
    while is_below(left, name) {
        if let Some(entry) = left.pop_front() {
            merged.push(entry)?;
        }
    }
    Ok(())
}

// Whether the first entry is below the name.
fn is_below(entries: &VecDeque<(Text, Value)>, name: &str) -> bool
    ensures { result ≡ is_below name.now entries.now.items }
{
    match entries.front() {
        Some(entry) => entry.0.as_str() < name,
        None => false,
    }
}

// Whether the first entry has the name.
fn is_named(entries: &VecDeque<(Text, Value)>, name: &str) -> bool
    ensures { result ≡ is_named name.now entries.now.items }
{
    match entries.front() {
        Some(entry) => entry.0.as_str() == name,
        None => false,
    }
}

// Takes the first entry where it has the name.
fn take_named(left: &mut VecDeque<(Text, Value)>, name: &str) -> Option<(Text, Value)>
    ensures taken { option_to_list result ≡ named name.now left.old.items }
    ensures left { left.new.items ≡ unnamed name.now left.old.items }
{
    if is_named(left, name) {
        left.pop_front()
    } else {
        None
    }
}

// Puts an entry, where there is one, at the end of the others.
fn push_some(
    entries: &mut Vec<(Text, Value)>,
    entry: Option<(Text, Value)>,
) -> Result<(), AllocError>
    ensures { OnOk result (entries.new.items ≡ entries.old.items ++ option_to_list entry) }
{
    if let Some(entry) = entry {
        entries.push(entry)?;
    }
    Ok(())
}
