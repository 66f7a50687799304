// The changes from the rows of some preferences to those of others.
ghost use Rattle.std.specs.Prelude.{◌≡◌, ◌≤◌, ◌+◌, ◌++◌, length, OnOk};
ghost use Rattle.row_batches.specs.Between.{changes_between};
ghost use Rattle.pref_bindings.specs.Rows.{hold_rows, value_rows};
ghost use Rattle.sequences.specs.ListParts.{part_of_new, part_of_old};

use crate::prefs::Prefs;
use crate::row_forms::{HoldRows, ValueRows};
use row_batches::{RowChange, add_changes};
use sequences::{ListPart, Sequence};
use std::alloc::{AllocError, Global};

impl Prefs {
    /// Adds the changes that make the rows of holds of the part of the next preferences of those of its part of these ones, in the order
    /// of their keys: a put for each row that is new or differs, a delete for each that is gone, and nothing else. No other
    /// preferences are looked at, the part is walked once, and a row is made only where it changes.
    #[tactic(auto, using(row_batches::proofs::ItemWalks::all_are))]
    pub fn add_hold_changes_in(
        &self,
        alloc: Global,
        changes: &mut Sequence<RowChange>,
        next: &Prefs,
        part: ListPart,
    ) -> Result<(), AllocError>
        requires old_end { part.start + part.removed ≤ length self.now }
        requires new_end { part.start + part.added ≤ length next.now }
        ensures { OnOk result (changes.new ≡ changes.old ++ changes_between (hold_rows (part_of_old part self.now)) (hold_rows (part_of_new part next.now))) }
    {
        let olds = self.part(part.start, part.removed);
        let news = next.part(part.start, part.added);
        add_changes(alloc, changes, &HoldRows, olds, news)
    }

    /// Adds the changes of the rows of values, as those of the rows of holds.
    #[tactic(auto, using(row_batches::proofs::ItemWalks::all_are))]
    pub fn add_value_changes_in(
        &self,
        alloc: Global,
        changes: &mut Sequence<RowChange>,
        next: &Prefs,
        part: ListPart,
    ) -> Result<(), AllocError>
        requires old_end { part.start + part.removed ≤ length self.now }
        requires new_end { part.start + part.added ≤ length next.now }
        ensures { OnOk result (changes.new ≡ changes.old ++ changes_between (value_rows (part_of_old part self.now)) (value_rows (part_of_new part next.now))) }
    {
        let olds = self.part(part.start, part.removed);
        let news = next.part(part.start, part.added);
        add_changes(alloc, changes, &ValueRows, olds, news)
    }
}
