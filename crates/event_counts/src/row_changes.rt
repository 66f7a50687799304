// The changes from the rows of some counts to those of others.
ghost use Rattle.std.specs.Prelude.{◌≡◌, ◌≤◌, ◌+◌, ◌++◌, length, OnOk};
ghost use Rattle.row_batches.specs.Between.{changes_between};
ghost use Rattle.event_counts.specs.Rows.{rows_of};
ghost use Rattle.sequences.specs.ListParts.{part_of_new, part_of_old};

use crate::counts::Counts;
use crate::rows::CountRows;
use row_batches::{RowChange, add_changes};
use sequences::{ListPart, Sequence};
use std::alloc::{AllocError, Global};

impl Counts {
    /// Adds the changes that make the rows of the part's names of the next counts of those of its names of these ones, in the order of
    /// their keys: a put for each row that is new or differs, a delete for each that is gone, and nothing else. No other names are
    /// looked at, the part is walked once, and a row is made only where it changes.
    #[tactic(auto, using(row_batches::proofs::ItemWalks::all_are))]
    pub fn add_changes_in(
        &self,
        alloc: Global,
        changes: &mut Sequence<RowChange>,
        next: &Counts,
        part: ListPart,
    ) -> Result<(), AllocError>
        requires old_end { part.start + part.removed ≤ length self.now }
        requires new_end { part.start + part.added ≤ length next.now }
        ensures { OnOk result (changes.new ≡ changes.old ++ changes_between (rows_of (part_of_old part self.now)) (rows_of (part_of_new part next.now))) }
    {
        let olds = self.part(part.start, part.removed);
        let news = next.part(part.start, part.added);
        add_changes(alloc, changes, &CountRows, olds, news)
    }
}
