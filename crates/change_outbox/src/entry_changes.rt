// The changes from the rows of one outbox to those of another that is made of it.
ghost use Rattle.std.specs.Prelude.{◌≡◌, ◌≤◌, ◌-◌, ◌++◌, length, take, drop, IfOk, OnOk};
ghost use Rattle.row_batches.specs.Between.{changes_between};
ghost use Rattle.change_outbox.specs.Contents.{IsMadeOf};
ghost use Rattle.change_outbox.specs.Rows.{entry_rows, next_rows, rows_of};

use crate::outbox::Outbox;
use crate::rows::{EntryRows, next_row};
use row_batches::{RowChange, add_changes};
use sequences::Sequence;
use std::alloc::{AllocError, Global};

impl Outbox {
    /// Adds the changes that make the rows of the next outbox of this one's, in the order of their keys: a put for each row that is
    /// new or differs, a delete for each that is gone, and nothing else. The next one is made of this one by a confirmation and an
    /// append, and only the entries that these take away and add are looked at.
    #[tactic(auto, using(crate::proofs::RowsOfNext::joined, row_batches::proofs::ItemWalks::all_fit))]
    pub fn add_changes_to(
        &self,
        alloc: Global,
        changes: &mut Sequence<RowChange>,
        next: &Outbox,
    ) -> Result<(), AllocError>
        requires { IsMadeOf self.now next.now }
        ensures { OnOk result (changes.new ≡ changes.old ++ changes_between (rows_of self.now) (rows_of next.now)) }
    {
        let kept = self.kept_in(next);
        let gone = self.entries().len() - kept;
        add_next_changes(alloc, changes, self.next(), next.next())?;
        add_changes(
            alloc,
            changes,
            &EntryRows,
            &self.entries()[..gone],
            &next.entries()[kept..],
        )
    }

    // How many entries the next outbox has of this one: the last ones here, and the first ones there.
    fn kept_in(&self, next: &Outbox) -> usize
        requires { IsMadeOf self.now next.now }
        ensures old_entries { result ≤ length self.now.entries }
        ensures new_entries { result ≤ length next.now.entries }
        ensures rows { changes_between (entry_rows (take (length self.now.entries - result) self.now.entries)) (entry_rows (drop result next.now.entries))
            ≡ changes_between (entry_rows self.now.entries) (entry_rows next.now.entries) }
    {
        let added = next.next() - self.next();
        next.entries().len() - added as usize
    }
}

// Adds the change of the row of the next number.
#[tactic(auto, using(crate::proofs::RowsOfNext::next_new, crate::proofs::RowsOfNext::next_gone, crate::proofs::RowsOfNext::next_none, crate::proofs::RowsOfNext::next_same, crate::proofs::RowsOfNext::next_differs))]
fn add_next_changes(
    alloc: Global,
    changes: &mut Sequence<RowChange>,
    old: u64,
    new: u64,
) -> Result<(), AllocError>
    ensures { OnOk result (changes.new ≡ changes.old ++ changes_between (next_rows old) (next_rows new)) }
{
    if new > 1 {
        if old != new {
            changes.push(RowChange::Put(next_row(alloc, new)?))?;
        }
    } else if old > 1 {
        changes.push(RowChange::Delete(next_row(alloc, old)?.key))?;
    }
    Ok(())
}
