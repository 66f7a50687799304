// The outbox: numbered changes that a host application hasn't confirmed yet.
ghost use Rattle.std.specs.Prelude.{◌≡◌, ◌≤◌, ◌<◌, ◌+◌, ◌*◌, ◌^◌, ◌↔◌, ℕ, length, map, IfOk, IsErrOf};
ghost use Rattle.row_batches.specs.Batch.{puts_text};
ghost use Rattle.change_outbox.specs.Contents.{IsSound, appended, confirmed, last_number, no_changes};
ghost use Rattle.change_outbox.specs.Rows.{change_row};

use crate::change::Change;
use crate::entries::Entries;
use crate::fault::{AppendChangesFault, ConfirmFault};
use crate::size::entries_size;
use sequences::{ExactClone, Sequence};
use std::alloc::{AllocError, Global};
use std::marker::Model;

/// The greatest next number.
pub const LAST_NUMBER: u64 = 9_223_372_036_854_775_807;

/// The changes that a host application hasn't confirmed yet. Their numbers rise by one, from 1 in a new store, and are never
/// given twice. Contracts see the next number and the entries. A clone shares the entries, and so does
/// the outbox that an append or a confirmation makes.
#[derive(Drop)]
pub struct Outbox {
    next: u64,
    entries: Entries,
    // How many bytes the puts of the entries' rows have.
    size: u128,
}

impl Model for Outbox {
    ghost use Rattle.change_outbox.specs.Contents.{Contents};
    ghost use Rattle.change_outbox.specs.Sizes.{IsSizedOutbox};

    ghost Value = { Contents };

    ghost view = { λ o. record { next = o.next; entries = o.entries } };

    ghost invariant = { λ o. IsSizedOutbox (record { next = o.next; entries = o.entries }) o.size };
}

/// The same outbox. It takes no memory.
impl Clone for Outbox {
    ghost is_clone = { λ o p. p ≡ o };

    fn clone(&self) -> Result<Outbox, AllocError> {
        Ok(Outbox {
            next: self.next,
            entries: self.entries.clone()?,
            size: self.size,
        })
    }
}

impl ExactClone for Outbox {
    ghost exact = { λ o p same. same };
}

impl Outbox {
    /// The outbox of a new store. It takes no memory.
    pub fn new(alloc: Global) -> Outbox
        ensures { result ≡ no_changes }
    {
        Outbox {
            next: 1,
            entries: Entries::new(alloc),
            size: 0,
        }
    }

    /// The number that the next change gets: 1 to 9,223,372,036,854,775,807. It takes no memory.
    pub fn next(&self) -> u64
        ensures next { result ≡ self.now.next }
        ensures sound { IsSound self.now }
    {
        self.next
    }

    /// The changes that aren't confirmed, in order by number. It takes no memory.
    pub fn entries(&self) -> &[Change]
        ensures entries { result.now ≡ self.now.entries }
        ensures sound { IsSound self.now }
    {
        self.entries.as_slice()
    }

    /// The changes that aren't confirmed, in order by number, as a list that is shared. It takes no memory.
    pub fn shared_entries(&self) -> Result<Entries, AllocError>
        ensures { IfOk result (λ entries. entries ≡ self.now.entries) }
    {
        self.entries.clone()
    }

    /// How many bytes the puts of the entries' rows have. It takes no memory.
    pub(crate) fn entries_size(&self) -> u128
        ensures size { result ≡ length (puts_text (map change_row self.now.entries)) }
        ensures bound { result ≤ 178 * length self.now.entries }
        ensures count { length self.now.entries < 2 ^ 64 }
    {
        self.size
    }

    /// The outbox with the changes behind its entries, under the next numbers; the numbers that they had don't matter. This one
    /// stays the same. `ChangesSpent` comes exactly where the next number would pass 9,223,372,036,854,775,807. Entries are copied
    /// only where a further outbox shares them, or where more of them were confirmed than are left.
    pub fn append(&mut self, changes: Sequence<Change>) -> Result<Outbox, AppendChangesFault>
        ensures same { self.new ≡ self.old }
        ensures ok { IfOk result (λ outbox. outbox ≡ appended changes self.old) }
        ensures spent { IsErrOf result AppendChangesFault.ChangesSpent ↔ (last_number < self.old.next + length changes) }
    {
        let next = self.next;
        let count = changes.len() as u64;
        if count > LAST_NUMBER - next {
            return Err(AppendChangesFault::ChangesSpent);
        }
        let size = self.entries_size() + entries_size(changes.as_slice());
        let entries = self.entries.appended(next, changes)?;
        Ok(Outbox {
            next: next + count,
            entries,
            size,
        })
    }

    /// The outbox without the entries up to the number; where they were confirmed already it is the same. `NoSuchChange` comes
    /// exactly where no change has the number yet, and says the next number. It takes no memory, and only the entries up to the
    /// number are looked at.
    pub fn confirm(&self, number: u64) -> Result<Outbox, ConfirmFault>
        ensures ok { IfOk result (λ outbox. outbox ≡ confirmed number self.now) }
        ensures none { (next : ℕ) → IsErrOf result (ConfirmFault.NoSuchChange next) ↔ ((next ≡ self.now.next) × (self.now.next ≤ number)) }
    {
        let next = self.next();
        if number >= next {
            return Err(ConfirmFault::NoSuchChange(next));
        }
        let left = next - 1 - number;
        let count = self.entries().len();
        if left >= count as u64 {
            return Ok(self.clone()?);
        }
        let gone = count - left as usize;
        Ok(Outbox {
            next,
            entries: self.entries.without_first(gone)?,
            size: self.entries_size() - entries_size(&self.entries()[..gone]),
        })
    }

    /// The outbox of this next number and these entries.
    pub(crate) fn of_entries(
        alloc: Global,
        next: u64,
        entries: Vec<Change>,
    ) -> Result<Outbox, AllocError>
        requires { IsSound (record { next = next; entries = entries.items }) }
        ensures { IfOk result (λ outbox. outbox ≡ record { next = next; entries = entries.items }) }
    {
        let size = entries_size(&entries);
        Ok(Outbox {
            next,
            entries: Entries::from_vec(alloc, entries)?,
            size,
        })
    }
}
