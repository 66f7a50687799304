// How many bytes the rows of an outbox take.
ghost use Rattle.std.specs.Prelude.{◌≡◌, ◌≤◌, ◌<◌, ◌+◌, ◌*◌, ◌^◌, length, map};
ghost use Rattle.row_batches.specs.Batch.{puts_text};
ghost use Rattle.change_outbox.specs.Rows.{change_row, next_rows, rows_of};

use crate::change::Change;
use crate::outbox::Outbox;

// The bytes of a put of a change's row beside its slug and its branch: those that each put has, nine of the key, and two of the
// value.
const CHANGE: u128 = 18;

// The bytes of a put of the row of the next number.
const NEXT: u128 = 16;

impl Outbox {
    /// How many bytes the puts of the outbox's rows have. It takes no memory, and looks at no entry.
    pub fn size(&self) -> u128
        ensures size { result ≡ length (puts_text (rows_of self.now)) }
        ensures bound { result < 2 ^ 80 }
    {
        next_size(self.next()) + self.entries_size()
    }
}

// The size of the row of the next number.
#[tactic(auto, using(crate::proofs::RowSizes::one_size))]
fn next_size(next: u64) -> u128
    ensures size { result ≡ length (puts_text (next_rows next)) }
    ensures bound { result ≤ 16 }
{
    if next > 1 { NEXT } else { 0 }
}

/// The size of the rows of entries. They are counted without a text, and it takes no memory.
pub(crate) fn entries_size(entries: &[Change]) -> u128
    ensures size { result ≡ length (puts_text (map change_row entries.now)) }
    ensures bound { result ≤ 178 * length entries.now }
    ensures count { length entries.now < 2 ^ 64 }
{
    let mut size: u128 = 0;
    for entry in entries {
        size += CHANGE + entry.slug.text().len() as u128 + entry.branch.text().len() as u128;
    }
    size
}
