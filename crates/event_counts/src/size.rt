// How many bytes the rows of counts take.
ghost use Rattle.std.specs.Prelude.{◌≡◌, ◌≤◌, ◌+◌, ◌*◌, length};
ghost use Rattle.std.specs.List.{AllByRecursion};
ghost use Rattle.row_batches.specs.Batch.{puts_text};
ghost use Rattle.event_counts.specs.Rows.{rows_of};
ghost use Rattle.event_counts.specs.Sound.{IsSoundName};
ghost use Rattle.sequences.specs.ListParts.{part_of_new, part_of_old};

use crate::counts::Counts;
use crate::shared_counts::SharedCounts;
use sequences::ListPart;

// The bytes of a put of a name's row beside the name: those that each put has, the tag, and the value.
const ROW: u128 = 736;

impl Counts {
    /// How many bytes the puts of the counts' rows have. They are counted without a text, and it takes no memory.
    pub fn size(&self) -> u128
        ensures size { result ≡ length (puts_text (rows_of self.now)) }
        ensures bound { result ≤ 52224 }
    {
        names_size(self.names())
    }

    /// How many bytes the puts of the rows of the part's names have, where these are the old counts.
    pub fn size_of_old(&self, part: ListPart) -> u128
        requires { part.start + part.removed ≤ length self.now }
        ensures size { result ≡ length (puts_text (rows_of (part_of_old part self.now))) }
        ensures bound { result ≤ 52224 }
    {
        names_size(self.part(part.start, part.removed))
    }

    /// How many bytes the puts of the rows of the part's names have, where these are the new counts.
    pub fn size_of_new(&self, part: ListPart) -> u128
        requires { part.start + part.added ≤ length self.now }
        ensures size { result ≡ length (puts_text (rows_of (part_of_new part self.now))) }
        ensures bound { result ≤ 52224 }
    {
        names_size(self.part(part.start, part.added))
    }
}

// The size of the rows of the counts of names.
fn names_size(names: &[SharedCounts]) -> u128
    requires count { length names.now ≤ 64 }
    requires each { AllByRecursion IsSoundName names.now }
    ensures size { result ≡ length (puts_text (rows_of names.now)) }
    ensures bound { result ≤ 816 * length names.now }
{
    let mut size: u128 = 0;
    for counts in names {
        size += ROW + counts.get().name.as_str().len() as u128;
    }
    size
}
