// Which of the two sides counts.
ghost use Rattle.std.specs.Prelude.{◌≡◌, List, ℕ, [], IsErrOf};
ghost use Rattle.gate_journal.specs.Records.{IsShut};
ghost use Rattle.pair_store.specs.Choice.{IsAnswer, IsFound};

use crate::faults::PairFault;
use crate::records::{Choice, Found, Records};
use crate::sides::follows;
use host_model::Side;

/// The side that counts of what is found on both.
pub(crate) fn chosen(left: Found, right: Found) -> Result<Choice, PairFault>
    ensures answer { (l r : List ℕ) → IsFound Side.Left l left → IsFound Side.Right r right → IsAnswer l r result }
    ensures no_fault { (IsErrOf result PairFault.DiskFault → ⊥) × (IsErrOf result PairFault.OutOfMemory → ⊥) }
{
    match left {
        Found::Open(records) => beside_open(records, right),
        Found::Shut => beside_shut(right),
        Found::Empty => beside_empty(right),
        Found::Damaged => Err(PairFault::BadStore),
    }
}

// The left side is open.
fn beside_open(left: Records, right: Found) -> Result<Choice, PairFault>
    ensures answer { (l r : List ℕ) → IsFound Side.Left l (Found.Open left) → IsFound Side.Right r right → IsAnswer l r result }
    ensures no_fault { (IsErrOf result PairFault.DiskFault → ⊥) × (IsErrOf result PairFault.OutOfMemory → ⊥) }
{
    match right {
        Found::Open(right) => later(left, right),
        Found::Shut => Ok(Choice {
            records: left,
            is_other_open: false,
        }),
        Found::Empty => Err(PairFault::BadStore),
        Found::Damaged => Err(PairFault::BadStore),
    }
}

// The left side is closed, with a byte.
fn beside_shut(right: Found) -> Result<Choice, PairFault>
    ensures answer { (l r : List ℕ) → IsShut l → IsFound Side.Right r right → IsAnswer l r result }
    ensures no_fault { (IsErrOf result PairFault.DiskFault → ⊥) × (IsErrOf result PairFault.OutOfMemory → ⊥) }
{
    match right {
        Found::Open(right) => Ok(Choice {
            records: right,
            is_other_open: false,
        }),
        Found::Shut => Err(PairFault::NoStore),
        Found::Empty => Err(PairFault::NoStore),
        Found::Damaged => Err(PairFault::BadStore),
    }
}

// The left side has no byte.
fn beside_empty(right: Found) -> Result<Choice, PairFault>
    ensures answer { (l r : List ℕ) → l ≡ [] → IsFound Side.Right r right → IsAnswer l r result }
    ensures no_fault { (IsErrOf result PairFault.DiskFault → ⊥) × (IsErrOf result PairFault.OutOfMemory → ⊥) }
{
    match right {
        Found::Open(_) => Err(PairFault::BadStore),
        Found::Shut => Err(PairFault::NoStore),
        Found::Empty => Err(PairFault::NoStore),
        Found::Damaged => Err(PairFault::BadStore),
    }
}

// Both sides are open: the one whose generation follows the other's counts.
fn later(left: Records, right: Records) -> Result<Choice, PairFault>
    ensures answer { (l r : List ℕ) → IsFound Side.Left l (Found.Open left) → IsFound Side.Right r (Found.Open right) → IsAnswer l r result }
    ensures no_fault { (IsErrOf result PairFault.DiskFault → ⊥) × (IsErrOf result PairFault.OutOfMemory → ⊥) }
{
    let of_left = left.journal.generation();
    let of_right = right.journal.generation();
    if follows(of_left, of_right) {
        Ok(Choice {
            records: left,
            is_other_open: true,
        })
    } else if follows(of_right, of_left) {
        Ok(Choice {
            records: right,
            is_other_open: true,
        })
    } else {
        Err(PairFault::BadStore)
    }
}
