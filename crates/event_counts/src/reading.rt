// The counts of rows.
ghost use Rattle.std.specs.Prelude.{◌≡◌, ◌≤◌, ◌<◌, ◌↔◌, ◌+◌, ◌*◌, ◌^◌, ◌++◌, ℕ, List, codes, drop, length, map, take, IsTrue, IfOk, IfSome, IsNone, IsErrOf};
ghost use Rattle.std.specs.List.{AllByRecursion};
ghost use Rattle.plain_text.specs.Names.{is_name};
ghost use Rattle.event_counts.specs.Intervals.{entry_count};
ghost use Rattle.event_counts.specs.Rows.{count_bytes, list_bytes, moment_bytes, row_of, rows_of, value_of};
ghost use Rattle.event_counts.specs.Sound.{AreCounts, AreInOrder, HaveCounts, IsSound, IsSoundName};

use crate::counts::{Counts, MAX_NAMES};
use crate::fault::CountsFault;
use crate::interval::Interval;
use crate::name_counts::NameCounts;
use crate::ring::Ring;
use crate::rows::{TAG, VALUE_LEN};
use crate::shared_counts::SharedCounts;
use plain_text::{LAST_MOMENT, is_name};
use row_batches::StoreRow;
use sequences::{Sequence, SharedList, Text};
use std::alloc::{AllocError, Global};
use std::str;

/// The counts that have these rows. `NotCounts` comes exactly where no counts have them.
pub fn counts_of(alloc: Global, rows: &[StoreRow]) -> Result<Counts, CountsFault>
    ensures rows { IfOk result (λ c. rows_of c ≡ rows.now) }
    ensures sound { IfOk result IsSound }
    ensures not_counts { IsErrOf result CountsFault.NotCounts → (ns : List NameCounts) → IsSound ns → rows_of ns ≡ rows.now → ⊥ }
{
    if rows.len() > MAX_NAMES {
        return Err(CountsFault::NotCounts);
    }
    let names = names_of(alloc, rows)?;
    if !are_in_order(names.as_slice()) {
        return Err(CountsFault::NotCounts);
    }
    Ok(Counts {
        names: SharedList::from_sequence(alloc, Sequence::from_vec(names))?,
    })
}

// The counts of each name, of which these are the rows.
fn names_of(alloc: Global, rows: &[StoreRow]) -> Result<Vec<SharedCounts>, CountsFault>
    ensures rows { IfOk result (λ v. rows_of v.items ≡ rows.now) }
    ensures sound { IfOk result (λ v. AllByRecursion IsSoundName v.items) }
    ensures not_counts { IsErrOf result CountsFault.NotCounts → (ns : List NameCounts) → AllByRecursion IsSoundName ns → rows_of ns ≡ rows.now → ⊥ }
{
    let mut names = Vec::with_capacity(alloc, rows.len())?;
    for row in rows {
        names.push(SharedCounts::new(alloc, counts_of_row(alloc, row)?)?)?;
    }
    Ok(names)
}

// The counts of the name of which this is the row.
fn counts_of_row(alloc: Global, row: &StoreRow) -> Result<NameCounts, CountsFault>
    ensures row { IfOk result (λ n. row_of n ≡ row.now) }
    ensures sound { IfOk result IsSoundName }
    ensures not_counts { IsErrOf result CountsFault.NotCounts → (n : NameCounts) → IsSoundName n → row_of n ≡ row.now → ⊥ }
{
    let Some(name) = name_in(row.key.as_slice()) else {
        return Err(CountsFault::NotCounts);
    };
    let value = row.value.as_slice();
    if value.len() != VALUE_LEN {
        return Err(CountsFault::NotCounts);
    }
    let latest = moment_in(value);
    if latest > LAST_MOMENT {
        return Err(CountsFault::NotCounts);
    }
    Ok(counts_in(alloc, name, latest, value)?)
}

// The name in a key.
fn name_in(key: &[u8]) -> Option<&str>
    ensures key { IfSome result (λ name. codes "e" ++ name.now ≡ key.now) }
    ensures name { IfSome result (λ name. IsTrue (is_name name.now)) }
    ensures none { IsNone result → (name : List ℕ) → IsTrue (is_name name) → codes "e" ++ name ≡ key.now → ⊥ }
{
    match key {
        [TAG, name @ ..] if is_name(name) => str::from_utf8(name).ok(),
        _ => None,
    }
}

// The counts of a name that a value holds, whose latest moment is read.
fn counts_in(alloc: Global, name: &str, latest: u64, value: &[u8]) -> Result<NameCounts, AllocError>
    requires full { length value.now ≡ 728 }
    requires moment { moment_bytes latest ≡ take 8 value.now }
    ensures name { IfOk result (λ n. n.name ≡ name.now) }
    ensures latest { IfOk result (λ n. n.latest ≡ latest) }
    ensures value { IfOk result (λ n. value_of n ≡ value.now) }
    ensures lists { IfOk result HaveCounts }
{
    Ok(NameCounts {
        name: Text::new(alloc, name)?,
        latest,
        hours: ring_in(alloc, &value[8..296], Interval::Hours)?,
        days: ring_in(alloc, &value[296..520], Interval::Days)?,
        weeks: ring_in(alloc, &value[520..], Interval::Weeks)?,
    })
}

// The moment at the front.
fn moment_in(bytes: &[u8]) -> u64
    requires { 8 ≤ length bytes.now }
    ensures { moment_bytes result ≡ take 8 bytes.now }
{
    let mut number = [0; 8];
    number.copy_from_slice(&bytes[..8]);
    u64::from_be_bytes(number)
}

// The counts of an interval that the bytes are.
fn ring_in(alloc: Global, bytes: &[u8], interval: Interval) -> Result<Ring, AllocError>
    requires { length bytes.now ≡ 4 * entry_count interval }
    ensures bytes { IfOk result (λ r. list_bytes r ≡ bytes.now) }
    ensures counts { IfOk result (λ r. AreCounts interval r) }
{
    let counts = numbers_in(alloc, bytes, interval.entry_count())?;
    Ring::of_counts(alloc, counts.as_slice())
}

fn numbers_in(alloc: Global, bytes: &[u8], len: usize) -> Result<Vec<u32>, AllocError>
    requires { length bytes.now ≡ 4 * len }
    ensures bytes { IfOk result (λ v. list_bytes v.items ≡ bytes.now) }
    ensures full { IfOk result (λ v. length v.items ≡ len) }
    ensures room { IfOk result (λ v. AllByRecursion (λ n. n < 2 ^ 32) v.items) }
{
    let mut numbers = Vec::with_capacity(alloc, len)?;
    for place in 0..len {
        numbers.push(number_at(bytes, 4 * place))?;
    }
    Ok(numbers)
}

// The number that four bytes are.
fn number_at(bytes: &[u8], place: usize) -> u32
    requires { place + 4 ≤ length bytes.now }
    ensures bytes { count_bytes result ≡ take 4 (drop place bytes.now) }
    ensures room { result < 2 ^ 32 }
{
    let mut number = [0; 4];
    number.copy_from_slice(&bytes[place..place + 4]);
    u32::from_be_bytes(number)
}

// Whether each name is below those after it.
fn are_in_order(names: &[SharedCounts]) -> bool
    ensures { IsTrue result ↔ AreInOrder names.now }
{
    names.is_sorted_by(|first, second| first.get().name < second.get().name)
}
