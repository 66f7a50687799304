// How an event is counted.
ghost use Rattle.std.specs.Prelude.{◌≡◌, ◌≤◌, ◌<◌, ◌↔◌, length, None, IfOk, IsErrOf, IsTrue, slice_set};
ghost use Rattle.std.specs.List.{insert};
ghost use Rattle.plain_text.specs.Names.{is_name};
ghost use Rattle.event_counts.specs.Kept.{at_moment, counted_in, found, moment_at, with_more, no_counts};
ghost use Rattle.event_counts.specs.Sound.{IsSound};
ghost use Rattle.sequences.specs.ListParts.{IsPart};

use crate::counted_event::CountedEvent;
use crate::counts::{Counts, MAX_NAMES};
use crate::fault::CountFault;
use crate::name_counts::NameCounts;
use crate::searching::place_of;
use crate::shared_counts::SharedCounts;
use sequences::{ListPart, SharedList};
use std::alloc::{AllocError, Global};

impl Counts {
    /// The counts after an event of this name, which came so many times, and the part of the names that has this one alone. Its moment
    /// is the greatest of `now` and the latest moments, so time never goes back; moments are in seconds since 1970, up to the end of
    /// the year 9999. Each count stops at 4,294,967,295. `EventLimit` comes exactly where the name is new and 64 names are there.
    pub fn count_in(
        &self,
        alloc: Global,
        name: &str,
        count: u32,
        now: u64,
    ) -> Result<CountedEvent, CountFault>
        requires name { IsTrue (is_name name.now) }
        requires moment { now ≤ 253402300799 }
        ensures counts { IfOk result (λ c. c.counts ≡ counted_in name.now count now self.now) }
        ensures sound { IfOk result (λ c. IsSound c.counts) }
        ensures part { IfOk result (λ c. IsPart c.part self.now c.counts) }
        ensures limit { IsErrOf result CountFault.EventLimit ↔ ((found name.now self.now ≡ None) × (64 ≤ length self.now)) }
    {
        let names = self.names();
        let moment = moment_at(names, now);
        match place_of(names, name) {
            Ok(place) => {
                let more = counted(alloc, &names[place], count, moment)?;
                Ok(CountedEvent {
                    counts: Counts {
                        names: self.with_replaced(place, more)?,
                    },
                    part: ListPart::replacement(place),
                })
            }
            Err(_) if names.len() >= MAX_NAMES => Err(CountFault::EventLimit),
            Err(place) => {
                let first = first_counted(alloc, name, count, moment)?;
                Ok(CountedEvent {
                    counts: Counts {
                        names: self.with_inserted(place, first)?,
                    },
                    part: ListPart::insertion(place),
                })
            }
        }
    }

    // The counts, of which those at a place are these. The others are shared.
    fn with_replaced(
        &self,
        place: usize,
        counts: SharedCounts,
    ) -> Result<SharedList<SharedCounts>, AllocError>
        requires { place < length self.now }
        ensures { IfOk result (λ names. names ≡ slice_set self.now place counts) }
    {
        let mut names = self.names.clone()?;
        names.replace(place, counts)?;
        Ok(names)
    }

    // The counts, with these before those at a place. The others are shared.
    fn with_inserted(
        &self,
        place: usize,
        counts: SharedCounts,
    ) -> Result<SharedList<SharedCounts>, AllocError>
        requires { place ≤ length self.now }
        ensures { IfOk result (λ names. names ≡ insert self.now place counts) }
    {
        let mut names = self.names.clone()?;
        names.insert(place, counts)?;
        Ok(names)
    }
}

/// The greatest of a moment and the latest moments.
pub(crate) fn moment_at(names: &[SharedCounts], now: u64) -> u64
    ensures { result ≡ moment_at now names.now }
{
    let mut moment = now;
    for counts in names {
        moment = moment.max(counts.get().latest);
    }
    moment
}

// The counts of a name after an event of it at a moment.
fn counted(
    alloc: Global,
    counts: &SharedCounts,
    count: u32,
    moment: u64,
) -> Result<SharedCounts, AllocError>
    ensures { IfOk result (λ n. n ≡ with_more count (at_moment moment counts.now)) }
{
    let mut more = counts.get().at_moment(alloc, moment)?;
    more.raise(count);
    SharedCounts::new(alloc, more)
}

// The counts of a name after its first event, at a moment.
fn first_counted(
    alloc: Global,
    name: &str,
    count: u32,
    moment: u64,
) -> Result<SharedCounts, AllocError>
    ensures { IfOk result (λ n. n ≡ with_more count (no_counts name.now moment)) }
{
    let mut first = NameCounts::new(alloc, name, moment)?;
    first.raise(count);
    SharedCounts::new(alloc, first)
}
