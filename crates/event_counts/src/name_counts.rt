// What is kept of a name.
ghost use Rattle.std.specs.Prelude.{◌≡◌, IfOk};
ghost use Rattle.event_counts.specs.Intervals.{turns};
ghost use Rattle.event_counts.specs.Kept.{at_moment, no_counts, with_more};

use crate::interval::Interval;
use crate::ring::Ring;
use sequences::Text;
use std::alloc::{AllocError, Global};

/// The counts of a name: the moment of its latest event, in seconds since 1970, and how often it came in each of the latest 72
/// hours, 56 days and 52 weeks of that moment, the newest first.
#[derive(Drop)]
pub struct NameCounts {
    pub(crate) name: Text,
    pub(crate) latest: u64,
    pub(crate) hours: Ring,
    pub(crate) days: Ring,
    pub(crate) weeks: Ring,
}

impl NameCounts {
    /// The counts of a name without events.
    pub(crate) fn new(alloc: Global, name: &str, moment: u64) -> Result<NameCounts, AllocError>
        ensures { IfOk result (λ n. n ≡ no_counts name.now moment) }
    {
        Ok(NameCounts {
            name: Text::new(alloc, name)?,
            latest: moment,
            hours: Ring::of_zeros(alloc, Interval::Hours.entry_count())?,
            days: Ring::of_zeros(alloc, Interval::Days.entry_count())?,
            weeks: Ring::of_zeros(alloc, Interval::Weeks.entry_count())?,
        })
    }

    /// The same counts once more.
    pub(crate) fn copy(&self, alloc: Global) -> Result<NameCounts, AllocError>
        ensures { IfOk result (λ n. n ≡ self.now) }
    {
        Ok(NameCounts {
            name: self.name.clone()?,
            latest: self.latest,
            hours: self.hours.copy(alloc)?,
            days: self.days.copy(alloc)?,
            weeks: self.weeks.copy(alloc)?,
        })
    }

    /// The counts at a moment.
    pub(crate) fn at_moment(&self, alloc: Global, moment: u64) -> Result<NameCounts, AllocError>
        ensures { IfOk result (λ n. n ≡ at_moment moment self.now) }
    {
        let mut counts = self.copy(alloc)?;
        counts.turn_to(moment);
        Ok(counts)
    }

    // Turns the rings to a moment.
    fn turn_to(&mut self, moment: u64)
        ensures { self.new ≡ at_moment moment self.old }
    {
        let latest = self.latest;
        self.hours.turn(turns(Interval::Hours, latest, moment));
        self.days.turn(turns(Interval::Days, latest, moment));
        self.weeks.turn(turns(Interval::Weeks, latest, moment));
        self.latest = moment;
    }

    /// Adds to the present hour, day and week.
    pub(crate) fn raise(&mut self, count: u32)
        ensures { self.new ≡ with_more count self.old }
    {
        self.hours.raise(count);
        self.days.raise(count);
        self.weeks.raise(count);
    }
}

// How many intervals begin after the first moment and not after the second.
#[tactic(auto, unfolding(crate::specs::Intervals::turns))]
fn turns(interval: Interval, first: u64, second: u64) -> u64
    ensures { result ≡ turns interval first second }
{
    let seconds = interval.seconds();
    (second / seconds).saturating_sub(first / seconds)
}
