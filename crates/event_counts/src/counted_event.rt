// What counting an event makes.
use crate::counts::Counts;
use sequences::ListPart;

/// The counts after an event, and where they may differ from those of before.
#[derive(Drop)]
pub struct CountedEvent {
    pub counts: Counts,
    /// The part of the names that has the event's name alone. The counts of all other names are as before.
    pub part: ListPart,
}
