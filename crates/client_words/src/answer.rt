// What a command is answered.
use crate::refusal::Refusal;
use change_outbox::Entries;
use enrol_states::Row;
use json_tree::Tree;
use plain_text::Slug;
use pref_bindings::Prefs;
use recipe_reader::SkipReason;
use sequences::{Sequence, SharedList};
use uuid::Uuid;

/// What a command is answered.
#[derive(Drop)]
pub enum Answer {
    /// The command is done.
    Okay,
    /// A payload was fetched: how many of its recipes were kept, and the index of each record that was skipped, from
    /// 0, with the reason.
    Fetched {
        kept: u32,
        skipped: Sequence<(u32, SkipReason)>,
    },
    /// Enrolments have followed the recipes: in how many the client is enrolled, and how many rows there are.
    Applied {
        enrolled: usize,
        rows: usize,
    },
    /// The tree of the value that a feature has.
    Value(Tree),
    /// The state.
    Shown {
        id: Uuid,
        /// Whether the client takes part in experiments.
        experiments: bool,
        /// Whether the client takes part in rollouts.
        rollouts: bool,
        /// Whether recipes are pending.
        pending: bool,
        opted_out: SharedList<Slug>,
        rows: SharedList<Row>,
    },
    /// The tree of the manifest as a single file.
    Manifest(Tree),
    /// The changes of enrolments that aren't confirmed, in order by number.
    Changes(Entries),
    /// The preferences that have a value, in order by name.
    Preferences(Prefs),
    /// The command is refused, which changes nothing.
    Refused(Refusal),
}
