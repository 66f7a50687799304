//! Changes and outboxes in words.
use change_outbox::{Change, ChangeKind, Outbox};
use row_tables::Found;

/// Adds the changes behind their numbers, with commas between them, or `none`.
pub(crate) fn add_changes(changes: &[Change], found: &mut Found) {
    for change in changes {
        found.between(", ");
        add_change(change, found);
    }
    found.none()
}

fn add_change(change: &Change, found: &mut Found) {
    found.displayed(&change.number);
    found.text(kind_text(change.kind));
    found.texts(&[change.slug.text(), " ", change.branch.text()]);
}

fn kind_text(kind: ChangeKind) -> &'static str {
    match kind {
        ChangeKind::Join => " join ",
        ChangeKind::Leave => " leave ",
    }
}

/// Adds the next number and the entries.
pub(crate) fn add_outbox(outbox: &Outbox, found: &mut Found) {
    found.text("next ");
    found.displayed(&outbox.next());
    add_entries(outbox.entries(), found)
}

fn add_entries(entries: &[Change], found: &mut Found) {
    if entries.is_empty() {
        found.text(", none");
        return;
    }
    add_changes(entries, found)
}
