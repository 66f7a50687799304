// The changes that one list of enrolment rows makes of another.
ghost use Rattle.std.specs.Prelude.{◌≡◌, ◌++◌, ◌∷◌, [], length, IfOk, OnOk, option_map};
ghost use Rattle.enrol_states.specs.Order.{Rise};
ghost use Rattle.enrol_states.specs.State.{slugs_of};
ghost use Rattle.change_outbox.specs.Changes.{changes_between, slug_changes};
ghost use Rattle.change_outbox.specs.Contents.{numbered};

use crate::change::{Change, ChangeKind};
use crate::walking::next_step;
use enrol_states::Row;
use plain_text::Slug;
use sequences::Sequence;
use std::alloc::{AllocError, Global};

/// The changes from the old rows to the new ones, numbered from 0, in order by slug: where the client took part in a branch and no
/// longer does, a leave of it, and then, where it takes part in a branch and didn't before, a join of that one. Both lists of
/// rows are walked once.
pub fn changes_of(alloc: Global, old: &[Row], new: &[Row]) -> Result<Sequence<Change>, AllocError>
    requires old_rows { Rise (slugs_of old.now) }
    requires new_rows { Rise (slugs_of new.now) }
    ensures { IfOk result (λ changes. changes ≡ numbered 0 (changes_between old.now new.now)) }
{
    let mut changes = Sequence::new(alloc);
    let mut olds = old;
    let mut news = new;
    while let Some(step) = next_step(olds, news) {
        add_slug_changes(&mut changes, step.slug, step.before, step.after)?;
        olds = step.olds;
        news = step.news;
    }
    Ok(changes)
}

// Adds the changes of a slug, by its branch before and after, under the next numbers.
fn add_slug_changes(
    changes: &mut Sequence<Change>,
    slug: &Slug,
    before: Option<&Slug>,
    after: Option<&Slug>,
) -> Result<(), AllocError>
    ensures { OnOk result (changes.new ≡ changes.old ++ numbered (length changes.old) (slug_changes slug.now (option_map (λ b. b.now) before.entry) (option_map (λ b. b.now) after.entry))) }
{
    match (before, after) {
        (None, None) => Ok(()),
        (None, Some(joined)) => add_change(changes, slug, ChangeKind::Join, joined),
        (Some(left), None) => add_change(changes, slug, ChangeKind::Leave, left),
        (Some(left), Some(joined)) => {
            if left == joined {
                return Ok(());
            }
            add_change(changes, slug, ChangeKind::Leave, left)?;
            add_change(changes, slug, ChangeKind::Join, joined)
        }
    }
}

// Adds one change, under the next number.
fn add_change(
    changes: &mut Sequence<Change>,
    slug: &Slug,
    kind: ChangeKind,
    branch: &Slug,
) -> Result<(), AllocError>
    ensures { OnOk result (changes.new ≡ changes.old ++ record { number = length changes.old; slug = slug.now; kind = kind; branch = branch.now } ∷ []) }
{
    let number = changes.len() as u64;
    changes.push(Change {
        number,
        slug: slug.clone()?,
        kind,
        branch: branch.clone()?,
    })
}
