// A walk over old and new rows, slug by slug.
ghost use Rattle.std.specs.Prelude.{◌≡◌, ◌∷◌, [], IfSome, IsNone, option_map};
ghost use Rattle.std.specs.declared.cmp.Ordering.TheVariants.{Equal};
ghost use Rattle.recipe_reader.specs.Payloads.{slug_cmp};
ghost use Rattle.enrol_states.specs.Order.{AreAbove};
ghost use Rattle.enrol_states.specs.State.{slugs_of};
ghost use Rattle.enrol_states.specs.Statuses.{enrolled_branch};
ghost use Rattle.change_outbox.specs.Changes.{changes_between};
ghost use Rattle.change_outbox.specs.Walking.{AreInOrder, IsStep};

use enrol_states::{Row, Status};
use plain_text::Slug;
use std::cmp::Ordering;

/// One slug with its branches before and after, and the rows that are left.
#[derive(Clone, Copy, Drop)]
pub(crate) struct Step<'a> {
    pub slug: &'a Slug,
    pub before: Option<&'a Slug>,
    pub after: Option<&'a Slug>,
    pub olds: &'a [Row],
    pub news: &'a [Row],
}

/// The step of the least slug of the rows, where one is left.
pub(crate) fn next_step<'a>(olds: &'a [Row], news: &'a [Row]) -> Option<Step<'a>>
    requires { AreInOrder olds.now news.now }
    ensures step { IfSome result (IsStep olds.now news.now) }
    ensures end { IsNone result → changes_between olds.now news.now ≡ [] }
{
    match (olds, news) {
        ([], []) => None,
        ([old, olds @ ..], []) => Some(step_of_old(old, olds, news)),
        ([], [new, news @ ..]) => Some(step_of_new(new, olds, news)),
        ([old, olds_behind @ ..], [new, news_behind @ ..]) => match old.slug.cmp(&new.slug) {
            Ordering::Less => Some(step_of_old(old, olds_behind, news)),
            Ordering::Equal => Some(step_of_both(old, new, olds_behind, news_behind)),
            Ordering::Greater => Some(step_of_new(new, olds, news_behind)),
        },
    }
}

// The step of an old row whose slug is below those of all new rows.
fn step_of_old<'a>(old: &'a Row, olds: &'a [Row], news: &'a [Row]) -> Step<'a>
    requires order { AreInOrder (old.now ∷ olds.now) news.now }
    requires least { AreAbove old.now.slug (slugs_of news.now) }
    ensures { IsStep (old.now ∷ olds.now) news.now result }
{
    Step {
        slug: &old.slug,
        before: branch_of(&old.status),
        after: None,
        olds,
        news,
    }
}

// The step of a new row whose slug is below those of all old rows.
fn step_of_new<'a>(new: &'a Row, olds: &'a [Row], news: &'a [Row]) -> Step<'a>
    requires order { AreInOrder olds.now (new.now ∷ news.now) }
    requires least { AreAbove new.now.slug (slugs_of olds.now) }
    ensures { IsStep olds.now (new.now ∷ news.now) result }
{
    Step {
        slug: &new.slug,
        before: None,
        after: branch_of(&new.status),
        olds,
        news,
    }
}

// The step of an old and a new row of one slug.
fn step_of_both<'a>(old: &'a Row, new: &'a Row, olds: &'a [Row], news: &'a [Row]) -> Step<'a>
    requires order { AreInOrder (old.now ∷ olds.now) (new.now ∷ news.now) }
    requires same { slug_cmp old.now.slug new.now.slug ≡ Equal }
    ensures { IsStep (old.now ∷ olds.now) (new.now ∷ news.now) result }
{
    Step {
        slug: &old.slug,
        before: branch_of(&old.status),
        after: branch_of(&new.status),
        olds,
        news,
    }
}

// The branch in which the client takes part, if it does.
fn branch_of(status: &Status) -> Option<&Slug>
    ensures { option_map (λ branch. branch.now) result ≡ enrolled_branch status.now }
{
    match status {
        Status::Enrolled { branch, .. } => Some(branch),
        _ => None,
    }
}
