// Which wishes are granted: one pass over them by rank, with the features that are held.
ghost use Rattle.std.specs.Prelude.{◌≡◌, ◌||◌, ◌&&◌, ℕ, List, not, IfOk};
ghost use Rattle.recipe_reader.specs.Kinds.{kind_eq};
ghost use Rattle.enrol_states.specs.Order.{is_in};
ghost use Rattle.enrol_states.specs.TextSets.{has_text};
ghost use Rattle.enrol_conflicts.specs.Settlement.{Settled, GrantsAreExclusive, HaveOwnSlugs};
ghost use Rattle.enrol_conflicts.specs.Held.{is_held, is_taken};

use crate::Candidate;
use crate::held::HeldFeatures;
use crate::names::set_of;
use crate::rank::ranked;
use recipe_reader::Kind;
use sequences::{Sequence, Text};
use std::alloc::{AllocError, Global};
use std::collections::BTreeSet;

/// For each candidate whether its wish is granted: exactly where no granted wish of lower rank and
/// of the same kind shares with it a feature that isn't among the `coenrolling`. Lower ranks come
/// first: who was enrolled already, then who was published earlier (an absent moment is the
/// earliest), then the lower slug. The one error is want of memory.
pub fn settle<'a>(
    alloc: Global,
    candidates: &'a [Candidate],
    coenrolling: &'a [Text],
) -> Result<Sequence<bool>, AllocError>
    requires { HaveOwnSlugs candidates.now }
    ensures settled { IfOk result (λ granted. Settled candidates.now coenrolling.now granted) }
    ensures exclusive { IfOk result (λ granted. GrantsAreExclusive candidates.now coenrolling.now granted) }
{
    let shared = set_of(alloc, coenrolling)?;
    let ranked = ranked(alloc, candidates)?;
    let order = ranked.as_slice();
    let mut granted = Vec::from_elem(alloc, false, candidates.len())?;
    let mut held = HeldFeatures::new(alloc);
    for place in order {
        let is_free = grant_if_free(&mut held, &shared, &candidates[*place])?;
        granted[*place] = is_free;
    }
    Ok(Sequence::from_vec(granted))
}

/// Grants the wish if none of its features is taken.
fn grant_if_free<'a>(
    held: &mut HeldFeatures<'a>,
    shared: &BTreeSet<&'a str>,
    wish: &'a Candidate,
) -> Result<bool, AllocError>
    ensures answer { IfOk result (λ b. b ≡ not (is_taken held.old wish.now)) }
    ensures held { IfOk result (λ b. (kind : Kind) (f : List ℕ) → is_held held.new kind f ≡ (is_held held.old kind f || (b && (kind_eq wish.now.kind kind && (is_in wish.now.features f && not (has_text shared.now f)))))) }
{
    if held.are_taken_from(wish) {
        return Ok(false);
    }
    held.add(wish, shared)?;
    Ok(true)
}
