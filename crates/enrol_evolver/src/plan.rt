// What follows from the verdicts of an apply, before the wishes are settled.
ghost use Rattle.std.specs.Prelude.{◌≡◌, ◌++◌, ◌∷◌, [], map, IfOk, OnOk, if◌then◌else◌};
ghost use Rattle.recipe_reader.specs.Payloads.{AreValid};
ghost use Rattle.recipe_reader.specs.Records.{IsValid};
ghost use Rattle.enrol_evolver.specs.Clients.{of_client, IsInOrder, IsReadyFor};
ghost use Rattle.enrol_evolver.specs.Wishes.{candidate_of, entry_of, is_wish, wishes_among, wishes_of};

use crate::client::Client;
use crate::targeting::Evaluator;
use crate::verdicts::{is_enrolled, verdict_from};
use crate::wishes::candidate_of;
use enrol_conflicts::Candidate;
use enrol_states::{Outcome, candidate};
use plain_text::Slug;
use recipe_reader::Recipe;
use sequences::Sequence;
use std::alloc::{AllocError, Global};

/// What follows for the slug of a live recipe.
#[derive(Drop)]
pub(crate) struct Entry {
    pub(crate) slug: Slug,
    pub(crate) outcome: Outcome,
}

/// What follows for each live recipe, in order, and the wishes among that.
#[derive(Drop)]
pub(crate) struct Plan {
    pub(crate) entries: Sequence<Entry>,
    pub(crate) wishes: Sequence<Candidate>,
}

/// The plan of an apply to the client's state.
pub(crate) fn planned(
    alloc: Global,
    client: &Client,
    evaluator: &mut Evaluator,
) -> Result<Plan, AllocError>
    requires valid { AreValid client.now.state.now.live }
    requires in_order { IsInOrder client.now }
    requires ready { IsReadyFor client.now evaluator.old }
    ensures entries { IfOk result (λ plan. plan.entries ≡ map (of_client entry_of client.now) client.now.state.now.live) }
    ensures wishes { IfOk result (λ plan. plan.wishes ≡ of_client wishes_of client.now) }
{
    let mut plan = Plan {
        entries: Sequence::new(alloc),
        wishes: Sequence::new(alloc),
    };
    for recipe in client.state.live.as_slice() {
        plan.add(alloc, client, evaluator, recipe)?;
    }
    Ok(plan)
}

impl Plan {
    /// Adds what follows for a live recipe.
    fn add(
        &mut self,
        alloc: Global,
        client: &Client,
        evaluator: &mut Evaluator,
        recipe: &Recipe,
    ) -> Result<(), AllocError>
        requires valid { IsValid recipe.now }
        requires in_order { IsInOrder client.now }
        requires ready { IsReadyFor client.now evaluator.old }
        ensures entries { OnOk result (self.new.entries ≡ self.old.entries ++ of_client entry_of client.now recipe.now ∷ []) }
        ensures wishes { OnOk result (self.new.wishes ≡ self.old.wishes ++ of_client wishes_among client.now (recipe.now ∷ [])) }
        ensures ready { IsReadyFor client.now evaluator.new }
    {
        let old = client.state.status_of(recipe.slug.text());
        let verdict = verdict_from(alloc, client, evaluator, recipe, old)?;
        let outcome = candidate(alloc, old, &verdict, recipe)?;
        add_wish(alloc, &mut self.wishes, &outcome, recipe, is_enrolled(old))?;
        self.entries.push(Entry {
            slug: recipe.slug.clone()?,
            outcome,
        })?;
        Ok(())
    }
}

/// Adds the wish to be enrolled in the recipe, if the outcome is one.
fn add_wish(
    alloc: Global,
    wishes: &mut Sequence<Candidate>,
    outcome: &Outcome,
    recipe: &Recipe,
    was_enrolled: bool,
) -> Result<(), AllocError>
    ensures { OnOk result (wishes.new ≡ wishes.old ++ (if is_wish outcome.now then candidate_of was_enrolled recipe.now ∷ [] else [])) }
{
    match outcome {
        Outcome::Keep(_) => Ok(()),
        Outcome::Wish { .. } => {
            wishes.push(candidate_of(alloc, recipe, was_enrolled)?)?;
            Ok(())
        }
    }
}
