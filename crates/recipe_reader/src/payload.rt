// A payload of records: which recipes it keeps, and which records it skips.
ghost use Rattle.std.specs.Prelude.{◌≡◌, ◌≤◌, ◌↔◌, ℕ, map, length, false, Err, None, Some, IfOk, OnOk};
ghost use Rattle.std.specs.Map.{values_of};
ghost use Rattle.json_tree.specs.Json.{items_of};
ghost use Rattle.json_tree.specs.Tree.{json_of};
ghost use Rattle.recipe_reader.specs.Records.{recipe_of, IsValid};
ghost use Rattle.recipe_reader.specs.Payloads.{AreValid, has_slug, with_recipe, no_records, keeping, skipping, taking, payload_from, payload_of, records_in, too_many, GivesPayload};
ghost use Rattle.recipe_reader.specs.Taken.{HaveOwnSlugs, so_far};
ghost use Rattle.recipe_reader.specs.declared.payload.PayloadFault.TheVariants.{OutOfMemory};

use crate::reading::read_record;
use crate::recipe::{Recipe, RecordFault, SkipReason};
use crate::recipes::Recipes;
use json_tree::Tree;
use plain_text::Slug;
use sequences::Sequence;
use std::alloc::{AllocError, Global};
use std::collections::BTreeMap;

const MAX_RECORDS: usize = 2_000;

/// What a payload holds.
#[derive(Drop)]
pub struct Payload {
    /// The recipes that are kept, in order by slug.
    pub recipes: Recipes,
    /// The records that are skipped, by their index from 0, each with its reason.
    pub skipped: Sequence<(u32, SkipReason)>,
}

/// Why `read_payload` gives no payload.
#[derive(Clone, Copy, Debug, PartialEq, Eq)]
pub enum PayloadFault {
    /// The tree isn't an object with a list `data`.
    NoData,
    /// The list has more than 2,000 records, namely so many.
    TooManyRecipes(u64),
    OutOfMemory,
}

impl From<AllocError> for PayloadFault {
    ghost from_gives = { λ _ e. e ≡ OutOfMemory };

    fn from(_e: AllocError) -> PayloadFault {
        PayloadFault::OutOfMemory
    }
}

/// The payload of the tree's list `data`.
#[tactic(auto, using(crate::proofs::Lengths::items_len_of), unfolding(crate::specs::Payloads::payload_of))]
pub fn read_payload(alloc: Global, tree: &Tree) -> Result<Payload, PayloadFault>
    ensures reads { GivesPayload result (payload_of (json_of tree.now)) }
    ensures valid { IfOk result (λ p. AreValid p.recipes) }
    ensures no_data { (result ≡ Err PayloadFault.NoData) ↔ (records_in (json_of tree.now) ≡ None) }
    ensures too_many { (n : ℕ) → (result ≡ Err (PayloadFault.TooManyRecipes n)) ↔ (too_many (records_in (json_of tree.now)) ≡ Some n) }
{
    let Some(Tree::List(items)) = tree.get("data") else {
        return Err(PayloadFault::NoData);
    };
    let records = items.as_slice();
    if records.len() > MAX_RECORDS {
        return Err(PayloadFault::TooManyRecipes(records.len() as u64));
    }
    Ok(take_records(alloc, records)?)
}

#[tactic(auto, using(crate::proofs::Taken::none_taken, crate::proofs::Taken::none_own, crate::proofs::Taken::none_valid))]
fn take_records(alloc: Global, records: &[Tree]) -> Result<Payload, AllocError>
    requires { length records.now ≤ 2000 }
    ensures taken { IfOk result (λ p. p ≡ payload_from 0 no_records (items_of (map json_of records.now))) }
    ensures valid { IfOk result (λ p. AreValid p.recipes) }
{
    let mut taken = Taken {
        recipes: BTreeMap::new(alloc),
        skipped: Sequence::new(alloc),
    };
    let mut index = 0;
    for tree in records {
        taken.take_record(alloc, index, tree)?;
        index += 1;
    }
    taken.into_payload(alloc)
}

/// What was taken of a payload so far: the recipes by their slugs, and the records that are skipped.
#[derive(Drop)]
struct Taken {
    recipes: BTreeMap<Slug, Recipe>,
    skipped: Sequence<(u32, SkipReason)>,
}

impl Taken {
    fn take_record(&mut self, alloc: Global, index: u32, tree: &Tree) -> Result<(), AllocError>
        requires { HaveOwnSlugs self.old.recipes.entries }
        ensures taken { OnOk result (so_far self.new ≡ taking index (recipe_of (json_of tree.now)) (so_far self.old)) }
        ensures slugs { OnOk result (HaveOwnSlugs self.new.recipes.entries) }
        ensures valid { OnOk result (AreValid (so_far self.old).recipes → AreValid (so_far self.new).recipes) }
    {
        match read_record(alloc, tree) {
            Ok(recipe) => self.keep(index, recipe),
            Err(RecordFault::Skip(reason)) => self.skip(index, reason),
            Err(RecordFault::OutOfMemory) => Err(AllocError),
        }
    }

    /// Keeps the recipe, unless one with its slug is there.
    fn keep(&mut self, index: u32, recipe: Recipe) -> Result<(), AllocError>
        requires { HaveOwnSlugs self.old.recipes.entries }
        ensures kept { OnOk result (so_far self.new ≡ keeping index recipe (so_far self.old)) }
        ensures slugs { OnOk result (HaveOwnSlugs self.new.recipes.entries) }
        ensures valid { OnOk result (IsValid recipe → AreValid (so_far self.old).recipes → AreValid (so_far self.new).recipes) }
    {
        if has_slug(&self.recipes, &recipe.slug) {
            drop(recipe);
            return self.skip(index, SkipReason::Duplicate);
        }
        insert(&mut self.recipes, recipe)
    }

    fn skip(&mut self, index: u32, reason: SkipReason) -> Result<(), AllocError>
        ensures skipped { OnOk result (so_far self.new ≡ skipping index reason (so_far self.old)) }
        ensures recipes { OnOk result (self.new.recipes.entries ≡ self.old.recipes.entries) }
    {
        self.skipped.push((index, reason))
    }

    fn into_payload(self, alloc: Global) -> Result<Payload, AllocError>
        requires { HaveOwnSlugs self.recipes.entries }
        ensures { IfOk result (λ p. p ≡ so_far self) }
    {
        Ok(Payload {
            recipes: in_order(alloc, self.recipes)?,
            skipped: self.skipped,
        })
    }
}

#[tactic(auto, using(crate::proofs::Taken::held_slug))]
fn has_slug(recipes: &BTreeMap<Slug, Recipe>, slug: &Slug) -> bool
    requires { HaveOwnSlugs recipes.now.entries }
    ensures { result ≡ has_slug slug.now (values_of recipes.now.entries) }
{
    recipes.contains_key(slug)
}

/// Puts a recipe at its place.
fn insert(recipes: &mut BTreeMap<Slug, Recipe>, recipe: Recipe) -> Result<(), AllocError>
    requires slugs { HaveOwnSlugs recipes.old.entries }
    requires absent { has_slug recipe.slug (values_of recipes.old.entries) ≡ false }
    ensures put { OnOk result (values_of recipes.new.entries ≡ with_recipe recipe (values_of recipes.old.entries)) }
    ensures slugs { OnOk result (HaveOwnSlugs recipes.new.entries) }
    ensures valid { OnOk result (IsValid recipe → AreValid (values_of recipes.old.entries) → AreValid (values_of recipes.new.entries)) }
{
    let slug = recipe.slug.clone()?;
    drop(recipes.insert(slug, recipe)?);
    Ok(())
}

/// The recipes of the map, in order by slug.
fn in_order(alloc: Global, map: BTreeMap<Slug, Recipe>) -> Result<Recipes, AllocError>
    requires { HaveOwnSlugs map.entries }
    ensures { IfOk result (λ recipes. recipes ≡ values_of map.entries) }
{
    let mut recipes = Recipes::new(alloc);
    for (_, recipe) in map {
        recipes.push(recipe)?;
    }
    Ok(recipes)
}
