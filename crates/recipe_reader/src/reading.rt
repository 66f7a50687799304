// A record read as a recipe.
ghost use Rattle.std.specs.Prelude.{◌≡◌, Ok, Err, IfOk};
ghost use Rattle.json_tree.specs.Tree.{json_of};
ghost use Rattle.recipe_reader.specs.Outcome.{Gives, needed, only_if};
ghost use Rattle.recipe_reader.specs.Parts.{object_in, slug_in, schema_in, fields_in, sized_text, bucket_of, bucket_in};
ghost use Rattle.recipe_reader.specs.Records.{recipe_of, IsValid};
ghost use Rattle.recipe_reader.specs.Values.{count_at, is_slug};
ghost use Rattle.recipe_reader.specs.declared.recipe.SkipReason.TheVariants.{BadBucket};

use crate::branches::branches_in;
use crate::fields::{
    count_at, is_schema, kept_moment, kept_with_bytes, kept_with_more, optional_text,
    optional_truth, text_at, truth_or_absent,
};
use crate::recipe::{Bucket, Fields, Recipe, RecordFault, SkipReason};
use json_tree::Tree;
use plain_text::{Slug, SlugFault, slug_of};
use sequences::Text;
use std::alloc::{AllocError, Global};

/// The recipe that the tree is, or the first reason to skip it.
pub fn read_record(alloc: Global, tree: &Tree) -> Result<Recipe, RecordFault>
    ensures ok { IfOk result (λ r. recipe_of (json_of tree.now) ≡ Ok r) }
    ensures valid { IfOk result IsValid }
    ensures skip { (reason : SkipReason) → result ≡ Err (RecordFault.Skip reason) → recipe_of (json_of tree.now) ≡ Err reason }
    ensures reads { Gives (λ r. r) result (recipe_of (json_of tree.now)) }
{
    recipe_of(alloc, tree)
}

#[tactic(auto, unfolding(crate::specs::Records::recipe_of))]
fn recipe_of(alloc: Global, tree: &Tree) -> Result<Recipe, RecordFault>
    ensures { Gives (λ r. r) result (recipe_of (json_of tree.now)) }
{
    object_in(tree)?;
    let slug = slug_in(alloc, tree, SkipReason::BadSlug)?;
    schema_in(tree)?;
    let fields = fields_in(alloc, tree)?;
    let bucket = bucket_in(alloc, tree)?;
    let branches = branches_in(alloc, tree)?;
    Ok(Recipe {
        slug,
        app_name: fields.app_name,
        channel: fields.channel,
        paused: fields.paused,
        rollout: fields.rollout,
        bucket,
        branches,
        targeting: fields.targeting,
        published: fields.published,
    })
}

#[tactic(auto, unfolding(crate::specs::Parts::object_in))]
fn object_in(tree: &Tree) -> Result<(), RecordFault>
    ensures { Gives (λ u. u) result (object_in (json_of tree.now)) }
{
    match tree {
        Tree::Object(_) => Ok(()),
        _ => Err(RecordFault::Skip(SkipReason::NotAnObject)),
    }
}

#[tactic(auto, unfolding(crate::specs::Parts::slug_in))]
pub fn slug_in(alloc: Global, tree: &Tree, reason: SkipReason) -> Result<Slug, RecordFault>
    ensures { Gives (λ s. s) result (slug_in reason (json_of tree.now)) }
{
    let Some(text) = text_at(tree, "slug") else {
        return Err(RecordFault::Skip(reason));
    };
    match slug_from(alloc, text)? {
        Some(slug) => Ok(slug),
        None => Err(RecordFault::Skip(reason)),
    }
}

/// The slug that the text is, where it is one.
fn slug_from(alloc: Global, text: &str) -> Result<Option<Slug>, AllocError>
    ensures { IfOk result (λ o. o ≡ only_if (is_slug text.now) text.now) }
{
    match slug_of(alloc, text.as_bytes()) {
        Ok(slug) => Ok(Some(slug)),
        Err(SlugFault::BadSlug(_)) => Ok(None),
        Err(SlugFault::OutOfMemory) => Err(AllocError),
    }
}

#[tactic(auto, unfolding(crate::specs::Parts::schema_in))]
fn schema_in(tree: &Tree) -> Result<(), RecordFault>
    ensures { Gives (λ u. u) result (schema_in (json_of tree.now)) }
{
    let Some(text) = text_at(tree, "schemaVersion") else {
        return Err(RecordFault::Skip(SkipReason::BadSchema));
    };
    if is_schema(text.as_bytes()) {
        Ok(())
    } else {
        Err(RecordFault::Skip(SkipReason::BadSchema))
    }
}

#[tactic(auto, unfolding(crate::specs::Parts::fields_in))]
fn fields_in(alloc: Global, tree: &Tree) -> Result<Fields, RecordFault>
    ensures { Gives (λ f. f) result (fields_in (json_of tree.now)) }
{
    let app_name = optional_text(tree, "appName")?;
    let channel = optional_text(tree, "channel")?;
    let targeting = optional_text(tree, "targeting")?;
    let published = optional_text(tree, "publishedDate")?;
    let rollout = optional_truth(tree, "isRollout")?;
    let paused = truth_or_absent(tree, "isEnrollmentPaused")?;
    Ok(Fields {
        app_name: kept_with_bytes(alloc, app_name)?,
        channel: kept_with_bytes(alloc, channel)?,
        paused,
        rollout,
        targeting: kept_with_more(alloc, targeting)?,
        published: kept_moment(alloc, published)?,
    })
}

#[tactic(auto, unfolding(crate::specs::Parts::bucket_in))]
fn bucket_in(alloc: Global, tree: &Tree) -> Result<Bucket, RecordFault>
    ensures { Gives (λ b. b) result (bucket_in (json_of tree.now)) }
{
    match tree.get("bucketConfig") {
        Some(entry) => bucket_of(alloc, entry),
        None => Err(RecordFault::Skip(SkipReason::BadBucket)),
    }
}

#[tactic(auto, unfolding(crate::specs::Parts::bucket_of))]
fn bucket_of(alloc: Global, entry: &Tree) -> Result<Bucket, RecordFault>
    ensures { Gives (λ b. b) result (bucket_of (json_of entry.now)) }
{
    let unit = sized_text(alloc, entry, "randomizationUnit", 1, 80)?;
    let namespace = sized_text(alloc, entry, "namespace", 0, 256)?;
    let start = bucket_count(entry, "start", 0)?;
    let count = bucket_count(entry, "count", 0)?;
    let total = bucket_count(entry, "total", 1)?;
    Ok(Bucket {
        unit,
        namespace,
        start,
        count,
        total,
    })
}

fn bucket_count(entry: &Tree, key: &str, low: u32) -> Result<u32, RecordFault>
    ensures { Gives (λ n. n) result (needed BadBucket (count_at key.now low 4294967295 (json_of entry.now))) }
{
    match count_at(entry, key, low, u32::MAX) {
        Some(count) => Ok(count),
        None => Err(RecordFault::Skip(SkipReason::BadBucket)),
    }
}

#[tactic(auto, unfolding(crate::specs::Parts::sized_text))]
fn sized_text(
    alloc: Global,
    entry: &Tree,
    key: &str,
    low: usize,
    high: usize,
) -> Result<Text, RecordFault>
    ensures { Gives (λ s. s) result (sized_text key.now low high (json_of entry.now)) }
{
    let Some(text) = text_at(entry, key) else {
        return Err(RecordFault::Skip(SkipReason::BadBucket));
    };
    if low <= text.len() && text.len() <= high {
        Ok(Text::new(alloc, text)?)
    } else {
        Err(RecordFault::Skip(SkipReason::BadBucket))
    }
}
