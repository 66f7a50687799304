// Whether a client is sampled for a recipe, and for which of its branches.
ghost use Rattle.std.specs.Prelude.{◌≡◌, ◌<◌, ◌≤◌, ◌^◌, length, map, sum, Some, IfOk};
ghost use Rattle.recipe_reader.specs.Records.{IsValid};
ghost use Rattle.sampling.specs.Sampling.{point_of};
ghost use Rattle.enrol_evolver.specs.Clients.{of_client};
ghost use Rattle.enrol_evolver.specs.Verdicts.{id_text, sampled, sampled_by, bucket_text, branch_text, holds_point, ratios_of, branch_at};

use crate::client::Client;
use enrol_states::{ErrorCause, Verdict};
use json_tree::{Items, Tree, write};
use plain_text::Slug;
use recipe_reader::{Branch, Bucket, Recipe};
use sampling::{choose_branch, in_bucket, point};
use sequences::Text;
use std::alloc::{AllocError, Global};
use uuid::Uuid;

/// The unit whose value is the client's id.
const CLIENT_UNIT: &str = "nimbus_id";

/// What sampling finds of the client.
pub(crate) fn sampled(
    alloc: Global,
    client: &Client,
    recipe: &Recipe,
) -> Result<Verdict, AllocError>
    requires { IsValid recipe.now }
    ensures { IfOk result (λ v. v ≡ of_client sampled client.now recipe.now) }
{
    let unit = recipe.bucket.unit.as_str();
    if unit == CLIENT_UNIT {
        return sampled_by_id(alloc, client.state.id, recipe);
    }
    match client.context.unit(unit) {
        Some(value) => sampled_by(alloc, value.as_str(), recipe),
        None => Ok(Verdict::Failed(ErrorCause::NoUnit)),
    }
}

/// What sampling finds of a client by its id.
#[tactic(auto, unfolding(crate::specs::Verdicts::id_text))]
fn sampled_by_id(alloc: Global, id: Uuid, recipe: &Recipe) -> Result<Verdict, AllocError>
    requires { IsValid recipe.now }
    ensures { IfOk result (λ v. v ≡ sampled_by recipe.now (Some (id_text id))) }
{
    let mut buffer = Uuid::encode_buffer();
    sampled_by(alloc, id.hyphenated().encode_lower(&mut buffer), recipe)
}

/// What sampling finds of a client whose unit has this value.
fn sampled_by(alloc: Global, value: &str, recipe: &Recipe) -> Result<Verdict, AllocError>
    requires { IsValid recipe.now }
    ensures { IfOk result (λ v. v ≡ sampled_by recipe.now (Some value.now)) }
{
    let bucket = bucket_text(alloc, value, &recipe.bucket.namespace)?;
    if !holds_point(&recipe.bucket, point_of(&bucket)) {
        return Ok(Verdict::NotSelected);
    }
    let branch = branch_text(alloc, value, &recipe.slug)?;
    let branch = branch_at(alloc, point_of(&branch), recipe.branches.as_slice())?;
    Ok(Verdict::Qualified(branch.slug.clone()?))
}

fn point_of(text: &Text) -> u64
    ensures value { result ≡ point_of text.now }
    ensures below { result < 2 ^ 48 }
{
    point(text.as_str().as_bytes())
}

/// What a client's bucket is drawn from: the JSON list of the unit's value and the namespace.
#[tactic(auto, unfolding(crate::specs::Verdicts::bucket_text))]
fn bucket_text(alloc: Global, value: &str, namespace: &Text) -> Result<Text, AllocError>
    ensures { IfOk result (λ t. t ≡ bucket_text value.now namespace.now) }
{
    let mut items = Items::new(alloc);
    items.push(Tree::Text(Text::new(alloc, value)?))?;
    items.push(Tree::Text(namespace.clone()?))?;
    write(alloc, &Tree::List(items))
}

/// What a client's branch is drawn from: a JSON text of the unit's value and the recipe's slug.
#[tactic(auto, unfolding(crate::specs::Verdicts::branch_text))]
fn branch_text(alloc: Global, value: &str, slug: &Slug) -> Result<Text, AllocError>
    ensures { IfOk result (λ t. t ≡ branch_text value.now slug.now) }
{
    let text = format!(in alloc; "experimentmanager-{}-{}-branch", value, slug.text())?;
    write(alloc, &Tree::Text(Text::from_string(text)))
}

/// Whether the point's bucket is in the range.
fn holds_point(bucket: &Bucket, point: u64) -> bool
    requires point { point < 2 ^ 48 }
    requires total { 0 < bucket.now.total }
    ensures { result ≡ holds_point bucket.now point }
{
    in_bucket(point, bucket.start, bucket.count, bucket.total)
}

/// The branch that the point falls to.
fn branch_at<'a>(
    alloc: Global,
    point: u64,
    branches: &'a [Branch],
) -> Result<&'a Branch, AllocError>
    requires point { point < 2 ^ 48 }
    requires few { length branches.now ≤ 100 }
    requires shared { 0 < sum (ratios_of branches.now) }
    ensures { IfOk result (λ b. b.now.slug ≡ branch_at point branches.now) }
{
    let ratios = ratios_of(alloc, branches)?;
    let place = choose_branch(point, ratios.as_slice());
    Ok(&branches[place])
}

fn ratios_of(alloc: Global, branches: &[Branch]) -> Result<Vec<u32>, AllocError>
    ensures { IfOk result (λ v. v.items ≡ ratios_of branches.now) }
{
    let mut ratios = Vec::new(alloc);
    for branch in branches {
        ratios.push(branch.ratio)?;
    }
    Ok(ratios)
}
