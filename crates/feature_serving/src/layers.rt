// What enrolments lay over a feature, in order.
ghost use Rattle.std.specs.Prelude.{◌≡◌, find, map, IfOk, option_map, option_and_then, bytes_eq};
ghost use Rattle.enrol_states.specs.Order.{Rise};
ghost use Rattle.enrol_states.specs.State.{slugs_of};
ghost use Rattle.feature_serving.specs.Layers.{branch_with, set_by, layer_in, layer_of, laid_by_rows, layer_cmp, layers};
ghost use Rattle.feature_serving.specs.Lent.{view};

use enrol_states::{Row, State, Status};
use json_tree::Tree;
use recipe_reader::{Branch, Kind, Recipe, Recipes};
use std::alloc::{AllocError, Global};
use std::cmp::Ordering;

/// What an enrolment lays over a feature.
#[derive(Drop)]
pub(crate) struct Layer<'a> {
    /// What the recipe is.
    kind: Kind,
    /// When the recipe was published, in seconds since 1970 began.
    published_at: Option<i64>,
    /// The recipe's slug.
    slug: &'a str,
    /// What the branch sets of the feature.
    pub(crate) value: &'a Tree,
}

impl<'a> Layer<'a> {
    /// Rollouts go before experiments; of each kind an absent moment goes first, then the earlier
    /// moment, then the lower slug.
    fn rank(&self, other: &Layer) -> Ordering
        ensures { result ≡ layer_cmp (view self.now) (view other.now) }
    {
        let kind = other.kind.cmp(&self.kind);
        let moment = self.published_at.cmp(&other.published_at);
        let slug = self.slug.cmp(other.slug);
        kind.then(moment).then(slug)
    }
}

/// The layers of the feature, in the order in which they are laid.
pub(crate) fn layers<'a>(
    alloc: Global,
    state: &'a State,
    feature: &str,
) -> Result<Vec<Layer<'a>>, AllocError>
    requires { Rise (slugs_of state.now.rows) }
    ensures { IfOk result (λ ls. map view ls.items ≡ layers state.now feature.now) }
{
    let mut layers = layers_by_rows(alloc, state, feature)?;
    layers.sort_by(|layer, other| layer.rank(other))?;
    Ok(layers)
}

/// The layers of the feature, in the order of the rows.
fn layers_by_rows<'a>(
    alloc: Global,
    state: &'a State,
    feature: &str,
) -> Result<Vec<Layer<'a>>, AllocError>
    ensures { IfOk result (λ ls. map view ls.items ≡ laid_by_rows state.now feature.now) }
{
    let mut layers = Vec::new(alloc);
    for row in state.rows.as_slice() {
        if let Some(layer) = layer_of(&state.live, feature, row) {
            layers.push(layer)?;
        }
    }
    Ok(layers)
}

/// What the row lays over the feature.
fn layer_of<'a>(live: &'a Recipes, feature: &str, row: &'a Row) -> Option<Layer<'a>>
    ensures { option_map view result ≡ layer_of live.now feature.now row.now }
{
    match &row.status {
        Status::Enrolled { branch, .. } => {
            let recipe = live.get(row.slug.text())?;
            layer_in(feature, row.slug.text(), recipe, branch.text())
        }
        _ => None,
    }
}

/// What the recipe lays over the feature, of a client that is enrolled in the branch.
fn layer_in<'a>(feature: &str, slug: &'a str, recipe: &'a Recipe, branch: &str) -> Option<Layer<'a>>
    ensures { option_map view result ≡ layer_in feature.now slug.now recipe.now branch.now }
{
    let value = set_by(feature, branch_with(branch, recipe)?)?;
    Some(Layer {
        kind: recipe.kind(),
        published_at: recipe.published_at(),
        slug,
        value,
    })
}

/// The recipe's branch of that slug.
fn branch_with<'a>(slug: &str, recipe: &'a Recipe) -> Option<&'a Branch>
    ensures { option_map (λ b. b.now) result ≡ branch_with slug.now recipe.now }
{
    let branches = recipe.branches.as_slice();
    branches.iter().find(|branch| branch.slug.text() == slug)
}

/// What the branch sets of the feature.
fn set_by<'a>(feature: &str, branch: &'a Branch) -> Option<&'a Tree>
    ensures { option_map (λ t. t.now) result ≡ set_by feature.now branch.now }
{
    let features = branch.features.as_slice();
    let set = features.iter().find(|set| set.feature.as_str() == feature)?;
    Some(&set.value)
}
