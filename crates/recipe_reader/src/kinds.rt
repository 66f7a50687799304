// What a recipe is, when it was published, and which branches it has.
ghost use Rattle.std.specs.Prelude.{◌≡◌};
ghost use Rattle.recipe_reader.specs.Kinds.{kind_of, published_at, has_branch};

use crate::branches::has_slug;
use crate::recipe::Recipe;
use plain_text::read_moment;

/// What a recipe is. Recipes of different kinds share features freely.
#[derive(Clone, Copy, Debug, PartialEq, Eq, PartialOrd, Ord, Drop)]
pub enum Kind {
    Experiment,
    Rollout,
}

impl Recipe {
    /// Whether the recipe is an experiment or a rollout (`isRollout`).
    pub fn kind(&self) -> Kind
        ensures { result ≡ kind_of self.now }
    {
        if self.rollout {
            Kind::Rollout
        } else {
            Kind::Experiment
        }
    }

    /// When the recipe was published (`publishedDate`), in whole seconds since 1970 began, where its
    /// record says so.
    pub fn published_at(&self) -> Option<i64>
        ensures { result ≡ published_at self.now }
    {
        match &self.published {
            Some(text) => read_moment(text.as_str().as_bytes()),
            None => None,
        }
    }

    /// Whether the recipe has a branch of that slug.
    pub fn has_branch(&self, branch: &str) -> bool
        ensures { result ≡ has_branch self.now branch.now }
    {
        has_slug(self.branches.as_slice(), branch)
    }
}
