// Recipes in order by slug.
ghost use Rattle.std.specs.Prelude.{◌≡◌, ◌++◌, ◌∷◌, [], true, not, IfOk, IfErr, OnOk, OnErr, option_map, slice_get, if◌then◌else◌};
ghost use Rattle.recipe_reader.specs.Records.{IsValid};
ghost use Rattle.recipe_reader.specs.Payloads.{AreInOrder, AreBelow, AreValid, IsPlace, has_slug, recipe_with, with_recipe};

use crate::recipe::Recipe;
use sequences::SharedList;
use std::alloc::{AllocError, Global};
use std::marker::Model;

/// Recipes whose slugs rise by their bytes, so that no two have one slug. Contracts see it as the
/// list of the recipes. A clone shares the list, and a list with several owners is copied before
/// one of them changes it.
#[derive(Drop)]
pub struct Recipes {
    list: SharedList<Recipe>,
}

impl Model for Recipes {
    ghost use Rattle.std.specs.Prelude.{List};
    ghost use Rattle.std.specs.Coded.{codes};
    ghost use Rattle.json_tree.specs.Json.{json_code};
    ghost use Rattle.recipe_reader.specs.declared.recipe.Recipe.{Recipe};

    ghost Value = { List Recipe };

    ghost coded = { Prim.hlevel (codes, json_code) };

    ghost use Rattle.recipe_reader.specs.Payloads.{AreInOrder};

    ghost view = { λ a. a.list };

    ghost invariant = { λ a. AreInOrder a.list };
}

/// The same list with one more owner. It takes no memory.
impl Clone for Recipes {
    ghost is_clone = { λ rs ss. ss ≡ rs };

    fn clone(&self) -> Result<Recipes, AllocError> {
        Ok(Recipes {
            list: self.list.clone()?,
        })
    }
}

/// Recipe by recipe.
impl PartialEq for Recipes {
    ghost use Rattle.std.specs.Cmp.{partial_equiv_from_equiv};
    ghost use Rattle.std.specs.Cmp.Lexicographic.{pointwise};
    ghost use Rattle.recipe_reader.specs.Equal.{recipe_eq};
    ghost use Rattle.recipe_reader.specs.Equals.{recipes_equivalence};

    ghost eq = { λ rs ss. pointwise recipe_eq rs ss };

    ghost laws = { partial_equiv_from_equiv recipes_equivalence };

    fn eq(&self, other: &Recipes) -> bool {
        self.as_slice() == other.as_slice()
    }
}

impl Recipes {
    /// No recipes. It takes no memory.
    pub fn new(alloc: Global) -> Recipes
        ensures { result ≡ [] }
    {
        Recipes {
            list: SharedList::new(alloc),
        }
    }

    /// The recipes, in order. It takes no memory.
    pub fn as_slice(&self) -> &[Recipe]
        ensures recipes { result.now ≡ self.now }
        ensures in_order { AreInOrder self.now }
    {
        self.list.as_slice()
    }

    /// The recipe with the slug, by a binary search. It takes no memory.
    #[tactic(auto, using(crate::proofs::Places::none_at_place))]
    pub fn get(&self, slug: &str) -> Option<&Recipe>
        ensures { option_map (λ r. r.now) result ≡ recipe_with slug.now self.now }
    {
        match place_of(self.as_slice(), slug) {
            Ok(place) => self.as_slice().get(place),
            Err(_) => None,
        }
    }

    /// Puts a recipe at the end, whose slug is above each that is there. Want of memory leaves the
    /// recipes as they were.
    pub fn push(&mut self, recipe: Recipe) -> Result<(), AllocError>
        requires { AreBelow recipe.slug self.old }
        ensures ok { OnOk result (self.new ≡ self.old ++ recipe ∷ []) }
        ensures err { OnErr result (self.new ≡ self.old) }
    {
        self.list.push(recipe)?;
        Ok(())
    }

    /// Puts a recipe at its place, unless one with its slug is there, and says whether it did.
    /// Want of memory leaves the recipes as they were.
    pub fn insert(&mut self, recipe: Recipe) -> Result<bool, AllocError>
        ensures ok { OnOk result (self.new ≡ (if has_slug recipe.slug self.old then self.old else with_recipe recipe self.old)) }
        ensures is_new { IfOk result (λ b. b ≡ not (has_slug recipe.slug self.old)) }
        ensures valid { OnOk result (IsValid recipe → AreValid self.old → AreValid self.new) }
        ensures err { OnErr result (self.new ≡ self.old) }
    {
        match place_of(self.as_slice(), recipe.slug.text()) {
            Ok(_) => {
                drop(recipe);
                Ok(false)
            }
            Err(place) => {
                self.list.insert(place, recipe)?;
                Ok(true)
            }
        }
    }
}

/// Where the recipe with the slug is, or else where one belongs, by a binary search.
fn place_of(recipes: &[Recipe], slug: &str) -> Result<usize, usize>
    requires { AreInOrder recipes.now }
    ensures found { IfOk result (λ i. recipe_with slug.now recipes.now ≡ slice_get recipes.now i) }
    ensures there { IfOk result (λ _. has_slug slug.now recipes.now ≡ true) }
    ensures absent { IfErr result (λ i. IsPlace slug.now recipes.now i) }
{
    recipes.binary_search_by(|recipe| recipe.slug.text().cmp(slug))
}
