// How many bytes the rows of recipes take, and those of the next state's recipes by those of the recipes of before.
ghost use Rattle.std.specs.Prelude.{◌≡◌, ◌≤◌, ◌+◌, ◌*◌, ◌^◌, ◌∷◌, [], length, IfSome, IfNone};
ghost use Rattle.json_tree.specs.Json.{IsSound};
ghost use Rattle.recipe_reader.specs.Payloads.{AreValid};
ghost use Rattle.recipe_reader.specs.Records.{IsValid, record_json};
ghost use Rattle.state_codec.specs.Sizes.{recipe_size, recipes_size};
ghost use Rattle.state_codec.specs.Sound.{AreRecords};

use crate::size::PUT;
use recipe_reader::{Recipe, record_length};
use std::cmp::Ordering;

/// How many bytes the rows of these recipes take.
pub(crate) fn recipes_size(recipes: &[Recipe]) -> u128
    requires count { length recipes.now ≤ 2000 }
    requires valid { AreValid recipes.now }
    ensures size { result ≡ recipes_size recipes.now }
    ensures bound { result ≤ length recipes.now * 2 ^ 79 }
    ensures records { AreRecords recipes.now }
{
    let mut size: u128 = 0;
    for recipe in recipes {
        size += recipe_size(recipe);
    }
    size
}

/// How many bytes the rows of the new recipes take, by those of the old ones: both lists are walked once, and only recipes
/// that are gone, new or differ are counted.
pub(crate) fn recipes_size_after(before: u128, olds: &[Recipe], news: &[Recipe]) -> u128
    requires before { before ≡ recipes_size olds.now }
    requires fits { before ≤ 2 ^ 24 }
    requires old_count { length olds.now ≤ 2000 }
    requires new_count { length news.now ≤ 2000 }
    requires old_recipes { AreValid olds.now }
    requires new_recipes { AreValid news.now }
    requires records { AreRecords olds.now }
    ensures size { result ≡ recipes_size news.now }
    ensures bound { result ≤ 2 ^ 92 }
    ensures records { AreRecords news.now }
{
    if news.is_empty() {
        return 0;
    }
    let mut size = before;
    let mut olds = olds;
    let mut news = news;
    loop {
        let Some((old, olds_behind)) = first_of(olds) else {
            return size + recipes_size(news);
        };
        let Some((new, news_behind)) = first_of(news) else {
            return size - recipes_size(olds);
        };
        match old.slug.text().cmp(new.slug.text()) {
            Ordering::Less => {
                size -= recipe_size(old);
                olds = olds_behind;
            }
            Ordering::Greater => {
                size += recipe_size(new);
                news = news_behind;
            }
            Ordering::Equal => {
                size = size_with(size, old, new);
                olds = olds_behind;
                news = news_behind;
            }
        }
    }
}

// The first recipe, and those behind it.
fn first_of(recipes: &[Recipe]) -> Option<(&Recipe, &[Recipe])>
    ensures some { IfSome result (λ p. recipes.now ≡ p.0.now ∷ p.1.now) }
    ensures none { IfNone result (recipes.now ≡ []) }
{
    match recipes {
        [] => None,
        [recipe, behind @ ..] => Some((recipe, behind)),
    }
}

// The size of rows in which the new recipe's takes the place of the old one's.
fn size_with(size: u128, old: &Recipe, new: &Recipe) -> u128
    requires room { recipe_size old.now ≤ size }
    requires fits { size ≤ 2 ^ 92 }
    requires old_recipe { IsValid old.now }
    requires new_recipe { IsValid new.now }
    requires record { IsSound (record_json old.now) }
    ensures size { result + recipe_size old.now ≡ size + recipe_size new.now }
    ensures bound { result ≤ size + 2 ^ 79 }
    ensures record { IsSound (record_json new.now) }
{
    if old == new {
        return size;
    }
    size - recipe_size(old) + recipe_size(new)
}

// How many bytes the recipe's row takes.
fn recipe_size(recipe: &Recipe) -> u128
    requires { IsValid recipe.now }
    ensures size { result ≡ recipe_size recipe.now }
    ensures bound { result ≤ 2 ^ 79 }
    ensures record { IsSound (record_json recipe.now) }
{
    PUT + 1 + recipe.slug.text().len() as u128 + record_length(recipe)
}
