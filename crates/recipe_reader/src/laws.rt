// Laws of the definitions.
ghost use Rattle.recipe_reader.specs.Laws.{EqualRecipesAreOne};
ghost use Rattle.recipe_reader.specs.Reasons.{IsFirstReason};
ghost use Rattle.recipe_reader.specs.Stated.{RecipesAreStated};

/// A record is skipped for the first reason of the table that applies, and is a recipe where none
/// does. It takes no memory.
pub fn skipped_for_first_reason()
    ensures { IsFirstReason }
{}

/// A record that isn't skipped is the recipe whose fields it states, each under its own key. It takes
/// no memory.
pub fn recipes_are_stated()
    ensures { RecipesAreStated }
{}

/// The test that `==` answers holds exactly of recipes that are one. It takes no memory.
pub fn equal_recipes_are_one()
    ensures { EqualRecipesAreOne }
{}
