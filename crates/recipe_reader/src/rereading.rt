// A recipe by way of its record.
ghost use Rattle.std.specs.Prelude.{◌≡◌, Err, IfOk};
ghost use Rattle.recipe_reader.specs.Records.{IsValid};

use crate::reading::read_record;
use crate::recipe::{Recipe, RecordFault};
use crate::writing::record_of;
use std::alloc::Global;

/// The recipe that the recipe's own record is read as, which is the same.
pub fn reread(alloc: Global, recipe: &Recipe) -> Result<Recipe, RecordFault>
    requires { IsValid recipe.now }
    ensures ok { IfOk result (λ r. r ≡ recipe.now) }
    ensures err { (e : RecordFault) → result ≡ Err e → e ≡ RecordFault.OutOfMemory }
{
    let tree = record_of(alloc, recipe)?;
    match read_record(alloc, &tree) {
        Ok(recipe) => Ok(recipe),
        Err(fault) => Err(fault),
    }
}
