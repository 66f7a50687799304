// A recipe's record as compact JSON.
ghost use Rattle.std.specs.Prelude.{◌≡◌, IfOk};
ghost use Rattle.state_values.specs.Values.{recipe_text};

use json::Writer;
use recipe_reader::{Recipe, write_record};
use std::alloc::{AllocError, Global};

/// The bytes that memory is taken for at first.
const ROOM: usize = 1_024;

/// The recipe's record as compact JSON.
pub fn recipe_text(alloc: Global, recipe: &Recipe) -> Result<Vec<u8>, AllocError>
    ensures { IfOk result (λ text. text.items ≡ recipe_text recipe.now) }
{
    let mut writer = Writer::new(Vec::with_capacity(alloc, ROOM)?);
    write_record(&mut writer, recipe)?;
    Ok(writer.into_inner())
}
