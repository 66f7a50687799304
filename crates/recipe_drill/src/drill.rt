// The drill: its id, its script and its files.
ghost use Rattle.std.specs.Prelude.{◌≡◌, ◌≤◌, IfOk};
ghost use Rattle.recipe_drill.specs.Parts.{parts_of, drill, HasRoom};

use crate::files::{context_text, manifest_text, recipes_text, script_text};
use sequences::{Sequence, Text};
use std::alloc::{AllocError, Global};

/// The most records that a drill has.
pub const MAX_RECIPES: u32 = 2_000;

/// A store's id, a script, and the three files that the script names.
#[derive(Drop)]
pub struct Drill {
    /// The id of the store, as 32 lower-case hexadecimal digits with hyphens.
    pub id: Text,
    /// The lines of the script, each with its end.
    pub script: Sequence<u8>,
    /// `manifest.json`.
    pub manifest: Sequence<u8>,
    /// `context.json`.
    pub context: Sequence<u8>,
    /// `recipes.json`.
    pub recipes: Sequence<u8>,
}

impl Drill {
    /// The drill whose draws begin at `start`, with `count` records. Each file has at most
    /// 4,194,304 bytes. The one error is want of memory.
    pub fn new(alloc: Global, start: u64, count: u32) -> Result<Drill, AllocError>
        requires at_least { 1 ≤ count }
        requires at_most { count ≤ 2000 }
        ensures drill { IfOk result (λ d. parts_of d ≡ drill start count) }
        ensures room { IfOk result (λ d. HasRoom d) }
    {
        let id = Text::new(alloc, "00000000-0000-4000-8000-000000000000")?;
        let script = script_text(alloc)?;
        let manifest = manifest_text(alloc)?;
        let context = context_text(alloc)?;
        let recipes = recipes_text(alloc, start, count)?;
        Ok(Drill {
            id,
            script: Sequence::from_vec(script),
            manifest: Sequence::from_vec(manifest),
            context: Sequence::from_vec(context),
            recipes: Sequence::from_vec(recipes),
        })
    }
}
