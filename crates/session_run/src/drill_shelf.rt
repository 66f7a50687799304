// The shelf of a drill, which holds its files in memory.
ghost use Rattle.std.specs.Prelude.{◌≡◌, ◌≤◌, length, IfSome};
ghost use Rattle.std.specs.Option.{option_map};
ghost use Rattle.session_run.specs.Drills.{file_among};

use host_model::{Shelf, ShelfAnswer};
use sequences::Sequence;
use std::alloc::Global;

/// The three files of a drill by their names. It tells what they hold, and it never fails.
#[derive(Drop)]
pub(crate) struct DrillShelf {
    /// `manifest.json`.
    pub(crate) manifest: Sequence<u8>,
    /// `context.json`.
    pub(crate) context: Sequence<u8>,
    /// `recipes.json`.
    pub(crate) recipes: Sequence<u8>,
    ghost manifest_room: { length manifest ≤ 4194304 },
    ghost context_room: { length context ≤ 4194304 },
    ghost recipes_room: { length recipes ≤ 4194304 },
}

impl DrillShelf {
    /// The file of this name, where there is one.
    #[tactic(auto, unfolding(crate::specs::Drills::file_among))]
    fn file(&self, name: &str) -> Option<&[u8]>
        ensures file { file_among self.now.manifest self.now.context self.now.recipes name.now ≡ option_map (λ bytes. bytes.now) result }
        ensures room { IfSome result (λ bytes. length bytes.now ≤ 4194304) }
    {
        match name {
            "manifest.json" => Some(self.manifest.as_slice()),
            "context.json" => Some(self.context.as_slice()),
            "recipes.json" => Some(self.recipes.as_slice()),
            _ => None,
        }
    }
}

impl Shelf for DrillShelf {
    ghost tells = { Unit {0} };

    ghost file = { λ shelf. file_among shelf.manifest shelf.context shelf.recipes };

    ghost faults = { λ shelf. 0 };

    ghost asks = { λ shelf name asked. asked ≡ shelf };

    fn take(&mut self, alloc: Global, name: &str) -> ShelfAnswer {
        let Some(bytes) = self.file(name) else {
            return ShelfAnswer::Absent;
        };
        match bytes.to_vec(alloc) {
            Ok(copy) => ShelfAnswer::Bytes(copy),
            Err(_) => ShelfAnswer::OutOfMemory,
        }
    }
}
