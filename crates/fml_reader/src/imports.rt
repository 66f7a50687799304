// Imports and the entries that they lay over features.
ghost use Rattle.std.specs.Prelude.{◌≡◌};
ghost use Rattle.json_tree.specs.Tree.{json_of};
ghost use Rattle.plain_text.specs.Names.{is_name};
ghost use Rattle.fml_reader.specs.Imports.{import_of};
ghost use Rattle.fml_reader.specs.Outcome.{Gives};

use crate::fault::ModuleFault;
use crate::values::object_in;
use crate::walks::{Member, Part, optional, required};
use fml_types::{ByName, DefaultEntry};
use json_tree::Tree;
use plain_text::is_name;
use sequences::{Sequence, Text};
use std::alloc::Global;

/// A module that is imported for one of its channels.
#[derive(Drop)]
pub struct Import {
    /// The name of its file.
    pub path: Text,
    pub channel: Text,
    /// Under names of features, the entries that are laid over the feature's own.
    pub features: ByName<Sequence<DefaultEntry>>,
}

impl Part for Import {
    ghost said = { import_of };

    #[tactic(auto, unfolding(crate::specs::Imports::import_of))]
    fn read(alloc: Global, tree: &Tree) -> Result<Import, ModuleFault> {
        object_in(alloc, tree)?;
        let path = required(alloc, tree, "path")?;
        let channel = required(alloc, tree, "channel")?;
        let features = optional(alloc, tree, "features", ByName::new(alloc))?;
        Ok(Import {
            path,
            channel,
            features,
        })
    }
}

/// A list under the name of a feature.
impl<T: Part> Member for Sequence<T> {
    ghost takes = { is_name };

    fn takes(key: &str) -> bool {
        is_name(key.as_bytes())
    }
}
