// Features and the entries of their defaults.
ghost use Rattle.std.specs.Prelude.{◌≡◌, ◌++◌, [], option_map, IfOk};
ghost use Rattle.json_tree.specs.Tree.{json_of};
ghost use Rattle.plain_text.specs.Names.{is_name};
ghost use Rattle.fml_reader.specs.Features.{names_in, in_order, both, entry_of, feature_of};
ghost use Rattle.fml_reader.specs.Outcome.{Gives};

use crate::fault::ModuleFault;
use crate::names::{in_order, names_in};
use crate::values::object_in;
use crate::walks::{Member, Part, optional, required};
use fml_types::{ByName, DefaultEntry, FeatureDefinition};
use json_tree::Tree;
use plain_text::is_name;
use sequences::{Sequence, Text};
use std::alloc::{AllocError, Global};

impl Part for DefaultEntry {
    ghost said = { entry_of };

    #[tactic(auto, unfolding(crate::specs::Features::entry_of))]
    fn read(alloc: Global, tree: &Tree) -> Result<DefaultEntry, ModuleFault> {
        object_in(alloc, tree)?;
        let divided = optional(alloc, tree, "channel", None)?;
        let listed = optional(alloc, tree, "channels", None)?;
        let value = required(alloc, tree, "value")?;
        let channels = channels_of(alloc, divided, listed)?;
        Ok(DefaultEntry { channels, value })
    }
}

/// The names of both keys, in order and each once.
fn channels_of(
    alloc: Global,
    divided: Option<Text>,
    listed: Option<Sequence<Text>>,
) -> Result<Option<Sequence<Text>>, AllocError>
    ensures { IfOk result (λ o. o ≡ option_map (in_order []) (both (option_map names_in divided) listed)) }
{
    let names = divided_names(alloc, divided)?;
    match both(names, listed)? {
        Some(all) => Ok(Some(in_order(alloc, all)?)),
        None => Ok(None),
    }
}

/// The names that commas divide in a text, where there is one.
fn divided_names(alloc: Global, divided: Option<Text>) -> Result<Option<Sequence<Text>>, AllocError>
    ensures { IfOk result (λ o. o ≡ option_map names_in divided) }
{
    match divided {
        Some(text) => Ok(Some(names_in(alloc, &text)?)),
        None => Ok(None),
    }
}

/// The names of both keys.
fn both(
    names: Option<Sequence<Text>>,
    listed: Option<Sequence<Text>>,
) -> Result<Option<Sequence<Text>>, AllocError>
    ensures { IfOk result (λ o. o ≡ both names listed) }
{
    match names {
        None => Ok(listed),
        Some(names) => match listed {
            None => Ok(Some(names)),
            Some(listed) => Ok(Some(joined(names, &listed)?)),
        },
    }
}

fn joined(names: Sequence<Text>, listed: &Sequence<Text>) -> Result<Sequence<Text>, AllocError>
    ensures { IfOk result (λ all. all ≡ names ++ listed.now) }
{
    let list = listed.as_slice();
    let mut all = names;
    for name in list {
        all.push(name.clone()?)?;
    }
    Ok(all)
}

impl Part for FeatureDefinition {
    ghost said = { feature_of };

    #[tactic(auto, unfolding(crate::specs::Features::feature_of))]
    fn read(alloc: Global, tree: &Tree) -> Result<FeatureDefinition, ModuleFault> {
        object_in(alloc, tree)?;
        let variables = optional(alloc, tree, "variables", ByName::new(alloc))?;
        let defaults = optional(alloc, tree, "defaults", Sequence::new(alloc))?;
        let allows_coenrollment = optional(alloc, tree, "allow-coenrollment", false)?;
        Ok(FeatureDefinition {
            variables,
            defaults,
            allows_coenrollment,
        })
    }
}

impl Member for FeatureDefinition {
    ghost takes = { is_name };

    fn takes(key: &str) -> bool {
        is_name(key.as_bytes())
    }
}
