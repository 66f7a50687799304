// The attributes that an application adds.
ghost use Rattle.std.specs.Prelude.{◌≡◌, ◌++◌, ◌∷◌, [], IfOk, OnOk};
ghost use Rattle.json_tree.specs.Json.{IsAbove};
ghost use Rattle.json_tree.specs.Tree.{json_of};
ghost use Rattle.app_context.specs.Attributes.{custom_attributes, is_table_name, is_text_name, is_other_name};

use crate::key::TEXT_KEYS;
use jexl_value::{NamedValues, value_of};
use json_tree::{Members, Tree};
use sequences::Text;
use std::alloc::{AllocError, Global};

/// The custom attributes that have none of the table's names.
pub(crate) fn custom_attributes(alloc: Global, custom: &Members) -> Result<NamedValues, AllocError>
    ensures { IfOk result (λ ms. ms ≡ custom_attributes custom.now) }
{
    let members = custom.as_slice();
    let mut kept = NamedValues::new(alloc);
    for (name, tree) in members {
        push_custom(alloc, &mut kept, name, tree)?;
    }
    Ok(kept)
}

#[tactic(auto, unfolding(crate::specs::Attributes::custom_attributes))]
fn push_custom(
    alloc: Global,
    kept: &mut NamedValues,
    name: &Text,
    tree: &Tree,
) -> Result<(), AllocError>
    requires { IsAbove name.now kept.old }
    ensures { OnOk result (kept.new ≡ kept.old ++ custom_attributes ((name.now, json_of tree.now) ∷ [])) }
{
    if !is_table_name(name.as_str()) {
        kept.push(name.clone()?, value_of(alloc, tree)?)?;
    }
    Ok(())
}

/// Whether it is a name of the table.
fn is_table_name(name: &str) -> bool
    ensures { result ≡ is_table_name name.now }
{
    is_text_name(name) || is_other_name(name)
}

/// Whether it is the name of a text of the context.
fn is_text_name(name: &str) -> bool
    ensures { result ≡ is_text_name name.now }
{
    TEXT_KEYS.iter().any(|key| name == key.name())
}

/// Whether it is another name of the table.
fn is_other_name(name: &str) -> bool
    ensures { result ≡ is_other_name name.now }
{
    name == "language"
        || name == "region"
        || name == "nimbus_id"
        || name == "current_date"
        || name == "days_since_install"
        || name == "days_since_update"
        || name == "active_experiments"
        || name == "enrollments"
        || name == "enrollments_map"
        || name == "is_already_enrolled"
}
