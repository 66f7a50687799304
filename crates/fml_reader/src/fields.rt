// Enums, objects and their fields.
ghost use Rattle.std.specs.Prelude.{◌≡◌, codes, option_map};
ghost use Rattle.json_tree.specs.Tree.{json_of};
ghost use Rattle.plain_text.specs.Names.{is_name};
ghost use Rattle.fml_reader.specs.Fields.{type_in, field_of, variant_of, some_there, enum_of, object_of};
ghost use Rattle.fml_reader.specs.Outcome.{Gives, needed, under};
ghost use Rattle.fml_reader.specs.Values.{is_key};
ghost use Rattle.fml_types.specs.Shapes.{type_from};
ghost use Rattle.fml_types.specs.TypeTexts.{spelled};

use crate::fault::{ModuleFault, bad, under};
use crate::values::{is_key, object_in};
use crate::walks::{Member, Part, optional, required};
use fml_types::{ByName, EnumDefinition, Field, FieldType, ObjectDefinition, TypeFault, read_type};
use json_tree::Tree;
use plain_text::is_name;
use std::alloc::Global;

/// The type that a text spells.
impl Part for FieldType {
    ghost said = { type_in };

    fn read(alloc: Global, tree: &Tree) -> Result<FieldType, ModuleFault> {
        match tree {
            Tree::Text(text) => type_of(alloc, text.as_str()),
            _ => Err(bad(alloc)),
        }
    }
}

#[tactic(auto, using(crate::proofs::Types::same_types))]
fn type_of(alloc: Global, text: &str) -> Result<FieldType, ModuleFault>
    ensures { Gives (λ t. t) result (needed (option_map type_from (spelled text.now))) }
{
    match read_type(alloc, text) {
        Ok(of) => Ok(of),
        Err(TypeFault::BadType) => Err(bad(alloc)),
        Err(TypeFault::OutOfMemory) => Err(ModuleFault::OutOfMemory),
    }
}

impl Part for Field {
    ghost said = { field_of };

    #[tactic(auto, unfolding(crate::specs::Fields::field_of))]
    fn read(alloc: Global, tree: &Tree) -> Result<Field, ModuleFault> {
        object_in(alloc, tree)?;
        let field_type = required(alloc, tree, "type")?;
        let default = optional(alloc, tree, "default", None)?;
        Ok(Field {
            field_type,
            default,
        })
    }
}

impl Member for Field {
    ghost takes = { is_key };

    fn takes(key: &str) -> bool {
        is_key(key)
    }
}

/// A variant. Nothing is asked of it but its key.
impl Part for () {
    ghost said = { variant_of };

    fn read(_alloc: Global, _tree: &Tree) -> Result<(), ModuleFault> {
        Ok(())
    }
}

impl Member for () {
    ghost takes = { is_key };

    fn takes(key: &str) -> bool {
        is_key(key)
    }
}

impl Part for EnumDefinition {
    ghost said = { enum_of };

    #[tactic(auto, unfolding(crate::specs::Fields::enum_of))]
    fn read(alloc: Global, tree: &Tree) -> Result<EnumDefinition, ModuleFault> {
        object_in(alloc, tree)?;
        let variants = required(alloc, tree, "variants")?;
        some_there(alloc, &variants)?;
        Ok(EnumDefinition { variants })
    }
}

/// At least one variant.
#[tactic(auto, using(crate::proofs::Unders::gives_under))]
fn some_there(alloc: Global, variants: &ByName<()>) -> Result<(), ModuleFault>
    ensures { Gives (λ u. u) result (under (codes "variants") (some_there variants.now)) }
{
    match variants.as_slice() {
        [] => under(alloc, "variants", Err(bad(alloc))),
        [..] => Ok(()),
    }
}

impl Member for EnumDefinition {
    ghost takes = { is_name };

    fn takes(key: &str) -> bool {
        is_name(key.as_bytes())
    }
}

impl Part for ObjectDefinition {
    ghost said = { object_of };

    #[tactic(auto, unfolding(crate::specs::Fields::object_of))]
    fn read(alloc: Global, tree: &Tree) -> Result<ObjectDefinition, ModuleFault> {
        object_in(alloc, tree)?;
        let fields = required(alloc, tree, "fields")?;
        Ok(ObjectDefinition { fields })
    }
}

impl Member for ObjectDefinition {
    ghost takes = { is_name };

    fn takes(key: &str) -> bool {
        is_name(key.as_bytes())
    }
}
