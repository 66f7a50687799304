// The text of a type.
ghost use Rattle.std.specs.Prelude.{◌≡◌, ◌++◌, IfOk, OnOk, string_bytes};
ghost use Rattle.fml_types.specs.Shapes.{key_of, shape_of};
ghost use Rattle.fml_imports.specs.Single.{key_text, type_text};

use fml_types::{FieldType, Key};
use sequences::Text;
use std::alloc::{AllocError, Global};

/// The text that spells the type, without spaces but one after the comma of a map.
pub(crate) fn type_text(alloc: Global, of: &FieldType) -> Result<Text, AllocError>
    ensures { IfOk result (λ t. t ≡ type_text (shape_of of.now)) }
{
    let mut text = String::new(alloc);
    push_type(&mut text, of)?;
    Ok(Text::from_string(text))
}

fn push_type(text: &mut String, of: &FieldType) -> Result<(), AllocError>
    ensures { OnOk result (string_bytes text.new ≡ string_bytes text.old ++ type_text (shape_of of.now)) }
{
    match of {
        FieldType::Boolean => text.push_str("Boolean"),
        FieldType::Int => text.push_str("Int"),
        FieldType::String => text.push_str("String"),
        FieldType::Text => text.push_str("Text"),
        FieldType::Image => text.push_str("Image"),
        FieldType::Option(inner) => {
            text.push_str("Option<")?;
            push_type(text, inner.get())?;
            text.push_str(">")
        }
        FieldType::List(inner) => {
            text.push_str("List<")?;
            push_type(text, inner.get())?;
            text.push_str(">")
        }
        FieldType::Map(key, inner) => {
            text.push_str("Map<")?;
            text.push_str(key_text(key))?;
            text.push_str(", ")?;
            push_type(text, inner.get())?;
            text.push_str(">")
        }
        FieldType::Named(name) => text.push_str(name.as_str()),
    }
}

fn key_text(key: &Key) -> &str
    ensures { result.now ≡ key_text (key_of key.now) }
{
    match key {
        Key::String => "String",
        Key::Named(name) => name.as_str(),
    }
}
