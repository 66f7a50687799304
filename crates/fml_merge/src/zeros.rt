// The zeros of types, and the initial values of fields.
ghost use Rattle.std.specs.Prelude.{◌≡◌, [], IfOk};
ghost use Rattle.fml_types.specs.Shapes.{shape_of};
ghost use Rattle.fml_value.specs.Typed as typed;
ghost use Rattle.fml_value.specs.TypedOf.{typed_of};
ghost use Rattle.fml_merge.specs.Laying.{zeros, value_of, initial_value, initial_values};
ghost use Rattle.fml_merge.specs.Zero.{least, object_zero};

use crate::laying::Layering;
use crate::parts::{Base, push_entry};
use fml_types::{ByName, EnumDefinition, Field, FieldType};
use fml_value::{Entries, Value, Values, takes};
use sequences::Text;
use std::alloc::{AllocError, Global};

impl<'a> Layering<'a> {
    /// The value itself, or the zero of the type, which is made.
    #[cycle(laying)]
    pub(crate) fn made(self, of: &FieldType, base: Base) -> Result<Value, AllocError>
        ensures { IfOk result (λ v. typed_of v ≡ value_of self.entry of.now base) }
    {
        match base {
            Base::Made(value) => Ok(value),
            Base::Zero(levels) => Layering { levels, ..self }.zero(of),
        }
    }

    /// The zero of a type.
    #[cycle(laying)]
    pub(crate) fn zero(self, of: &FieldType) -> Result<Value, AllocError>
        ensures { IfOk result (λ v. typed_of v ≡ zeros self.entry (shape_of of.now)) }
    {
        match of {
            FieldType::Boolean => Ok(Value::Truth(false)),
            FieldType::Int => Ok(Value::Whole(0)),
            FieldType::String => empty_text(self.alloc),
            FieldType::Text => empty_text(self.alloc),
            FieldType::Image => empty_text(self.alloc),
            FieldType::Option(_) => Ok(Value::Absent),
            FieldType::List(_) => Ok(Value::List(Values::new(self.alloc))),
            FieldType::Map(_, _) => Ok(Value::Map(Entries::new(self.alloc))),
            FieldType::Named(name) => match self.types.enums.get(name.as_str()) {
                Some(definition) => least_variant(self.alloc, definition),
                None => self.object_zero(name.as_str()),
            },
        }
    }

    // The zero of the object of this name.
    #[cycle(laying)]
    fn object_zero(self, name: &str) -> Result<Value, AllocError>
        ensures { IfOk result (λ v. typed_of v ≡ object_zero self.entry.types.now self.entry.levels name.now) }
    {
        let Some(object) = self.types.objects.get(name) else {
            return Ok(Value::Object(Entries::new(self.alloc)));
        };
        if self.levels == 0 {
            return Ok(Value::Object(Entries::new(self.alloc)));
        }
        let levels = self.levels - 1;
        let fields = Layering { levels, ..self }.initial(&object.fields)?;
        Ok(Value::Object(fields))
    }

    /// The fields of an object or the variables of a feature, before anything is laid over them.
    #[cycle(laying)]
    pub(crate) fn initial(self, fields: &ByName<Field>) -> Result<Entries, AllocError>
        ensures { IfOk result (λ es. es ≡ initial_values self.entry fields.now) }
    {
        let pairs = fields.as_slice();
        let mut entries = Entries::new(self.alloc);
        for (name, field) in pairs {
            let value = self.with_default(field)?;
            push_entry(&mut entries, name, value)?;
        }
        Ok(entries)
    }

    /// The default of a field, laid over the zero of its type.
    #[cycle(laying)]
    pub(crate) fn with_default(self, field: &Field) -> Result<Value, AllocError>
        ensures { IfOk result (λ v. typed_of v ≡ initial_value self.entry field.now) }
    {
        match &field.default {
            Some(tree) if takes(self.types, &field.field_type, tree) => {
                self.lay_over_zero(&field.field_type, tree)
            }
            _ => self.zero(&field.field_type),
        }
    }
}

fn empty_text(alloc: Global) -> Result<Value, AllocError>
    ensures { IfOk result (λ v. typed_of v ≡ typed.text []) }
{
    Ok(Value::Text(Text::new(alloc, "")?))
}

fn least_variant(alloc: Global, definition: &EnumDefinition) -> Result<Value, AllocError>
    ensures { IfOk result (λ v. typed_of v ≡ typed.variant (least definition.now.variants)) }
{
    match definition.variants.as_slice().first() {
        Some((name, _)) => Ok(Value::Variant(name.clone()?)),
        None => Ok(Value::Variant(Text::new(alloc, "")?)),
    }
}
