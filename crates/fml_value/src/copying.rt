// Copies of values, each equal to what it is a copy of.
ghost use Rattle.std.specs.Prelude.{◌≡◌, IfOk};
ghost use Rattle.fml_value.specs.TypedOf.{typed_of};

use crate::value::{Entries, InnerValue, Value, Values};
use std::alloc::AllocError;

impl Clone for Value {
    ghost is_clone = { λ v w. w ≡ v };

    fn clone(&self) -> Result<Value, AllocError> {
        copy(self)
    }
}

#[cycle(copy)]
fn copy(value: &Value) -> Result<Value, AllocError>
    ensures { IfOk result (λ v. v ≡ value.now) }
{
    match value {
        Value::Truth(truth) => Ok(Value::Truth(*truth)),
        Value::Whole(whole) => Ok(Value::Whole(*whole)),
        Value::Text(text) => Ok(Value::Text(text.clone()?)),
        Value::Absent => Ok(Value::Absent),
        Value::Present(inner) => Ok(Value::Present(copy_inner(inner)?)),
        Value::List(items) => Ok(Value::List(copy_items(items)?)),
        Value::Map(entries) => Ok(Value::Map(copy_entries(entries)?)),
        Value::Variant(name) => Ok(Value::Variant(name.clone()?)),
        Value::Object(fields) => Ok(Value::Object(copy_entries(fields)?)),
    }
}

#[cycle(copy)]
fn copy_inner(inner: &InnerValue) -> Result<InnerValue, AllocError>
    ensures { IfOk result (λ v. v ≡ inner.now) }
{
    InnerValue::new(inner.allocator(), copy(inner.get())?)
}

#[cycle(copy)]
fn copy_items(items: &Values) -> Result<Values, AllocError>
    ensures { IfOk result (λ vs. vs ≡ items.now) }
{
    let values = items.as_slice();
    let mut copies = Values::new(items.allocator());
    for value in values {
        copies.push(copy(value)?)?;
    }
    Ok(copies)
}

#[cycle(copy)]
fn copy_entries(entries: &Entries) -> Result<Entries, AllocError>
    ensures { IfOk result (λ es. es ≡ entries.now) }
{
    let pairs = entries.as_slice();
    let mut copies = Entries::new(entries.allocator());
    for (name, value) in pairs {
        copies.push(name.clone()?, copy(value)?)?;
    }
    Ok(copies)
}
