// Copies of values, each equal to what it is a copy of.
ghost use Rattle.std.specs.Prelude.{◌≡◌, IfOk};
ghost use Rattle.jexl_value.specs.Value.{as_json};

use crate::value::{NamedValues, Value, Values};
use std::alloc::AllocError;

impl Clone for Value {
    ghost is_clone = { λ v w. w ≡ v };

    fn clone(&self) -> Result<Value, AllocError> {
        copy(self)
    }
}

#[cycle(copy)]
fn copy(value: &Value) -> Result<Value, AllocError>
    ensures { IfOk result (λ v. v ≡ value.now) }
{
    match value {
        Value::Null => Ok(Value::Null),
        Value::Truth(truth) => Ok(Value::Truth(*truth)),
        Value::Whole(whole) => Ok(Value::Whole(*whole)),
        Value::Text(text) => Ok(Value::Text(text.clone()?)),
        Value::List(items) => Ok(Value::List(copy_items(items)?)),
        Value::Object(members) => Ok(Value::Object(copy_members(members)?)),
    }
}

#[cycle(copy)]
fn copy_items(items: &Values) -> Result<Values, AllocError>
    ensures { IfOk result (λ xs. xs ≡ items.now) }
{
    let values = items.as_slice();
    let mut copies = Values::new(items.allocator());
    for value in values {
        copies.push(copy(value)?)?;
    }
    Ok(copies)
}

#[cycle(copy)]
fn copy_members(members: &NamedValues) -> Result<NamedValues, AllocError>
    ensures { IfOk result (λ ms. ms ≡ members.now) }
{
    let pairs = members.as_slice();
    let mut copies = NamedValues::new(members.allocator());
    for (name, value) in pairs {
        copies.push(name.clone()?, copy(value)?)?;
    }
    Ok(copies)
}
