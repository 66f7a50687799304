// A value that lies in the attributes or in an item, one that was built, or one that is kept.
ghost use Rattle.std.specs.Prelude.{◌≡◌, not, IfOk};
ghost use Rattle.json_tree.specs.Json as json;
ghost use Rattle.jexl_value.specs.Meaning.{is_truthy};
ghost use Rattle.jexl_value.specs.Value.{as_json};
ghost use Rattle.jexl_eval.specs.Seen.{found_as_json};

use jexl_value::{NamedValues, Value, Values, truthy};
use std::alloc::{AllocError, Global};
use std::rc::Rc;

/// A value that lies in the attributes or in an item, one that was built, or one that is kept.
#[derive(Drop)]
pub(crate) enum Found<'a> {
    Borrowed(&'a Value),
    Owned(Value),
    Shared(Rc<Value>),
}

impl<'a> Found<'a> {
    /// The value. It takes no memory.
    pub(crate) fn value(&self) -> &Value
        ensures { as_json result.now ≡ found_as_json self.now }
    {
        match self {
            Found::Borrowed(value) => value,
            Found::Owned(value) => value,
            Found::Shared(value) => value.as_ref(),
        }
    }

    /// The value, which is copied where it is borrowed or kept.
    pub(crate) fn into_value(self) -> Result<Value, AllocError>
        ensures { IfOk result (λ v. as_json v ≡ found_as_json self.entry) }
    {
        match self {
            Found::Borrowed(value) => value.clone(),
            Found::Owned(value) => Ok(value),
            Found::Shared(value) => value.as_ref().clone(),
        }
    }

    /// The value to be kept, which is copied where it is borrowed.
    pub(crate) fn into_shared(self, alloc: Global) -> Result<Rc<Value>, AllocError>
        ensures { IfOk result (λ r. as_json r.value ≡ found_as_json self.entry) }
    {
        match self {
            Found::Borrowed(value) => Ok(Rc::new(alloc, value.clone()?)?),
            Found::Owned(value) => Ok(Rc::new(alloc, value)?),
            Found::Shared(value) => Ok(value),
        }
    }
}

/// A truth value that was built. It takes no memory.
pub(crate) fn truth<'a>(truth: bool) -> Found<'a>
    ensures { found_as_json result ≡ json.truth truth }
{
    Found::Owned(Value::Truth(truth))
}

/// The opposite of what a value counts as. It takes no memory.
pub(crate) fn opposite<'a>(value: Found<'a>) -> Found<'a>
    ensures { found_as_json result ≡ json.truth (not (is_truthy (found_as_json value.entry))) }
{
    truth(!truthy(value.value()))
}

/// A list that was built. It takes no memory.
pub(crate) fn list<'a>(values: Values) -> Found<'a>
    ensures { found_as_json result ≡ json.list (json.items_of values) }
{
    Found::Owned(Value::List(values))
}

/// An object that was built. It takes no memory.
pub(crate) fn object<'a>(members: NamedValues) -> Found<'a>
    ensures { found_as_json result ≡ json.object (json.members_of members) }
{
    Found::Owned(Value::Object(members))
}
