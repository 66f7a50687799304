// Equality of values.
ghost use Rattle.std.specs.Prelude.{◌≡◌, ◌&&◌, bytes_eq};
ghost use Rattle.json_tree.specs.Json.{items_of, members_of};
ghost use Rattle.jexl_value.specs.Value.{as_json};
ghost use Rattle.json_tree.specs.Equal.{json_eq, items_eq, members_eq};

use crate::value::{NamedValues, Value, Values};
use sequences::Text;

/// Values are equal where they are one.
impl PartialEq for Value {
    ghost use Rattle.std.specs.Cmp.{partial_equiv_from_equiv};
    ghost use Rattle.jexl_value.specs.Equals.{value_equivalence};

    ghost eq = { λ left right. json_eq (as_json left) (as_json right) };

    ghost laws = { partial_equiv_from_equiv value_equivalence };

    fn eq(&self, other: &Value) -> bool {
        same(self, other)
    }
}

impl Eq for Value {
    ghost use Rattle.jexl_value.specs.Equals.{value_equivalence};

    ghost laws = { value_equivalence };
}

/// Whether the two are one value. Values of unlike kinds differ. It takes no memory.
#[cycle(same)]
pub fn same(left: &Value, right: &Value) -> bool
    ensures { result ≡ json_eq (as_json left.now) (as_json right.now) }
{
    match (left, right) {
        (Value::Null, Value::Null) => true,
        (Value::Truth(left), Value::Truth(right)) => left == right,
        (Value::Whole(left), Value::Whole(right)) => left == right,
        (Value::Text(left), Value::Text(right)) => left == right,
        (Value::List(left), Value::List(right)) => same_items(left, right),
        (Value::Object(left), Value::Object(right)) => same_members(left, right),
        _ => false,
    }
}

#[cycle(same)]
fn same_items(left: &Values, right: &Values) -> bool
    ensures { result ≡ items_eq (items_of left.now) (items_of right.now) }
{
    let left = left.as_slice();
    let right = right.as_slice();
    if left.len() != right.len() {
        return false;
    }
    for (one, other) in left.iter().zip(right) {
        if !same(one, other) {
            return false;
        }
    }
    true
}

#[cycle(same)]
fn same_members(left: &NamedValues, right: &NamedValues) -> bool
    ensures { result ≡ members_eq (members_of left.now) (members_of right.now) }
{
    let left = left.as_slice();
    let right = right.as_slice();
    if left.len() != right.len() {
        return false;
    }
    for (one, other) in left.iter().zip(right) {
        if !same_member(one, other) {
            return false;
        }
    }
    true
}

#[cycle(same)]
fn same_member(left: &(Text, Value), right: &(Text, Value)) -> bool
    ensures { result ≡ bytes_eq left.now.0 right.now.0 && json_eq (as_json left.now.1) (as_json right.now.1) }
{
    left.0 == right.0 && same(&left.1, &right.1)
}
