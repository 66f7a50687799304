// Which values count as true, and which of two comes first.
ghost use Rattle.std.specs.Prelude.{◌≡◌};
ghost use Rattle.jexl_value.specs.Meaning.{is_truthy, order_of};
ghost use Rattle.jexl_value.specs.Value.{as_json};

use crate::value::Value;
use std::cmp::Ordering;

/// Whether the value counts as true: all do but null, false, 0 and the empty text. It takes no
/// memory.
pub fn truthy(value: &Value) -> bool
    ensures { result ≡ is_truthy (as_json value.now) }
{
    match value {
        Value::Null => false,
        Value::Truth(truth) => *truth,
        Value::Whole(whole) => *whole != 0,
        Value::Text(text) => !text.as_str().is_empty(),
        Value::List(_) | Value::Object(_) => true,
    }
}

/// The order of two numbers, or of two texts by their bytes, and none for other values. It takes no
/// memory.
pub fn order(left: &Value, right: &Value) -> Option<Ordering>
    ensures { result ≡ order_of (as_json left.now) (as_json right.now) }
{
    match (left, right) {
        (Value::Whole(left), Value::Whole(right)) => Some(left.cmp(right)),
        (Value::Text(left), Value::Text(right)) => Some(left.as_str().cmp(right.as_str())),
        _ => None,
    }
}
