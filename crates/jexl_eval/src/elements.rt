// What stands in a value: members, items, texts in texts.
ghost use Rattle.std.specs.Prelude.{◌≡◌, Ok, option_map};
ghost use Rattle.json_tree.specs.Json.{list, whole, items_of};
ghost use Rattle.jexl_value.specs.Value.{as_json};
ghost use Rattle.jexl_eval.specs.Gives.{Gives};
ghost use Rattle.jexl_eval.specs.Seen.{found_as_json};
ghost use Rattle.jexl_eval.specs.Elements.{or_null, member, index, item_at, is_item, is_inside, occurs};

use crate::fault::EvalFault;
use crate::found::Found;
use jexl_value::{Value, Values, same};
use memchr::memmem;

/// The value that was found, or null. It takes no memory.
pub(crate) fn value_or_null(found: Option<&Value>) -> Found<'_>
    ensures { found_as_json result ≡ or_null (option_map (λ x. as_json x.now) found.entry) }
{
    match found {
        Some(value) => Found::Borrowed(value),
        None => Found::Owned(Value::Null),
    }
}

/// The object's member of this name; null where there is none, and for every other kind. It takes no
/// memory.
pub(crate) fn member_of<'a>(value: &'a Value, name: &str) -> Found<'a>
    ensures { found_as_json result ≡ member name.now (as_json value.now) }
{
    match value {
        Value::Object(members) => value_or_null(members.get(name)),
        _ => Found::Owned(Value::Null),
    }
}

/// The member of what was found, which is copied unless it is borrowed.
pub(crate) fn member<'a>(found: Found<'a>, name: &str) -> Result<Found<'a>, EvalFault>
    ensures { Gives found_as_json result (Ok (member name.now (found_as_json found.entry))) }
{
    match found {
        Found::Borrowed(value) => Ok(member_of(value, name)),
        Found::Owned(value) => Ok(Found::Owned(member_of(&value, name).into_value()?)),
        Found::Shared(value) => {
            let member = member_of(value.as_ref(), name);
            Ok(Found::Owned(member.into_value()?))
        }
    }
}

/// An object's member by a text, a list's item by its place from 0, else null. It takes no memory.
fn part_at<'a>(value: &'a Value, key: &Value) -> Found<'a>
    ensures { found_as_json result ≡ index (as_json value.now) (as_json key.now) }
{
    match (value, key) {
        (Value::Object(members), Value::Text(name)) => value_or_null(members.get(name.as_str())),
        (Value::List(items), Value::Whole(place)) => item(items, *place),
        _ => Found::Owned(Value::Null),
    }
}

/// The part of what was found at a key, which is copied unless it is borrowed.
pub(crate) fn index<'a>(found: Found<'a>, key: &Value) -> Result<Found<'a>, EvalFault>
    ensures { Gives found_as_json result (Ok (index (found_as_json found.entry) (as_json key.now))) }
{
    match found {
        Found::Borrowed(value) => Ok(part_at(value, key)),
        Found::Owned(value) => Ok(Found::Owned(part_at(&value, key).into_value()?)),
        Found::Shared(value) => {
            let part = part_at(value.as_ref(), key);
            Ok(Found::Owned(part.into_value()?))
        }
    }
}

fn item(items: &Values, place: i64) -> Found<'_>
    ensures { found_as_json result ≡ index (list (items_of items.now)) (whole place) }
{
    if place < 0 {
        Found::Owned(Value::Null)
    } else {
        value_or_null(item_at(items, place as usize))
    }
}

fn item_at(items: &Values, place: usize) -> Option<&Value>
    ensures { option_map (λ v. as_json v.now) result ≡ item_at place (items_of items.now) }
{
    let values = items.as_slice();
    values.get(place)
}

/// Whether the left value is an item of the list, a part of the text or a name of the object that the
/// right one is. It takes no memory.
pub(crate) fn inside(left: &Value, right: &Value) -> bool
    ensures { result ≡ is_inside (as_json left.now) (as_json right.now) }
{
    match (left, right) {
        (_, Value::List(items)) => is_item(left, items),
        (Value::Text(part), Value::Text(text)) => occurs(part.as_str(), text.as_str()),
        (Value::Text(name), Value::Object(members)) => members.get(name.as_str()).is_some(),
        _ => false,
    }
}

#[tactic(auto, using(crate::proofs::Walking::item_turn))]
fn is_item(value: &Value, items: &Values) -> bool
    ensures { result ≡ is_item (as_json value.now) (items_of items.now) }
{
    let values = items.as_slice();
    for item in values {
        if same(value, item) {
            return true;
        }
    }
    false
}

fn occurs(part: &str, text: &str) -> bool
    ensures { result ≡ occurs part.now text.now }
{
    memmem::find(text.as_bytes(), part.as_bytes()).is_some()
}
