// What an operator makes of two values.
ghost use Rattle.std.specs.Prelude.{◌≡◌, ◌++◌, map, IfOk};
ghost use Rattle.json_tree.specs.Json.{items_of};
ghost use Rattle.jexl_value.specs.Value.{as_json};
ghost use Rattle.jexl_eval.specs.Gives.{Gives};
ghost use Rattle.jexl_eval.specs.Seen.{found_as_json};
ghost use Rattle.jexl_eval.specs.Operations.{decided, operate, is_less, is_at_most, calculated, of_wholes, plus, filter_items};

use crate::arithmetic::{difference, power, product, quotient, remainder, sum};
use crate::elements::inside;
use crate::fault::EvalFault;
use crate::found::{Found, truth};
use jexl_parser::BinarySign;
use jexl_value::{Text, Value, order, same, truthy};
use std::alloc::{AllocError, Global};
use std::cmp::Ordering;

/// The truth that the left side of an operator decides alone.
pub(crate) fn decided(sign: BinarySign, left: &Value) -> Option<bool>
    ensures { result ≡ decided sign (as_json left.now) }
{
    match sign {
        BinarySign::And => { if truthy(left) { None } else { Some(false) } }
        BinarySign::Or => { if truthy(left) { Some(true) } else { None } }
        _ => None,
    }
}

/// What an operator makes of two values. The left side of `&&` and `||` hasn't decided.
pub(crate) fn operate<'a>(
    alloc: Global,
    sign: BinarySign,
    left: Found<'a>,
    right: &Value,
) -> Result<Found<'a>, EvalFault>
    ensures { Gives found_as_json result (operate sign (found_as_json left.entry) (as_json right.now)) }
{
    match sign {
        BinarySign::And => Ok(truth(truthy(right))),
        BinarySign::Or => Ok(truth(truthy(right))),
        BinarySign::Equal => Ok(truth(same(left.value(), right))),
        BinarySign::NotEqual => Ok(truth(!same(left.value(), right))),
        BinarySign::Less => Ok(truth(is_less(order(left.value(), right)))),
        BinarySign::AtMost => Ok(truth(is_at_most(order(left.value(), right)))),
        BinarySign::Greater => Ok(truth(is_less(order(right, left.value())))),
        BinarySign::AtLeast => Ok(truth(is_at_most(order(right, left.value())))),
        BinarySign::Inside => Ok(truth(inside(left.value(), right))),
        BinarySign::Plus => plus(alloc, left, right),
        BinarySign::Minus => of_wholes(sign, left.value(), right),
        BinarySign::Times => of_wholes(sign, left.value(), right),
        BinarySign::FloorDiv => of_wholes(sign, left.value(), right),
        BinarySign::Percent => of_wholes(sign, left.value(), right),
        BinarySign::Power => of_wholes(sign, left.value(), right),
    }
}

fn is_less(order: Option<Ordering>) -> bool
    ensures { result ≡ is_less order }
{
    match order {
        Some(Ordering::Less) => true,
        _ => false,
    }
}

fn is_at_most(order: Option<Ordering>) -> bool
    ensures { result ≡ is_at_most order }
{
    match order {
        Some(Ordering::Less) => true,
        Some(Ordering::Equal) => true,
        _ => false,
    }
}

// The sum of two whole numbers, or two texts joined.
fn plus<'a>(alloc: Global, left: Found<'a>, right: &Value) -> Result<Found<'a>, EvalFault>
    ensures { Gives found_as_json result (plus (found_as_json left.entry) (as_json right.now)) }
{
    match left {
        Found::Borrowed(left) => plus_borrowed(alloc, left, right),
        Found::Owned(left) => plus_owned(left, right),
        Found::Shared(left) => plus_borrowed(alloc, left.as_ref(), right),
    }
}

// The left text stays as it is.
fn plus_borrowed<'a>(alloc: Global, left: &Value, right: &Value) -> Result<Found<'a>, EvalFault>
    ensures { Gives found_as_json result (plus (as_json left.now) (as_json right.now)) }
{
    match (left, right) {
        (Value::Text(left), Value::Text(right)) => {
            let text = joined(alloc, left.as_str(), right.as_str())?;
            Ok(Found::Owned(Value::Text(text)))
        }
        _ => of_wholes(BinarySign::Plus, left, right),
    }
}

// The right text is put onto the left one.
fn plus_owned<'a>(left: Value, right: &Value) -> Result<Found<'a>, EvalFault>
    ensures { Gives found_as_json result (plus (as_json left) (as_json right.now)) }
{
    match left {
        Value::Text(left) => match right {
            Value::Text(right) => Ok(Found::Owned(Value::Text(extended(left, right.as_str())?))),
            _ => Err(EvalFault::Kind),
        },
        left => of_wholes(BinarySign::Plus, &left, right),
    }
}

// An operation on two whole numbers.
fn of_wholes<'a>(sign: BinarySign, left: &Value, right: &Value) -> Result<Found<'a>, EvalFault>
    ensures { Gives found_as_json result (of_wholes sign (as_json left.now) (as_json right.now)) }
{
    match (left, right) {
        (Value::Whole(left), Value::Whole(right)) => {
            Ok(Found::Owned(Value::Whole(calculated(sign, *left, *right)?)))
        }
        _ => Err(EvalFault::Kind),
    }
}

fn calculated(sign: BinarySign, left: i64, right: i64) -> Result<i64, EvalFault>
    ensures { Gives (λ n. n) result (calculated sign left right) }
{
    match sign {
        BinarySign::Plus => sum(left, right),
        BinarySign::Minus => difference(left, right),
        BinarySign::Times => product(left, right),
        BinarySign::FloorDiv => quotient(left, right),
        BinarySign::Percent => remainder(left, right),
        BinarySign::Power => power(left, right),
        _ => Err(EvalFault::Kind),
    }
}

fn joined(alloc: Global, left: &str, right: &str) -> Result<Text, AllocError>
    ensures { IfOk result (λ t. t ≡ left.now ++ right.now) }
{
    let mut text = String::from_str(alloc, left)?;
    text.push_str(right)?;
    Ok(Text::from_string(text))
}

fn extended(left: Text, right: &str) -> Result<Text, AllocError>
    ensures { IfOk result (λ t. t ≡ left ++ right.now) }
{
    let mut text = left.into_string();
    text.push_str(right)?;
    Ok(Text::from_string(text))
}

/// The items that a filter goes over: those of a list, and none for null. It takes no memory.
pub(crate) fn filter_items(value: &Value) -> Result<&[Value], EvalFault>
    ensures { Gives (λ v. items_of (map as_json v.now)) result (filter_items (as_json value.now)) }
{
    match value {
        Value::List(items) => Ok(items.as_slice()),
        Value::Null => Ok(&[]),
        _ => Err(EvalFault::Kind),
    }
}
