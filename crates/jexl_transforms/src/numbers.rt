// The numbers that transforms take.
ghost use Rattle.std.specs.Prelude.{◌≡◌};
ghost use Rattle.jexl_value.specs.Value.{as_json};
ghost use Rattle.jexl_transforms.specs.Numbers.{bound_within, bound_of, from_zero, index_of};

use jexl_value::Value;

/// The whole number, where it is from `low` to 2^32 - 1.
pub(crate) fn bound_of(low: u32, value: &Value) -> Option<u32>
    ensures { result ≡ bound_of low (as_json value.now) }
{
    match value {
        Value::Whole(number) => bound_within(low, *number),
        _ => None,
    }
}

fn bound_within(low: u32, number: i64) -> Option<u32>
    ensures { result ≡ bound_within low number }
{
    if number >= i64::from(low) && number <= i64::from(u32::MAX) {
        Some(number as u32)
    } else {
        None
    }
}

/// The whole number, where it is from 0.
pub(crate) fn index_of(value: &Value) -> Option<usize>
    ensures { result ≡ index_of (as_json value.now) }
{
    match value {
        Value::Whole(number) => from_zero(*number),
        _ => None,
    }
}

fn from_zero(number: i64) -> Option<usize>
    ensures { result ≡ from_zero number }
{
    if number >= 0 {
        Some(number as usize)
    } else {
        None
    }
}
