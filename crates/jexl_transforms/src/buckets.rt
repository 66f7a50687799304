// Whether the point of a value is in a range of buckets.
ghost use Rattle.std.specs.Prelude.{◌≡◌, ◌<◌, ◌^◌, map, IfOk, IfSome};
ghost use Rattle.json_tree.specs.Bytes.{text_of};
ghost use Rattle.sampling.specs.Sampling.{point_of};
ghost use Rattle.jexl_value.specs.Value.{as_json};
ghost use Rattle.jexl_transforms.specs.Meaning.{range_of, holds_point, bucket_value};
ghost use Rattle.jexl_transforms.specs.Answering.{Answers};

use crate::answer::TransformAnswer;
use crate::numbers::bound_of;
use crate::range::Range;
use jexl_value::{Attributes, Value, tree_of};
use json_tree::write;
use sampling::{in_bucket, point};
use std::alloc::{AllocError, Global};

/// `bucketSample`: whether the point of the subject, any value, is in a range of buckets.
///
/// The arguments are the range's start, how many buckets it has, and how many there are in all: three
/// whole numbers from 0 to 2^32 - 1, the last from 1. Other arguments are refused. The point is that
/// of the subject's compact JSON text. It takes memory for that text alone.
pub fn bucket_transform(
    alloc: Global,
    _attributes: &Attributes,
    subject: &Value,
    arguments: &[Value],
) -> TransformAnswer
    ensures { Answers (bucket_value (as_json subject.now) (map as_json arguments.now)) result }
{
    let Some(range) = range_of(arguments) else {
        return TransformAnswer::Refused;
    };
    match point_of(alloc, subject) {
        Ok(point) => TransformAnswer::Gives(Value::Truth(is_in_range(point, range))),
        Err(_) => TransformAnswer::OutOfMemory,
    }
}

// The range that the arguments are.
fn range_of(arguments: &[Value]) -> Option<Range>
    ensures value { result ≡ range_of (map as_json arguments.now) }
    ensures total { IfSome result (λ range. 0 < range.total) }
{
    match arguments {
        [start, count, total] => Some(Range {
            start: bound_of(0, start)?,
            count: bound_of(0, count)?,
            total: bound_of(1, total)?,
        }),
        _ => None,
    }
}

// The point of a value's compact JSON text.
fn point_of(alloc: Global, value: &Value) -> Result<u64, AllocError>
    ensures point { IfOk result (λ p. p ≡ point_of (text_of (as_json value.now))) }
    ensures below { IfOk result (λ p. p < 2 ^ 48) }
{
    let tree = tree_of(alloc, value)?;
    let text = write(alloc, &tree)?;
    Ok(point(text.as_str().as_bytes()))
}

fn is_in_range(point: u64, range: Range) -> bool
    requires point { point < 2 ^ 48 }
    requires total { 0 < range.total }
    ensures { result ≡ holds_point range point }
{
    in_bucket(point, range.start, range.count, range.total)
}
