// The order of two versions as a number.
ghost use Rattle.std.specs.Prelude.{◌≢◌, map};
ghost use Rattle.jexl_value.specs.Value.{as_json};
ghost use Rattle.jexl_transforms.specs.Meaning.{version_value};
ghost use Rattle.jexl_transforms.specs.Answering.{Answers};

use crate::answer::TransformAnswer;
use jexl_value::{Attributes, Value};
use std::cmp::Ordering;
use version_compare::compare;

/// `versionCompare`: -1, 0 or 1 as the version that the subject is comes before the version that the
/// one argument is, is equal to it, or comes after it, in the order of the toolkit version format. Each
/// is a text. Other subjects and arguments are refused. It takes no memory.
pub fn version_transform(
    _attributes: &Attributes,
    subject: &Value,
    arguments: &[Value],
) -> TransformAnswer
    ensures value { Answers (version_value (as_json subject.now) (map as_json arguments.now)) result }
    ensures memory { result ≢ TransformAnswer.OutOfMemory }
{
    match (subject, arguments) {
        (Value::Text(version), [Value::Text(other)]) => {
            let order = match compare(version.as_str(), other.as_str()) {
                Ordering::Less => -1,
                Ordering::Equal => 0,
                Ordering::Greater => 1,
            };
            TransformAnswer::Gives(Value::Whole(order))
        }
        _ => TransformAnswer::Refused,
    }
}
