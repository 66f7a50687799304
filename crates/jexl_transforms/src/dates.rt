// The seconds of a moment.
ghost use Rattle.std.specs.Prelude.{◌≢◌, map};
ghost use Rattle.jexl_value.specs.Value.{as_json};
ghost use Rattle.jexl_transforms.specs.Meaning.{date_value};
ghost use Rattle.jexl_transforms.specs.Answering.{Answers};

use crate::answer::TransformAnswer;
use jexl_value::{Attributes, Value};
use plain_text::read_moment;

/// `date`: the seconds from 1970-01-01T00:00:00Z of the moment that the subject, a text, is, with no
/// arguments. Other subjects and arguments are refused. It takes no memory.
pub fn date_transform(
    _attributes: &Attributes,
    subject: &Value,
    arguments: &[Value],
) -> TransformAnswer
    ensures value { Answers (date_value (as_json subject.now) (map as_json arguments.now)) result }
    ensures memory { result ≢ TransformAnswer.OutOfMemory }
{
    if !arguments.is_empty() {
        return TransformAnswer::Refused;
    }
    match subject {
        Value::Text(written) => match read_moment(written.as_str().as_bytes()) {
            Some(seconds) => TransformAnswer::Gives(Value::Whole(seconds)),
            None => TransformAnswer::Refused,
        },
        _ => TransformAnswer::Refused,
    }
}
