// What the counts of an event say of it.
ghost use Rattle.std.specs.Prelude.{◌≡◌, ◌≢◌, ◌≤◌, length, map, drop, take, option_map, IfSome};
ghost use Rattle.json_tree.specs.Json.{text, members_of};
ghost use Rattle.jexl_value.specs.Value.{as_json};
ghost use Rattle.jexl_transforms.specs.Answering.{Answers};
ghost use Rattle.jexl_transforms.specs.Events.{event_sum_value, event_nonzero_value, event_seen_value, asked_counts, counts_from, counts_in, last_seen, index_json};

use crate::answer::TransformAnswer;
use crate::counts::{counted, counts_of, first, is_interval, rest, seen_from, sum_of};
use crate::numbers::index_of;
use jexl_value::{Attributes, Value};

/// `eventSum`: the sum of counts of the event that the subject is, a text, in an interval.
///
/// The arguments are the interval, one of the texts `Hours`, `Days` and `Weeks`, how many counts, and
/// the index of the first, which may be left out and is then 0: whole numbers from 0. Other subjects
/// and arguments are refused. The counts are the first 72 items of the list that the attribute
/// `event_counts` has under the event and the interval, newest first. What isn't there counts as 0, and
/// an item that isn't a whole number from 0 to 2^32 - 1 too. It takes no memory.
pub fn event_sum_transform(
    attributes: &Attributes,
    subject: &Value,
    arguments: &[Value],
) -> TransformAnswer
    ensures value { Answers (event_sum_value (members_of attributes.now.pairs) (as_json subject.now) (map as_json arguments.now)) result }
    ensures memory { result ≢ TransformAnswer.OutOfMemory }
{
    match asked_counts(attributes, subject, arguments) {
        Some(counts) => TransformAnswer::Gives(Value::Whole(sum_of(counts) as i64)),
        None => TransformAnswer::Refused,
    }
}

/// `eventCountNonZero`: how many counts of the event are above 0, for the subject and the arguments of
/// `event_sum_transform`. It takes no memory.
pub fn event_nonzero_transform(
    attributes: &Attributes,
    subject: &Value,
    arguments: &[Value],
) -> TransformAnswer
    ensures value { Answers (event_nonzero_value (members_of attributes.now.pairs) (as_json subject.now) (map as_json arguments.now)) result }
    ensures memory { result ≢ TransformAnswer.OutOfMemory }
{
    match asked_counts(attributes, subject, arguments) {
        Some(counts) => TransformAnswer::Gives(Value::Whole(counted(counts) as i64)),
        None => TransformAnswer::Refused,
    }
}

/// `eventLastSeen`: the least index from one on at which the count of the event is above 0, and null
/// where there is none.
///
/// The arguments are the interval, and the index from which on is looked, which may be left out and is
/// then 0. All else is as in `event_sum_transform`. It takes no memory.
pub fn event_seen_transform(
    attributes: &Attributes,
    subject: &Value,
    arguments: &[Value],
) -> TransformAnswer
    ensures value { Answers (event_seen_value (members_of attributes.now.pairs) (as_json subject.now) (map as_json arguments.now)) result }
    ensures memory { result ≢ TransformAnswer.OutOfMemory }
{
    match last_seen_of(attributes, subject, arguments) {
        Some(index) => TransformAnswer::Gives(index),
        None => TransformAnswer::Refused,
    }
}

// The counts that the subject and the arguments ask for, up to the end of the list.
fn asked_counts<'a>(
    attributes: &'a Attributes,
    subject: &Value,
    arguments: &[Value],
) -> Option<&'a [Value]>
    ensures counts { option_map (λ vs. map as_json vs.now) result ≡ asked_counts (members_of attributes.now.pairs) (as_json subject.now) (map as_json arguments.now) }
    ensures few { IfSome result (λ vs. length vs.now ≤ 72) }
{
    match arguments {
        [interval, number] => counts_from(attributes, subject, interval, number, 0),
        [interval, number, from] => {
            counts_from(attributes, subject, interval, number, index_of(from)?)
        }
        _ => None,
    }
}

#[tactic(auto, using(crate::proofs::SeenCounts::part_seen_as))]
fn counts_from<'a>(
    attributes: &'a Attributes,
    subject: &Value,
    interval: &Value,
    number: &Value,
    from: usize,
) -> Option<&'a [Value]>
    ensures counts { option_map (λ vs. map as_json vs.now) result ≡ counts_from (members_of attributes.now.pairs) (as_json subject.now) (as_json interval.now) (as_json number.now) from }
    ensures few { IfSome result (λ vs. length vs.now ≤ 72) }
{
    let counts = counts_in(attributes, subject, interval)?;
    Some(part_of(counts, from, index_of(number)?))
}

// So many counts from an index on, as far as they are there.
fn part_of(counts: &[Value], from: usize, number: usize) -> &[Value]
    ensures part { result.now ≡ take number (drop from counts.now) }
    ensures within { length result.now ≤ length counts.now }
{
    first(rest(counts, from), number)
}

// The counts of an event in an interval.
fn counts_in<'a>(
    attributes: &'a Attributes,
    subject: &Value,
    interval: &Value,
) -> Option<&'a [Value]>
    ensures counts { option_map (λ vs. map as_json vs.now) result ≡ counts_in (members_of attributes.now.pairs) (as_json subject.now) (as_json interval.now) }
    ensures few { IfSome result (λ vs. length vs.now ≤ 72) }
{
    match (subject, interval) {
        (Value::Text(event), Value::Text(interval)) => {
            counts_at(attributes, event.as_str(), interval.as_str())
        }
        _ => None,
    }
}

fn counts_at<'a>(attributes: &'a Attributes, event: &str, interval: &str) -> Option<&'a [Value]>
    ensures counts { option_map (λ vs. map as_json vs.now) result ≡ counts_in (members_of attributes.now.pairs) (text event.now) (text interval.now) }
    ensures few { IfSome result (λ vs. length vs.now ≤ 72) }
{
    if is_interval(interval) {
        Some(counts_of(attributes, event, interval))
    } else {
        None
    }
}

// The value of `eventLastSeen`.
fn last_seen_of(attributes: &Attributes, subject: &Value, arguments: &[Value]) -> Option<Value>
    ensures { option_map as_json result ≡ event_seen_value (members_of attributes.now.pairs) (as_json subject.now) (map as_json arguments.now) }
{
    match arguments {
        [] => None,
        [interval] => last_seen(attributes, subject, interval, 0),
        [interval, from] => last_seen(attributes, subject, interval, index_of(from)?),
        _ => None,
    }
}

fn last_seen(
    attributes: &Attributes,
    subject: &Value,
    interval: &Value,
    from: usize,
) -> Option<Value>
    ensures { option_map as_json result ≡ last_seen (members_of attributes.now.pairs) (as_json subject.now) (as_json interval.now) from }
{
    let counts = counts_in(attributes, subject, interval)?;
    match seen_from(from, counts) {
        Some(index) => Some(Value::Whole(index as i64)),
        None => Some(Value::Null),
    }
}
