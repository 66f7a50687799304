// The counts of an event in an interval, newest first, as the attributes have them.
ghost use Rattle.std.specs.Prelude.{◌≡◌, ◌<◌, ◌≤◌, ◌*◌, length, map, sum_by, count_by, take, drop, position, option_map, IfSome, if◌then◌else◌};
ghost use Rattle.json_tree.specs.Json.{get, members_of};
ghost use Rattle.jexl_value.specs.Value.{as_json};
ghost use Rattle.jexl_transforms.specs.Events.{is_interval, kept_of, items_in, counts_of, count, is_counted, seen_from};

use crate::numbers::bound_of;
use jexl_value::{Attributes, Value};

/// How many counts of a list are looked at.
const MOST_COUNTS: usize = 72;

/// Whether it is the name of an interval in which events are counted.
pub(crate) fn is_interval(name: &str) -> bool
    ensures { result ≡ is_interval name.now }
{
    name == "Hours" || name == "Days" || name == "Weeks"
}

/// The counts of the event in the interval, as many as are looked at, and none where the attributes
/// have no list of them.
pub(crate) fn counts_of<'a>(attributes: &'a Attributes, event: &str, interval: &str) -> &'a [Value]
    ensures counts { map as_json result.now ≡ counts_of (members_of attributes.now.pairs) event.now interval.now }
    ensures few { length result.now ≤ 72 }
{
    let items = items_in(kept_of(attributes, event, interval));
    first(items, MOST_COUNTS)
}

/// So many items from the first on, as far as they are there.
pub(crate) fn first(items: &[Value], number: usize) -> &[Value]
    ensures items { result.now ≡ take number items.now }
    ensures few { length result.now ≤ number }
    ensures within { length result.now ≤ length items.now }
{
    if number < items.len() {
        &items[..number]
    } else {
        items
    }
}

/// The items from an index on.
pub(crate) fn rest(items: &[Value], from: usize) -> &[Value]
    ensures items { result.now ≡ drop from items.now }
    ensures within { length result.now ≤ length items.now }
{
    if from < items.len() {
        &items[from..]
    } else {
        &[]
    }
}

/// What the attributes have of the event in the interval.
fn kept_of<'a>(attributes: &'a Attributes, event: &str, interval: &str) -> Option<&'a Value>
    ensures { option_map (λ v. as_json v.now) result ≡ kept_of (members_of attributes.now.pairs) event.now interval.now }
{
    let events = attributes.get("event_counts")?;
    member(member(events, event)?, interval)
}

fn member<'a>(value: &'a Value, name: &str) -> Option<&'a Value>
    ensures { option_map (λ v. as_json v.now) result ≡ get name.now (as_json value.now) }
{
    match value {
        Value::Object(members) => members.get(name),
        _ => None,
    }
}

/// The items of a list, and none of what isn't one.
#[tactic(auto, using(crate::proofs::SeenCounts::listed_items))]
fn items_in(value: Option<&Value>) -> &[Value]
    ensures { map as_json result.now ≡ items_in (option_map (λ v. as_json v.now) value.entry) }
{
    match value {
        Some(Value::List(items)) => items.as_slice(),
        _ => &[],
    }
}

/// The number that an item counts as: 0 where it is no whole number from 0 to 2^32 - 1.
fn count(value: &Value) -> u32
    ensures { result ≡ count (as_json value.now) }
{
    bound_of(0, value).unwrap_or(0)
}

fn is_counted(value: &Value) -> bool
    ensures { result ≡ is_counted (as_json value.now) }
{
    count(value) > 0
}

/// The sum of the counts.
#[tactic(auto, using(crate::proofs::SeenCounts::sum_turn, crate::proofs::SeenCounts::sum_end))]
pub(crate) fn sum_of(counts: &[Value]) -> u64
    requires { length counts.now ≤ 72 }
    ensures sum { result ≡ sum_by count (map as_json counts.now) }
    ensures bound { result ≤ 72 * 4294967295 }
{
    let mut sum: u64 = 0;
    for value in counts {
        sum += u64::from(count(value));
    }
    sum
}

/// How many counts are above 0.
#[tactic(auto, using(crate::proofs::SeenCounts::number_turn, crate::proofs::SeenCounts::number_end))]
pub(crate) fn counted(counts: &[Value]) -> usize
    ensures number { result ≡ count_by is_counted (map as_json counts.now) }
    ensures bound { result ≤ length counts.now }
{
    let mut number = 0;
    for value in counts {
        number += one_if(is_counted(value));
    }
    number
}

fn one_if(counted: bool) -> usize
    ensures { result ≡ (if counted then 1 else 0) }
{
    if counted { 1 } else { 0 }
}

/// The least index at or above `from` whose count is above 0.
pub(crate) fn seen_from(from: usize, counts: &[Value]) -> Option<usize>
    ensures index { result ≡ seen_from from (map as_json counts.now) }
    ensures within { IfSome result (λ i. i < length counts.now) }
{
    let place = first_counted(rest(counts, from))?;
    Some(from + place)
}

fn first_counted(counts: &[Value]) -> Option<usize>
    ensures { result ≡ position (λ v. is_counted (as_json v)) counts.now }
{
    counts.iter().position(|value| is_counted(value))
}
