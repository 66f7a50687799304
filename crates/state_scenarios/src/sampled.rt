//! Rows on points, buckets and branches.
ghost use Rattle.std.specs.Prelude.{◌<◌, ◌^◌, IfOk};

use row_tables::{Fault, Found, cut, number};
use sampling::{choose_branch, in_bucket, point};

// The end of the points.
const END: u64 = 1 << 48;

/// A text's point. Row: the text.
pub(crate) fn find_point(input: &str, found: &mut Found) -> Result<(), Fault> {
    Ok(found.displayed(&point(input.as_bytes())))
}

/// Whether a point is in a range of buckets. Row: the point, the first bucket, how many there are in the range and in
/// all.
pub(crate) fn find_bucket(input: &str, found: &mut Found) -> Result<(), Fault> {
    let (at, numbers) = cut(input);
    let point = point_at(at)?;
    let [start, count, total] = three_numbers(numbers)?;
    if total == 0 {
        return Err(Fault::NoRow);
    }
    let is_in = in_bucket(point, start, count, total);
    Ok(found.displayed(&is_in))
}

/// The number of a point's branch. Row: the point, and two or three ratios.
pub(crate) fn find_branch(input: &str, found: &mut Found) -> Result<(), Fault> {
    let (at, ratios) = cut(input);
    let point = point_at(at)?;
    let ratios = three_numbers(ratios)?;
    if ratios[0] == 0 && ratios[1] == 0 {
        return Err(Fault::NoRow);
    }
    let place = choose_branch(point, &ratios);
    Ok(found.displayed(&place))
}

fn point_at(text: &str) -> Result<u64, Fault>
    ensures { IfOk result (λ n. n < 2 ^ 48) }
{
    match number(text) {
        Some(number) if number < END => Ok(number),
        _ => Err(Fault::NoRow),
    }
}

// The numbers of three words, of which one that isn't there is 0.
fn three_numbers(text: &str) -> Result<[u32; 3], Fault> {
    let (first, rest) = cut(text);
    let (second, third) = cut(rest);
    Ok([
        small_number(first)?,
        small_number(second)?,
        small_number(third)?,
    ])
}

fn small_number(text: &str) -> Result<u32, Fault> {
    if text.is_empty() {
        return Ok(0);
    }
    let number = number(text).ok_or(Fault::NoRow)?;
    u32::try_from(number).ok().ok_or(Fault::NoRow)
}
