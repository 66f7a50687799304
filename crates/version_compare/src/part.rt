//! The parts of a version, and their order.

ghost use Rattle.std.specs.Prelude.{◌≡◌, option_copied};
ghost use Rattle.sequences.specs.Runs.{run};
ghost use Rattle.version_compare.specs.Bytes.{is_string_byte};
ghost use Rattle.version_compare.specs.Seen.{part_seen};
ghost use Rattle.version_compare.specs.Versions.{missing_last, part_cmp, part_of, part_of_pieces, part_with_string, string_cmp};

use crate::front::{after_string, before, has_plus_in_front, is_star, string_of};
use crate::numbers::number_in_front;
use std::cmp::Ordering;

/// A part: `number_a` is none where it is infinite, and a string without bytes is none.
#[derive(Clone, Copy)]
pub struct Part<'a> {
    number_a: Option<i64>,
    string_b: Option<&'a [u8]>,
    number_c: i64,
    string_d: Option<&'a [u8]>,
}

/// The part of these numbers and these strings, either of which may have no bytes.
fn part_of_pieces<'a>(
    number_a: i64,
    string_b: &'a [u8],
    number_c: i64,
    string_d: &'a [u8],
) -> Part<'a>
    ensures { part_seen result ≡ part_of_pieces number_a string_b.now (number_c, string_d.now) }
{
    Part {
        number_a: Some(number_a),
        string_b: string_of(string_b),
        number_c,
        string_d: string_of(string_d),
    }
}

/// The part of this number-a and of the bytes after it, which do not begin with a `+`.
#[tactic(auto, using(crate::proofs::Pieces::string_part, crate::proofs::RunLaws::run_short))]
fn part_with_string(number_a: i64, rest: &[u8]) -> Part<'_>
    ensures { part_seen result ≡ part_with_string number_a (run is_string_byte rest.now) }
{
    let after = after_string(rest);
    let (number_c, string_d) = number_in_front(after);
    part_of_pieces(number_a, before(rest, after), number_c, string_d)
}

/// The part that these bytes write: `*` is infinite, and `1+` stands for `2pre`.
#[tactic(auto, using(crate::proofs::Pieces::star_part, crate::proofs::Pieces::plus_part, crate::proofs::Pieces::plain_part))]
fn part_of(bytes: &[u8]) -> Part<'_>
    ensures { part_seen result ≡ part_of bytes.now }
{
    if is_star(bytes) {
        return Part {
            number_a: None,
            string_b: None,
            number_c: 0,
            string_d: None,
        };
    }
    let (number_a, rest) = number_in_front(bytes);
    if has_plus_in_front(rest) {
        Part {
            number_a: Some(number_a + 1),
            string_b: Some("pre".as_bytes()),
            number_c: 0,
            string_d: None,
        }
    } else {
        part_with_string(number_a, rest)
    }
}

/// The order where a missing value is above every other.
fn missing_last<T: Ord + Copy>(a: Option<T>, b: Option<T>) -> Ordering
    ensures { result ≡ missing_last T.cmp a b }
{
    match (a, b) {
        (None, None) => Ordering::Equal,
        (None, Some(_)) => Ordering::Greater,
        (Some(_), None) => Ordering::Less,
        (Some(x), Some(y)) => x.cmp(&y),
    }
}

/// The order of two strings, by bytes.
#[tactic(auto, using(crate::proofs::Pieces::string_cmp_seen))]
fn string_cmp(a: Option<&[u8]>, b: Option<&[u8]>) -> Ordering
    ensures { result ≡ string_cmp (option_copied a.entry) (option_copied b.entry) }
{
    missing_last(a, b)
}

/// The order of two parts.
#[tactic(auto, using(crate::proofs::Pieces::then_assoc))]
fn part_cmp(a: Part<'_>, b: Part<'_>) -> Ordering
    ensures { result ≡ part_cmp (part_seen a.entry) (part_seen b.entry) }
{
    missing_last(a.number_a, b.number_a)
        .then(string_cmp(a.string_b, b.string_b))
        .then(a.number_c.cmp(&b.number_c))
        .then(string_cmp(a.string_d, b.string_d))
}

/// The order of the parts that these bytes write.
pub fn compare_parts(a: &[u8], b: &[u8]) -> Ordering
    ensures { result ≡ part_cmp (part_of a.now) (part_of b.now) }
{
    part_cmp(part_of(a), part_of(b))
}
