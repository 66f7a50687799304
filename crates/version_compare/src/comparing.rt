//! The order of two versions.

ghost use Rattle.std.specs.Prelude.{◌≡◌};
ghost use Rattle.version_compare.specs.Cutting.{without_first, IsCut};
ghost use Rattle.version_compare.specs.Versions.{version_order};

use crate::front::{before, first_of, from_dot};
use crate::part::compare_parts;
use std::cmp::Ordering;

/// The bytes without the first one.
#[tactic(auto, using(crate::proofs::Splits::without_none, crate::proofs::Splits::without_some))]
fn without_first(bytes: &[u8]) -> &[u8]
    ensures { result.now ≡ without_first bytes.now }
{
    match first_of(bytes) {
        None => bytes,
        Some((_, rest)) => rest,
    }
}

/// The first part, and what follows its dot.
#[tactic(auto, using(crate::proofs::Splits::is_cut, crate::proofs::RunLaws::run_short))]
fn cut(bytes: &[u8]) -> (&[u8], &[u8])
    ensures { IsCut bytes.now result.0.now result.1.now }
{
    let dot = from_dot(bytes);
    (before(bytes, dot), without_first(dot))
}

/// The order of two versions. A version that has ended has empty parts from there on.
#[tactic(auto, using(crate::proofs::Splits::none_left, crate::proofs::Splits::cut_short))]
fn compare_bytes(a: &[u8], b: &[u8]) -> Ordering
    ensures { result ≡ version_order a.now b.now }
{
    let mut left = a;
    let mut right = b;
    while !left.is_empty() || !right.is_empty() {
        let (left_part, left_rest) = cut(left);
        let (right_part, right_rest) = cut(right);
        let order = compare_parts(left_part, right_part);
        if order.is_ne() {
            return order;
        }
        left = left_rest;
        right = right_rest;
    }
    Ordering::Equal
}

/// The order of two versions by Mozilla's toolkit version format. It takes no memory.
///
/// A version is parts with a dot between each two, and a missing part is an empty one. The part `*` is
/// infinite. Any other is `number-a string-b number-c string-d`: a number is an optional `-` and at
/// least one digit, 0 where it is missing, and string-b ends at a digit, a `+` or a `-`. Where a `+`
/// follows number-a, the part stands for the next number-a with the string `pre`. A number of more than
/// 18 digits counts as 10^18 with its sign.
///
/// Parts compare by number-a, string-b, number-c and string-d in turn. A string that is there is below
/// a missing one, so `1.0pre` is below `1.0`; two strings compare by bytes.
pub fn compare(a: &str, b: &str) -> Ordering
    ensures { result ≡ version_order a.now b.now }
{
    compare_bytes(a.as_bytes(), b.as_bytes())
}
