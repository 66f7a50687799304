//! Numbers at the front of some bytes.

ghost use Rattle.std.specs.Char.{is_ascii_digit};
ghost use Rattle.std.specs.Prelude.{◌≡◌, ◌<◌, ◌≤◌, ◌+◌, ◌*◌, ◌-◌, ◌^◌, pos, ◌≤ℤ◌, true, [], ◌∷◌, length, IfSome, MatchOption};
ghost use Rattle.version_compare.specs.Counting.{magnitude_from, FitsCount, AddsDigit};
ghost use Rattle.sequences.specs.Runs.{prepend, run};
ghost use Rattle.version_compare.specs.Versions.{magnitude, number_in_front};

use crate::front::first_of;

/// The digit in front, and the bytes after it.
#[tactic(auto, using(crate::proofs::Digits::run_none, crate::proofs::Digits::run_on, crate::proofs::Digits::run_stop))]
fn digit_of(bytes: &[u8]) -> Option<(u8, &[u8])>
    ensures found { MatchOption result
        (run is_ascii_digit bytes.now ≡ ([], bytes.now))
        (λ x. run is_ascii_digit bytes.now ≡ prepend x.0 (run is_ascii_digit x.1.now)) }
    ensures digit { IfSome result (λ x. is_ascii_digit x.0 ≡ true) }
    ensures shorter { IfSome result (λ x. length x.1.now < length bytes.now) }
{
    match first_of(bytes) {
        None => None,
        Some((b, rest)) => {
            if b.is_ascii_digit() {
                Some((b, rest))
            } else {
                None
            }
        }
    }
}

/// The value with one more digit.
#[tactic(auto, using(crate::proofs::Digits::digit_bounds))]
fn with_digit(value: u64, digit: u8) -> u64
    requires fits { value < 10 ^ 17 }
    requires digit { is_ascii_digit digit ≡ true }
    ensures { result ≡ 10 * value + (digit - 48) }
{
    10 * value + u64::from(digit - b'0')
}

/// The count of digits, at most 19, and the value of the first 18 of them, with one more digit.
#[tactic(auto, using(crate::proofs::Digits::value_fits, crate::proofs::Digits::adds_digit, crate::proofs::Digits::adds_no_value, crate::proofs::Digits::fits_more, crate::proofs::Digits::fits_full))]
fn count_digit(count: usize, value: u64, digit: u8) -> (usize, u64)
    requires fits { FitsCount count value }
    requires digit { is_ascii_digit digit ≡ true }
    ensures same { AddsDigit count value digit result.0 result.1 }
    ensures fits { FitsCount result.0 result.1 }
{
    if count < 18 {
        (count + 1, with_digit(value, digit))
    } else {
        (19, value)
    }
}

/// The value of `count` digits, which is 10^18 above 18 digits.
#[tactic(auto, using(crate::proofs::Digits::capped_full, crate::proofs::Digits::capped_short, crate::proofs::Digits::capped_bound))]
fn capped(count: usize, value: u64) -> u64
    requires fits { FitsCount count value }
    ensures same { result ≡ magnitude_from count value [] }
    ensures bounded { result ≤ 10 ^ 18 }
{
    if count > 18 {
        1_000_000_000_000_000_000
    } else {
        value
    }
}

/// The value of the digits in front, and the bytes after them.
#[tactic(auto, using(crate::proofs::Digits::magnitude_start, crate::proofs::Digits::digits_on, crate::proofs::Digits::digits_end))]
fn digits(bytes: &[u8]) -> (u64, &[u8])
    ensures value { result.0 ≡ magnitude (run is_ascii_digit bytes.now).0 }
    ensures rest { result.1.now ≡ (run is_ascii_digit bytes.now).1 }
    ensures bounded { result.0 ≤ 10 ^ 18 }
{
    let mut count: usize = 0;
    let mut value: u64 = 0;
    let mut rest = bytes;
    while let Some((digit, after)) = digit_of(rest) {
        (count, value) = count_digit(count, value, digit);
        rest = after;
    }
    (capped(count, value), rest)
}

/// The number of these bytes, which begin with a `-` before `after`, and the bytes after the number.
#[tactic(auto, using(crate::proofs::WithSign::minus_none, crate::proofs::WithSign::minus_some))]
fn number_with_minus<'a>(bytes: &'a [u8], after: &'a [u8]) -> (i64, &'a [u8])
    requires { bytes.now ≡ 45 ∷ after.now }
    ensures value { (result.0, result.1.now) ≡ number_in_front bytes.now }
    ensures bounded { result.0 ≤ℤ pos (10 ^ 18) }
{
    match digit_of(after) {
        None => (0, bytes),
        Some(_) => {
            let (value, rest) = digits(after);
            (-(value as i64), rest)
        }
    }
}

/// The number in front, and the bytes after it. Its size is at most 10^18.
#[tactic(auto, using(crate::proofs::WithSign::number_none, crate::proofs::WithSign::number_some, crate::proofs::WithSign::minus_front))]
pub fn number_in_front(bytes: &[u8]) -> (i64, &[u8])
    ensures value { (result.0, result.1.now) ≡ number_in_front bytes.now }
    ensures bounded { result.0 ≤ℤ pos (10 ^ 18) }
{
    match first_of(bytes) {
        None => (0, bytes),
        Some((b, after)) => {
            if b == b'-' {
                number_with_minus(bytes, after)
            } else {
                let (value, rest) = digits(bytes);
                (value as i64, rest)
            }
        }
    }
}
