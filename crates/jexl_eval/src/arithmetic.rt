// The arithmetic of whole numbers of 64 bits.
ghost use Rattle.std.specs.Prelude.{◌≢◌, pos, negsuc};
ghost use Rattle.std.specs.Int.{int_pow};
ghost use Rattle.jexl_eval.specs.Gives.{Gives};
ghost use Rattle.jexl_eval.specs.Numbers.{sum, difference, product, quotient, remainder, power, in_range, floor_quotient};

use crate::fault::EvalFault;

/// `left + right`. Overflow exactly where it doesn't fit.
pub(crate) fn sum(left: i64, right: i64) -> Result<i64, EvalFault>
    ensures { Gives (λ n. n) result (sum left right) }
{
    match left.checked_add(right) {
        Some(sum) => Ok(sum),
        None => Err(EvalFault::Overflow),
    }
}

/// `left - right`. Overflow exactly where it doesn't fit.
pub(crate) fn difference(left: i64, right: i64) -> Result<i64, EvalFault>
    ensures { Gives (λ n. n) result (difference left right) }
{
    match left.checked_sub(right) {
        Some(difference) => Ok(difference),
        None => Err(EvalFault::Overflow),
    }
}

/// `left * right`. Overflow exactly where it doesn't fit.
pub(crate) fn product(left: i64, right: i64) -> Result<i64, EvalFault>
    ensures { Gives (λ n. n) result (product left right) }
{
    match left.checked_mul(right) {
        Some(product) => Ok(product),
        None => Err(EvalFault::Overflow),
    }
}

/// `left / right`, rounded down. ZeroDivisor exactly where the right side is 0, and Overflow exactly
/// where the quotient doesn't fit.
pub(crate) fn quotient(left: i64, right: i64) -> Result<i64, EvalFault>
    ensures { Gives (λ n. n) result (quotient left right) }
{
    if right == 0 {
        return Err(EvalFault::ZeroDivisor);
    }
    floored(left, right)
}

fn floored(left: i64, right: i64) -> Result<i64, EvalFault>
    requires { right ≢ pos 0 }
    ensures { Gives (λ n. n) result (in_range (floor_quotient left right)) }
{
    match left.checked_div(right) {
        None => Err(EvalFault::Overflow),
        Some(quotient) => {
            let rest = left.wrapping_rem(right);
            if rest != 0 && (rest < 0) != (right < 0) {
                Ok(quotient - 1)
            } else {
                Ok(quotient)
            }
        }
    }
}

/// What is left of `left` after the division by `right`, with the sign of `left`. ZeroDivisor exactly
/// where the right side is 0.
pub(crate) fn remainder(left: i64, right: i64) -> Result<i64, EvalFault>
    ensures { Gives (λ n. n) result (remainder left right) }
{
    if right == 0 {
        Err(EvalFault::ZeroDivisor)
    } else {
        Ok(left.wrapping_rem(right))
    }
}

/// `base` to the power `exponent`. Kind exactly where the exponent is below 0, and Overflow exactly
/// where the power doesn't fit.
pub(crate) fn power(base: i64, exponent: i64) -> Result<i64, EvalFault>
    ensures { Gives (λ n. n) result (power base exponent) }
{
    if exponent < 0 {
        Err(EvalFault::Kind)
    } else {
        raised(base, exponent as u64)
    }
}

#[tactic(auto, using(crate::proofs::Powers::zero_to, crate::proofs::Powers::one_to, crate::proofs::Powers::minus_one_to_even, crate::proofs::Powers::minus_one_to_odd))]
fn raised(base: i64, exponent: u64) -> Result<i64, EvalFault>
    ensures { Gives (λ n. n) result (in_range (int_pow base exponent)) }
{
    match base {
        0 => Ok(if exponent == 0 { 1 } else { 0 }),
        1 => Ok(1),
        -1 => Ok(if exponent % 2 == 0 { 1 } else { -1 }),
        _ => large_power(base, exponent),
    }
}

// The size of the base is 2 at least, so that no power from 64 on fits.
fn large_power(base: i64, exponent: u64) -> Result<i64, EvalFault>
    requires zero { base ≢ pos 0 }
    requires one { base ≢ pos 1 }
    requires minus_one { base ≢ negsuc 0 }
    ensures { Gives (λ n. n) result (in_range (int_pow base exponent)) }
{
    if exponent >= 64 {
        return Err(EvalFault::Overflow);
    }
    match base.checked_pow(exponent as u32) {
        Some(power) => Ok(power),
        None => Err(EvalFault::Overflow),
    }
}
