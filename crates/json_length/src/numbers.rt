// The lengths of numbers.
ghost use Rattle.std.specs.Prelude.{◌≡◌, ◌≤◌, length, decimal};
ghost use Rattle.json_tree.specs.Json.{whole};
ghost use Rattle.json_tree.specs.Bytes.{text_of};

/// How many bytes the whole number has as JSON: its digits, and a sign where it is below 0.
pub fn whole_length(number: i64) -> u128
    ensures length { result ≡ length (text_of (whole number)) }
    ensures bound { result ≤ 21 }
{
    if number < 0 {
        1 + digits(number.unsigned_abs())
    } else {
        digits(number.unsigned_abs())
    }
}

/// How many digits the number has.
fn digits(number: u64) -> u128
    ensures length { result ≡ length (decimal number) }
    ensures bound { result ≤ 20 }
{
    let mut rest = number;
    let mut digits: u128 = 1;
    while rest >= 10 {
        rest /= 10;
        digits += 1;
    }
    digits
}
