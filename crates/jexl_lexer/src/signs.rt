// Signs at the front of a text.
ghost use Rattle.std.specs.Prelude.{◌≡◌, ◌<◌, [], ◌∷◌, MatchOption, option_map};
ghost use Rattle.jexl_lexer.specs.Scanning.{IsSignOf, NoDouble, IsDouble, first_sign, all_signs};

use crate::front::first_ascii;
use crate::token::Sign;

/// The sign that these two bytes are.
#[tactic(auto, using(crate::proofs::SignAt::no_double_bytes))]
fn double_sign(first: u8, second: u8) -> Option<Sign>
    ensures { IsSignOf (first ∷ second ∷ []) result }
{
    match (first, second) {
        (b'&', b'&') => Some(Sign::And),
        (b'|', b'|') => Some(Sign::Or),
        (b'=', b'=') => Some(Sign::Equal),
        (b'!', b'=') => Some(Sign::NotEqual),
        (b'<', b'=') => Some(Sign::AtMost),
        (b'>', b'=') => Some(Sign::AtLeast),
        (b'/', b'/') => Some(Sign::FloorDiv),
        _ => None,
    }
}

/// The sign that this byte is.
#[tactic(auto, using(crate::proofs::SignAt::no_single_byte))]
fn single_sign(byte: u8) -> Option<Sign>
    ensures { IsSignOf (byte ∷ []) result }
{
    match byte {
        b'<' => Some(Sign::Less),
        b'>' => Some(Sign::Greater),
        b'+' => Some(Sign::Plus),
        b'-' => Some(Sign::Minus),
        b'*' => Some(Sign::Star),
        b'%' => Some(Sign::Percent),
        b'^' => Some(Sign::Caret),
        b'!' => Some(Sign::Bang),
        b'?' => Some(Sign::Question),
        b':' => Some(Sign::Colon),
        b'.' => Some(Sign::Dot),
        b',' => Some(Sign::Comma),
        b'(' => Some(Sign::LeftRound),
        b')' => Some(Sign::RightRound),
        b'[' => Some(Sign::LeftSquare),
        b']' => Some(Sign::RightSquare),
        b'{' => Some(Sign::LeftBrace),
        b'}' => Some(Sign::RightBrace),
        b'|' => Some(Sign::Bar),
        _ => None,
    }
}

/// The sign of two bytes, this one and the first of the text, and the text after it.
#[tactic(auto, using(crate::proofs::SignAt::no_double_at_end, crate::proofs::SignAt::no_double_there, crate::proofs::SignAt::double_there))]
fn double_sign_at(first: u8, text: &str) -> Option<(Sign, &str)>
    ensures { MatchOption result (NoDouble (first ∷ text.now)) (λ x. IsDouble (first ∷ text.now) x.0 x.1.now) }
{
    match first_ascii(text) {
        None => None,
        Some((second, rest)) => match double_sign(first, second) {
            None => None,
            Some(sign) => Some((sign, rest)),
        },
    }
}

/// The longest sign at the front, and the text after it.
#[tactic(auto, using(crate::proofs::SignAt::sign_none, crate::proofs::SignAt::sign_double, crate::proofs::SignAt::sign_single, crate::proofs::SignAt::sign_neither))]
pub fn longest_sign(text: &str) -> Option<(Sign, &str)>
    ensures { option_map (λ x. (x.0, x.1.now)) result ≡ first_sign all_signs text.now }
{
    match first_ascii(text) {
        None => None,
        Some((first, rest)) => match double_sign_at(first, rest) {
            Some((sign, after)) => Some((sign, after)),
            None => match single_sign(first) {
                None => None,
                Some(sign) => Some((sign, rest)),
            },
        },
    }
}
