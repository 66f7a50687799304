// The token at the front of a text.
ghost use Rattle.std.specs.Prelude.{◌≡◌, ◌<◌, true};
ghost use Rattle.jexl_lexer.specs.Answering.{Gives};
ghost use Rattle.jexl_lexer.specs.Lexing.{is_digit, is_start};
ghost use Rattle.jexl_lexer.specs.Reading.{decimal, token_of, other_part, sign_part};
ghost use Rattle.jexl_lexer.specs.Scanning.{Starts, first_sign, all_signs};

use crate::fault::LexFault;
use crate::front::{ByteClass, first_ascii, is_quote, is_start, split_run};
use crate::quotes::quoted_text;
use crate::signs::longest_sign;
use crate::token::TokenKind;
use sequences::Text;
use std::alloc::Global;

/// Whether a dot and a digit stand in front.
fn has_fraction(text: &str) -> bool
    ensures { result ≡ decimal text.now }
{
    match text.as_bytes() {
        [b'.', digit, ..] => digit.is_ascii_digit(),
        _ => false,
    }
}

/// The number at the front.
#[tactic(auto, using(crate::proofs::TokenFront::number_decimal, crate::proofs::TokenFront::number_small, crate::proofs::TokenFront::number_big))]
fn number_token(place: usize, text: &str) -> Result<(TokenKind, &str), LexFault>
    requires { Starts is_digit text.now }
    ensures { Gives place (λ x. (x.0, x.1.now)) result (token_of text.now) }
{
    let (digits, rest) = split_run(text, ByteClass::Digit);
    if has_fraction(rest) {
        return Err(LexFault::Decimal(place));
    }
    match digits.parse::<i64>() {
        Ok(value) => Ok((TokenKind::Number(value), rest)),
        Err(_) => Err(LexFault::BigNumber(place)),
    }
}

/// The name at the front.
#[tactic(auto, using(crate::proofs::TokenFront::name_found))]
fn name_token(alloc: Global, place: usize, text: &str) -> Result<(TokenKind, &str), LexFault>
    requires { Starts is_start text.now }
    ensures { Gives place (λ x. (x.0, x.1.now)) result (token_of text.now) }
{
    let (name, rest) = split_run(text, ByteClass::Word);
    Ok((TokenKind::Name(Text::new(alloc, name)?), rest))
}

/// The quoted text after this quote.
#[tactic(auto, using(crate::proofs::TokenFront::quote_found, crate::proofs::TokenFront::quote_open))]
fn quoted_token(
    alloc: Global,
    place: usize,
    quote: u8,
    text: &str,
) -> Result<(TokenKind, &str), LexFault>
    requires { quote < 92 }
    ensures { Gives place (λ x. (x.0, x.1.now)) result (other_part quote text.now true) }
{
    match quoted_text(alloc, quote, text) {
        Ok(Some((inner, rest))) => Ok((TokenKind::Quoted(inner), rest)),
        Ok(None) => Err(LexFault::OpenText(place)),
        Err(_) => Err(LexFault::OutOfMemory),
    }
}

/// The sign at the front.
#[tactic(auto, using(crate::proofs::TokenFront::sign_found, crate::proofs::TokenFront::sign_missing))]
fn sign_token(place: usize, text: &str) -> Result<(TokenKind, &str), LexFault>
    ensures { Gives place (λ x. (x.0, x.1.now)) result (sign_part (first_sign all_signs text.now)) }
{
    match longest_sign(text) {
        Some((found, rest)) => Ok((TokenKind::Sign(found), rest)),
        None => Err(LexFault::BadChar(place)),
    }
}

/// The token at the front, and the text after it.
#[tactic(auto, using(crate::proofs::TokenFront::starts, crate::proofs::TokenFront::token_big, crate::proofs::TokenFront::token_quote, crate::proofs::TokenFront::token_sign, crate::proofs::TokenFront::quote_low))]
pub fn read_token(alloc: Global, place: usize, text: &str) -> Result<(TokenKind, &str), LexFault>
    ensures { Gives place (λ x. (x.0, x.1.now)) result (token_of text.now) }
{
    match first_ascii(text) {
        None => Err(LexFault::BadChar(place)),
        Some((first, rest)) => {
            if first.is_ascii_digit() {
                number_token(place, text)
            } else if is_start(first) {
                name_token(alloc, place, text)
            } else if is_quote(first) {
                quoted_token(alloc, place, first, rest)
            } else {
                sign_token(place, text)
            }
        }
    }
}
