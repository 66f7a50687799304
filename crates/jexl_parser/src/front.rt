// What stands at the front of a list of tokens.
ghost use Rattle.std.specs.Prelude.{◌≡◌, ◌<◌, ◌≤◌, length, option_map, IfSome, pos, ◌≤ℤ◌, MatchOption, [], ◌∷◌};
ghost use Rattle.jexl_parser.specs.Words.{word_of};
ghost use Rattle.jexl_parser.specs.Tokens.{is_sign};
ghost use Rattle.jexl_parser.specs.Grammar.{operator_of, level_of};
ghost use Rattle.jexl_parser.specs.Reading.{after, name_at, plain_at, number_at, key_at, operator_at, suffix_of, opening_of};
ghost use Rattle.jexl_parser.specs.Turns.{suffix_at};
ghost use Rattle.jexl_parser.specs.Kinds.{kinds_of};

use crate::node::BinarySign;
use jexl_lexer::{Sign, Token, TokenKind};

/// What a name stands for: the four words that are no plain names, and all others.
#[derive(Clone, Copy, Debug, PartialEq, Eq)]
pub enum Word {
    Plain,
    In,
    True,
    False,
    Null,
}

/// What a sign after a postfix begins.
#[derive(Clone, Copy, Debug, PartialEq, Eq)]
pub enum Suffix {
    Member,
    Bracket,
    Transform,
    None,
}

/// What a sign at the front of a primary begins.
#[derive(Clone, Copy, Debug, PartialEq, Eq)]
pub enum Opening {
    Minus,
    Dot,
    Round,
    Square,
    Brace,
    None,
}

/// What the name stands for.
pub fn word_at(name: &str) -> Word
    ensures { result ≡ word_of name.now }
{
    if name == "in" {
        Word::In
    } else if name == "true" {
        Word::True
    } else if name == "false" {
        Word::False
    } else if name == "null" {
        Word::Null
    } else {
        Word::Plain
    }
}

/// Whether the token is this sign.
pub fn is_sign(kind: &TokenKind, sign: Sign) -> bool
    ensures { result ≡ is_sign sign kind.now }
{
    match kind {
        TokenKind::Sign(found) => *found == sign,
        _ => false,
    }
}

/// The first token, and the tokens after it.
pub fn first_of(tokens: &[Token]) -> Option<(&TokenKind, &[Token])>
    ensures found { MatchOption result (kinds_of tokens.now ≡ []) (λ x. kinds_of tokens.now ≡ x.0.now ∷ kinds_of x.1.now) }
    ensures short { IfSome result (λ x. length x.1.now < length tokens.now) }
{
    match tokens {
        [] => None,
        [first, rest @ ..] => Some((&first.kind, rest)),
    }
}

/// The tokens after this sign, if it stands at the front.
pub fn after_sign(tokens: &[Token], sign: Sign) -> Option<&[Token]>
    ensures found { option_map (λ rest. kinds_of rest.now) result ≡ after sign (kinds_of tokens.now) }
    ensures short { IfSome result (λ rest. length rest.now < length tokens.now) }
{
    match first_of(tokens) {
        None => None,
        Some((first, rest)) => {
            if is_sign(first, sign) {
                Some(rest)
            } else {
                None
            }
        }
    }
}

/// The name at the front, and the tokens after it.
pub fn name(tokens: &[Token]) -> Option<(&str, &[Token])>
    ensures found { option_map (λ x. (x.0.now, kinds_of x.1.now)) result ≡ name_at (kinds_of tokens.now) }
    ensures short { IfSome result (λ x. length x.1.now < length tokens.now) }
{
    match first_of(tokens) {
        None => None,
        Some((first, rest)) => match first {
            TokenKind::Number(_) => None,
            TokenKind::Quoted(_) => None,
            TokenKind::Name(name) => Some((name.as_str(), rest)),
            TokenKind::Sign(_) => None,
        },
    }
}

/// The plain name at the front, and the tokens after it.
pub fn plain_name(tokens: &[Token]) -> Option<(&str, &[Token])>
    ensures found { option_map (λ x. (x.0.now, kinds_of x.1.now)) result ≡ plain_at (kinds_of tokens.now) }
    ensures short { IfSome result (λ x. length x.1.now < length tokens.now) }
{
    match first_of(tokens) {
        None => None,
        Some((first, rest)) => match first {
            TokenKind::Number(_) => None,
            TokenKind::Quoted(_) => None,
            TokenKind::Name(name) => match word_at(name.as_str()) {
                Word::Plain => Some((name.as_str(), rest)),
                _ => None,
            },
            TokenKind::Sign(_) => None,
        },
    }
}

/// The key at the front, and the tokens after it.
pub fn key(tokens: &[Token]) -> Option<(&str, &[Token])>
    ensures found { option_map (λ x. (x.0.now, kinds_of x.1.now)) result ≡ key_at (kinds_of tokens.now) }
    ensures short { IfSome result (λ x. length x.1.now < length tokens.now) }
{
    match first_of(tokens) {
        None => None,
        Some((first, rest)) => match first {
            TokenKind::Number(_) => None,
            TokenKind::Quoted(quoted) => Some((quoted.as_str(), rest)),
            TokenKind::Name(name) => Some((name.as_str(), rest)),
            TokenKind::Sign(_) => None,
        },
    }
}

/// The number at the front if it isn't below 0, and the tokens after it.
pub fn number(tokens: &[Token]) -> Option<(i64, &[Token])>
    ensures found { option_map (λ x. (x.0, kinds_of x.1.now)) result ≡ number_at (kinds_of tokens.now) }
    ensures natural { IfSome result (λ x. pos 0 ≤ℤ x.0) }
    ensures short { IfSome result (λ x. length x.1.now < length tokens.now) }
{
    match first_of(tokens) {
        None => None,
        Some((first, rest)) => match first {
            TokenKind::Number(number) => {
                if 0 <= *number {
                    Some((*number, rest))
                } else {
                    None
                }
            }
            TokenKind::Quoted(_) => None,
            TokenKind::Name(_) => None,
            TokenKind::Sign(_) => None,
        },
    }
}

/// The operator that a token is.
fn operator_sign(kind: &TokenKind) -> Option<BinarySign>
    ensures { result ≡ operator_of kind.now }
{
    match kind {
        TokenKind::Number(_) => None,
        TokenKind::Quoted(_) => None,
        TokenKind::Name(name) => match word_at(name.as_str()) {
            Word::In => Some(BinarySign::Inside),
            _ => None,
        },
        TokenKind::Sign(sign) => match sign {
            Sign::And => Some(BinarySign::And),
            Sign::Or => Some(BinarySign::Or),
            Sign::Equal => Some(BinarySign::Equal),
            Sign::NotEqual => Some(BinarySign::NotEqual),
            Sign::AtMost => Some(BinarySign::AtMost),
            Sign::AtLeast => Some(BinarySign::AtLeast),
            Sign::FloorDiv => Some(BinarySign::FloorDiv),
            Sign::Less => Some(BinarySign::Less),
            Sign::Greater => Some(BinarySign::Greater),
            Sign::Plus => Some(BinarySign::Plus),
            Sign::Minus => Some(BinarySign::Minus),
            Sign::Star => Some(BinarySign::Times),
            Sign::Percent => Some(BinarySign::Percent),
            Sign::Caret => Some(BinarySign::Power),
            _ => None,
        },
    }
}

/// The level of an operator.
pub fn level(sign: BinarySign) -> u8
    ensures level { result ≡ level_of sign }
    ensures at_most { result ≤ 5 }
{
    match sign {
        BinarySign::And | BinarySign::Or => 1,
        BinarySign::Equal
        | BinarySign::NotEqual
        | BinarySign::Less
        | BinarySign::AtMost
        | BinarySign::Greater
        | BinarySign::AtLeast
        | BinarySign::Inside => 2,
        BinarySign::Plus | BinarySign::Minus => 3,
        BinarySign::Times | BinarySign::FloorDiv => 4,
        BinarySign::Percent | BinarySign::Power => 5,
    }
}

/// The operator at the front if its level is `lowest` or a tighter one, and the tokens after it.
pub fn operator(tokens: &[Token], lowest: u8) -> Option<(BinarySign, &[Token])>
    ensures found { option_map (λ x. (x.0, kinds_of x.1.now)) result ≡ operator_at lowest (kinds_of tokens.now) }
    ensures short { IfSome result (λ x. length x.1.now < length tokens.now) }
{
    match first_of(tokens) {
        None => None,
        Some((first, rest)) => match operator_sign(first) {
            None => None,
            Some(sign) => {
                if lowest <= level(sign) {
                    Some((sign, rest))
                } else {
                    None
                }
            }
        },
    }
}

/// What the token begins where it stands after a postfix.
fn suffix_of(kind: &TokenKind) -> Suffix
    ensures { result ≡ suffix_of kind.now }
{
    match kind {
        TokenKind::Sign(Sign::Dot) => Suffix::Member,
        TokenKind::Sign(Sign::LeftSquare) => Suffix::Bracket,
        TokenKind::Sign(Sign::Bar) => Suffix::Transform,
        _ => Suffix::None,
    }
}

/// The suffix that begins at the front, and the tokens after its sign.
pub fn suffix_at(tokens: &[Token]) -> Option<(Suffix, &[Token])>
    ensures found { option_map (λ x. (x.0, kinds_of x.1.now)) result ≡ suffix_at (kinds_of tokens.now) }
    ensures short { IfSome result (λ x. length x.1.now < length tokens.now) }
{
    match first_of(tokens) {
        None => None,
        Some((first, rest)) => match suffix_of(first) {
            Suffix::None => None,
            Suffix::Member => Some((Suffix::Member, rest)),
            Suffix::Bracket => Some((Suffix::Bracket, rest)),
            Suffix::Transform => Some((Suffix::Transform, rest)),
        },
    }
}

/// What the sign begins.
pub fn opening_at(sign: Sign) -> Opening
    ensures { result ≡ opening_of sign }
{
    match sign {
        Sign::Minus => Opening::Minus,
        Sign::Dot => Opening::Dot,
        Sign::LeftRound => Opening::Round,
        Sign::LeftSquare => Opening::Square,
        Sign::LeftBrace => Opening::Brace,
        _ => Opening::None,
    }
}
