// Whether tokens nest too deep.
ghost use Rattle.std.specs.Prelude.{◌≡◌, ◌≤◌};
ghost use Rattle.jexl_parser.specs.Depth.{count_bracket};
ghost use Rattle.jexl_parser.specs.Counting.{deep_from, over, count_bang, count_question};
ghost use Rattle.jexl_parser.specs.Kinds.{kinds_of};

use crate::front::{first_of, is_sign};
use jexl_lexer::{Sign, Token, TokenKind};

/// The most brackets that are open after a token, `!` that stand one after another, and `?`.
pub const MAX_DEPTH: usize = 64;

/// The open brackets after the token.
fn bracket_count(nested: usize, kind: &TokenKind) -> usize
    requires { nested ≤ MAX_DEPTH }
    ensures { result ≡ count_bracket nested kind.now }
{
    match kind {
        TokenKind::Sign(Sign::LeftRound) => nested + 1,
        TokenKind::Sign(Sign::LeftSquare) => nested + 1,
        TokenKind::Sign(Sign::LeftBrace) => nested + 1,
        TokenKind::Sign(Sign::RightRound) => nested.saturating_sub(1),
        TokenKind::Sign(Sign::RightSquare) => nested.saturating_sub(1),
        TokenKind::Sign(Sign::RightBrace) => nested.saturating_sub(1),
        _ => nested,
    }
}

/// The `!` that stand one after another up to the token.
fn bang_count(bangs: usize, kind: &TokenKind) -> usize
    requires { bangs ≤ MAX_DEPTH }
    ensures { result ≡ count_bang bangs kind.now }
{
    if is_sign(kind, Sign::Bang) {
        bangs + 1
    } else {
        0
    }
}

/// The `?` up to the token.
fn question_count(questions: usize, kind: &TokenKind) -> usize
    requires { questions ≤ MAX_DEPTH }
    ensures { result ≡ count_question questions kind.now }
{
    if is_sign(kind, Sign::Question) {
        questions + 1
    } else {
        questions
    }
}

/// Whether a count is above `MAX_DEPTH`.
fn is_over(nested: usize, bangs: usize, questions: usize) -> bool
    ensures { result ≡ over nested bangs questions }
{
    if nested > MAX_DEPTH {
        true
    } else if bangs > MAX_DEPTH {
        true
    } else {
        questions > MAX_DEPTH
    }
}

/// Whether more than `MAX_DEPTH` brackets are open after some token, more than `MAX_DEPTH` `!` stand
/// one after another, or there are more than `MAX_DEPTH` `?`.
pub fn is_too_deep(tokens: &[Token]) -> bool
    ensures { result ≡ deep_from 0 0 0 (kinds_of tokens.now) }
{
    let mut nested: usize = 0;
    let mut bangs: usize = 0;
    let mut questions: usize = 0;
    let mut rest = tokens;
    while let Some((first, after)) = first_of(rest) {
        nested = bracket_count(nested, first);
        bangs = bang_count(bangs, first);
        questions = question_count(questions, first);
        if is_over(nested, bangs, questions) {
            return true;
        }
        rest = after;
    }
    false
}
