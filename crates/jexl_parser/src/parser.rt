// Trees from tokens, by climbing precedences.
ghost use Rattle.std.specs.Prelude.{◌≤◌, ◌<◌, length, IfOk};
ghost use Rattle.jexl_lexer.specs.declared.token.Sign.TheVariants.{RightSquare as RightSquareSign};
ghost use Rattle.jexl_parser.specs.declared.node.TheConstants.{MAX_HEIGHT};
ghost use Rattle.jexl_parser.specs.declared.front.Opening.TheVariants as openings;
ghost use Rattle.jexl_parser.specs.Tree.{Members, no_pair};
ghost use Rattle.jexl_parser.specs.Seen.{cap};
ghost use Rattle.jexl_parser.specs.Reading.{read_of, opening_part, AnExpr, Climb, AUnary, APostfix, Suffixes, APrimary, UpTo, SomeExprs, ToBrace, APair, MorePairs};
ghost use Rattle.jexl_parser.specs.Turns.{choice_of, suffix_read, bracket_of, transform_of, arguments_of, opened_by};
ghost use Rattle.jexl_parser.specs.Gives.{Gives, Goes};
ghost use Rattle.jexl_parser.specs.Kept.{see, see_list, see_members};
ghost use Rattle.jexl_parser.specs.Kinds.{kinds_of};

use crate::build::{binary, bracket, choose, list, object, or_else, transform};
use crate::fault::ParseFault;
use crate::front::{
    Opening, Suffix, after_sign, first_of, key, level, opening_at, operator, plain_name, suffix_at,
};
use crate::lists::{no_items, no_pairs, with_item, with_pair};
use crate::negation::{bangs_at, negated_times};
use crate::node::Literal;
use crate::part::{PairParts, Part, Parts};
use crate::primaries::{literal, negative, quoted, relative, with_member, word};
use jexl_lexer::{Sign, Token, TokenKind};
use std::alloc::Global;

/// A choice, or an operation.
#[cycle(parser)]
#[tactic(auto, using(crate::proofs::Agree::read_step))]
pub fn expr(alloc: Global, tokens: &[Token]) -> Result<(Part, &[Token]), ParseFault>
    ensures read { Gives (λ x. (see x.0, kinds_of x.1.now)) result (read_of MAX_HEIGHT AnExpr (kinds_of tokens.now)) }
    ensures short { IfOk result (λ x. length x.1.now ≤ length tokens.now) }
{
    let (first, rest) = climb(alloc, tokens, 1)?;
    match after_sign(rest, Sign::Question) {
        None => Ok((first, rest)),
        Some(rest) => choice(alloc, first, rest),
    }
}

/// A choice behind its condition and the `?`.
#[cycle(parser)]
fn choice(alloc: Global, condition: Part, tokens: &[Token]) -> Result<(Part, &[Token]), ParseFault>
    ensures read { Gives (λ x. (see x.0, kinds_of x.1.now)) result (choice_of (see condition) (kinds_of tokens.now)) }
    ensures short { IfOk result (λ x. length x.1.now ≤ length tokens.now) }
{
    match after_sign(tokens, Sign::Colon) {
        Some(rest) => {
            let (third, rest) = expr(alloc, rest)?;
            Ok((or_else(alloc, condition, third)?, rest))
        }
        None => {
            let (second, rest) = expr(alloc, tokens)?;
            match after_sign(rest, Sign::Colon) {
                None => Err(ParseFault::Unexpected),
                Some(rest) => {
                    let (third, rest) = expr(alloc, rest)?;
                    Ok((choose(alloc, condition, second, third)?, rest))
                }
            }
        }
    }
}

/// An operation whose operators outside brackets are of the level `lowest` or a tighter one.
#[cycle(parser)]
#[tactic(auto, using(crate::proofs::Agree::read_step))]
fn climb(alloc: Global, tokens: &[Token], lowest: u8) -> Result<(Part, &[Token]), ParseFault>
    ensures read { Gives (λ x. (see x.0, kinds_of x.1.now)) result (read_of MAX_HEIGHT (Climb lowest) (kinds_of tokens.now)) }
    ensures short { IfOk result (λ x. length x.1.now ≤ length tokens.now) }
{
    let (mut left, mut rest) = unary(alloc, tokens)?;
    while let Some((sign, next)) = operator(rest, lowest) {
        let (right, after) = climb(alloc, next, level(sign) + 1)?;
        left = binary(alloc, sign, left, right)?;
        rest = after;
    }
    Ok((left, rest))
}

/// A postfix with any number of `!` before it.
#[cycle(parser)]
#[tactic(auto, using(crate::proofs::Agree::read_step))]
fn unary(alloc: Global, tokens: &[Token]) -> Result<(Part, &[Token]), ParseFault>
    ensures read { Gives (λ x. (see x.0, kinds_of x.1.now)) result (read_of MAX_HEIGHT AUnary (kinds_of tokens.now)) }
    ensures short { IfOk result (λ x. length x.1.now ≤ length tokens.now) }
{
    let (bangs, rest) = bangs_at(tokens);
    let (inside, rest) = postfix(alloc, rest)?;
    Ok((negated_times(alloc, inside, bangs)?, rest))
}

/// A primary with its members, brackets and transforms.
#[cycle(parser)]
#[tactic(auto, using(crate::proofs::Agree::read_step))]
fn postfix(alloc: Global, tokens: &[Token]) -> Result<(Part, &[Token]), ParseFault>
    ensures read { Gives (λ x. (see x.0, kinds_of x.1.now)) result (read_of MAX_HEIGHT APostfix (kinds_of tokens.now)) }
    ensures short { IfOk result (λ x. length x.1.now ≤ length tokens.now) }
{
    let (mut subject, mut rest) = primary(alloc, tokens)?;
    while let Some((suffix, after)) = suffix_at(rest) {
        let (longer, next) = with_suffix(alloc, subject, suffix, after)?;
        subject = longer;
        rest = next;
    }
    Ok((subject, rest))
}

/// A tree with one more suffix, behind its sign.
#[cycle(parser)]
fn with_suffix(
    alloc: Global,
    subject: Part,
    suffix: Suffix,
    tokens: &[Token],
) -> Result<(Part, &[Token]), ParseFault>
    ensures read { Goes (λ x. read_of MAX_HEIGHT (Suffixes (see x.0)) (kinds_of x.1.now)) result (suffix_read (see subject) suffix (kinds_of tokens.now)) }
    ensures short { IfOk result (λ x. length x.1.now ≤ length tokens.now) }
{
    match suffix {
        Suffix::Member => with_member(alloc, subject, tokens),
        Suffix::Bracket => with_bracket(alloc, subject, tokens),
        Suffix::Transform => with_transform(alloc, subject, tokens),
        Suffix::None => Err(ParseFault::Unexpected),
    }
}

/// An index or a filter, behind its `[`.
#[cycle(parser)]
fn with_bracket(
    alloc: Global,
    subject: Part,
    tokens: &[Token],
) -> Result<(Part, &[Token]), ParseFault>
    ensures read { Goes (λ x. read_of MAX_HEIGHT (Suffixes (see x.0)) (kinds_of x.1.now)) result (bracket_of (see subject) (kinds_of tokens.now)) }
    ensures short { IfOk result (λ x. length x.1.now ≤ length tokens.now) }
{
    let (inside, rest) = expr(alloc, tokens)?;
    match after_sign(rest, Sign::RightSquare) {
        None => Err(ParseFault::Unexpected),
        Some(rest) => Ok((bracket(alloc, subject, inside)?, rest)),
    }
}

/// A transform, behind its `|`.
#[cycle(parser)]
#[tactic(auto, using(crate::proofs::Steps::named_transform))]
fn with_transform(
    alloc: Global,
    subject: Part,
    tokens: &[Token],
) -> Result<(Part, &[Token]), ParseFault>
    ensures read { Goes (λ x. read_of MAX_HEIGHT (Suffixes (see x.0)) (kinds_of x.1.now)) result (transform_of (see subject) (kinds_of tokens.now)) }
    ensures short { IfOk result (λ x. length x.1.now ≤ length tokens.now) }
{
    match plain_name(tokens) {
        None => Err(ParseFault::Unexpected),
        Some((name, rest)) => {
            let (args, rest) = arguments(alloc, rest)?;
            Ok((transform(alloc, subject, name, args)?, rest))
        }
    }
}

/// The arguments of a transform in parentheses, or none.
#[cycle(parser)]
fn arguments(alloc: Global, tokens: &[Token]) -> Result<(Parts, &[Token]), ParseFault>
    ensures read { Gives (λ x. (see_list x.0, kinds_of x.1.now)) result (arguments_of (kinds_of tokens.now)) }
    ensures short { IfOk result (λ x. length x.1.now ≤ length tokens.now) }
{
    match after_sign(tokens, Sign::LeftRound) {
        None => Ok((no_items(alloc), tokens)),
        Some(rest) => up_to(alloc, rest, Sign::RightRound),
    }
}

/// A constant, a name, or what stands in brackets.
#[cycle(parser)]
#[tactic(auto, using(crate::proofs::Agree::read_step))]
fn primary(alloc: Global, tokens: &[Token]) -> Result<(Part, &[Token]), ParseFault>
    ensures read { Gives (λ x. (see x.0, kinds_of x.1.now)) result (read_of MAX_HEIGHT APrimary (kinds_of tokens.now)) }
    ensures short { IfOk result (λ x. length x.1.now ≤ length tokens.now) }
{
    match first_of(tokens) {
        None => Err(ParseFault::Unexpected),
        Some((first, rest)) => match first {
            TokenKind::Number(number) => Ok((literal(alloc, Literal::Whole(*number))?, rest)),
            TokenKind::Quoted(text) => Ok((quoted(alloc, text.as_str())?, rest)),
            TokenKind::Name(name) => word(alloc, name.as_str(), rest),
            TokenKind::Sign(sign) => opened(alloc, *sign, rest),
        },
    }
}

/// A primary behind its first sign.
#[cycle(parser)]
fn opened(alloc: Global, sign: Sign, tokens: &[Token]) -> Result<(Part, &[Token]), ParseFault>
    ensures read { Gives (λ x. (see x.0, kinds_of x.1.now)) result (opened_by sign (kinds_of tokens.now)) }
    ensures short { IfOk result (λ x. length x.1.now ≤ length tokens.now) }
{
    match opening_at(sign) {
        Opening::Minus => negative(alloc, tokens),
        Opening::Dot => relative(alloc, tokens),
        Opening::Round => group(alloc, tokens),
        Opening::Square => array(alloc, tokens),
        Opening::Brace => braces(alloc, tokens),
        Opening::None => Err(ParseFault::Unexpected),
    }
}

/// What stands in parentheses, behind the first one.
#[cycle(parser)]
fn group(alloc: Global, tokens: &[Token]) -> Result<(Part, &[Token]), ParseFault>
    ensures read { Gives (λ x. (see x.0, kinds_of x.1.now)) result (opening_part MAX_HEIGHT (read_of MAX_HEIGHT) (kinds_of tokens.now) openings.Round) }
    ensures short { IfOk result (λ x. length x.1.now ≤ length tokens.now) }
{
    let (inside, rest) = expr(alloc, tokens)?;
    match after_sign(rest, Sign::RightRound) {
        None => Err(ParseFault::Unexpected),
        Some(rest) => Ok((inside, rest)),
    }
}

/// A list, behind its `[`.
#[cycle(parser)]
fn array(alloc: Global, tokens: &[Token]) -> Result<(Part, &[Token]), ParseFault>
    ensures read { Gives (λ x. (see x.0, kinds_of x.1.now)) result (read_of MAX_HEIGHT (UpTo RightSquareSign) (kinds_of tokens.now)) }
    ensures short { IfOk result (λ x. length x.1.now ≤ length tokens.now) }
{
    let (items, rest) = up_to(alloc, tokens, Sign::RightSquare)?;
    Ok((list(alloc, items)?, rest))
}

/// Members, behind their `{`.
#[cycle(parser)]
fn braces(alloc: Global, tokens: &[Token]) -> Result<(Part, &[Token]), ParseFault>
    ensures read { Gives (λ x. (see x.0, kinds_of x.1.now)) result (read_of MAX_HEIGHT ToBrace (kinds_of tokens.now)) }
    ensures short { IfOk result (λ x. length x.1.now ≤ length tokens.now) }
{
    let (members, rest) = to_brace(alloc, tokens)?;
    Ok((object(alloc, members)?, rest))
}

/// Expressions with commas between them, or none, and the sign that closes them.
#[cycle(parser)]
#[tactic(auto, using(crate::proofs::Agree::read_step))]
fn up_to(alloc: Global, tokens: &[Token], close: Sign) -> Result<(Parts, &[Token]), ParseFault>
    ensures read { Gives (λ x. (see_list x.0, kinds_of x.1.now)) result (read_of MAX_HEIGHT (UpTo close) (kinds_of tokens.now)) }
    ensures short { IfOk result (λ x. length x.1.now ≤ length tokens.now) }
{
    match after_sign(tokens, close) {
        Some(rest) => Ok((no_items(alloc), rest)),
        None => {
            let (items, rest) = some_exprs(alloc, tokens)?;
            match after_sign(rest, close) {
                None => Err(ParseFault::Unexpected),
                Some(rest) => Ok((items, rest)),
            }
        }
    }
}

/// At least one expression, with commas between them.
#[cycle(parser)]
#[tactic(auto, using(crate::proofs::Agree::read_step))]
fn some_exprs(alloc: Global, tokens: &[Token]) -> Result<(Parts, &[Token]), ParseFault>
    ensures read { Gives (λ x. (see_list x.0, kinds_of x.1.now)) result (read_of MAX_HEIGHT SomeExprs (kinds_of tokens.now)) }
    ensures short { IfOk result (λ x. length x.1.now ≤ length tokens.now) }
{
    let (first, mut rest) = expr(alloc, tokens)?;
    let mut items = with_item(no_items(alloc), first)?;
    while let Some(next) = after_sign(rest, Sign::Comma) {
        let (item, after) = expr(alloc, next)?;
        items = with_item(items, item)?;
        rest = after;
    }
    Ok((items, rest))
}

/// Members with commas between them, or none, and the closing brace.
#[cycle(parser)]
#[tactic(auto, using(crate::proofs::Agree::read_step))]
fn to_brace(alloc: Global, tokens: &[Token]) -> Result<(PairParts, &[Token]), ParseFault>
    ensures read { Gives (λ x. (see_members x.0, kinds_of x.1.now)) result (read_of MAX_HEIGHT ToBrace (kinds_of tokens.now)) }
    ensures short { IfOk result (λ x. length x.1.now ≤ length tokens.now) }
{
    match after_sign(tokens, Sign::RightBrace) {
        Some(rest) => Ok((no_pairs(alloc), rest)),
        None => {
            let (pairs, rest) = some_pairs(alloc, tokens)?;
            match after_sign(rest, Sign::RightBrace) {
                None => Err(ParseFault::Unexpected),
                Some(rest) => Ok((pairs, rest)),
            }
        }
    }
}

/// At least one member, with commas between them.
#[cycle(parser)]
#[tactic(auto, using(crate::proofs::Agree::read_step))]
fn some_pairs(alloc: Global, tokens: &[Token]) -> Result<(PairParts, &[Token]), ParseFault>
    ensures read { Gives (λ x. (see_members x.0, kinds_of x.1.now)) result (read_of MAX_HEIGHT (APair (cap MAX_HEIGHT (Members no_pair))) (kinds_of tokens.now)) }
    ensures short { IfOk result (λ x. length x.1.now ≤ length tokens.now) }
{
    let (mut pairs, mut rest) = one_pair(alloc, no_pairs(alloc), tokens)?;
    while let Some(next) = after_sign(rest, Sign::Comma) {
        let (more, after) = one_pair(alloc, pairs, next)?;
        pairs = more;
        rest = after;
    }
    Ok((pairs, rest))
}

/// One member, after these.
#[cycle(parser)]
#[tactic(auto, using(crate::proofs::Agree::read_step))]
fn one_pair(
    alloc: Global,
    pairs: PairParts,
    tokens: &[Token],
) -> Result<(PairParts, &[Token]), ParseFault>
    ensures read { Goes (λ x. read_of MAX_HEIGHT (MorePairs (see_members x.0)) (kinds_of x.1.now)) result (read_of MAX_HEIGHT (APair (see_members pairs)) (kinds_of tokens.now)) }
    ensures short { IfOk result (λ x. length x.1.now < length tokens.now) }
{
    match key(tokens) {
        None => Err(ParseFault::Unexpected),
        Some((key, rest)) => match after_sign(rest, Sign::Colon) {
            None => Err(ParseFault::Unexpected),
            Some(rest) => {
                let (value, rest) = expr(alloc, rest)?;
                Ok((with_pair(alloc, pairs, key, value)?, rest))
            }
        },
    }
}
