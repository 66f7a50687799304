// Primaries with no expression inside, and members.
ghost use Rattle.std.specs.Prelude.{◌≡◌, ◌≤◌, length, IfOk};
ghost use Rattle.jexl_parser.specs.declared.node.TheConstants.{MAX_HEIGHT};
ghost use Rattle.jexl_parser.specs.declared.front.Opening.TheVariants as openings;
ghost use Rattle.jexl_parser.specs.Tree.{Literal as LiteralTree, Named, Quote};
ghost use Rattle.jexl_parser.specs.Seen.{cap};
ghost use Rattle.jexl_parser.specs.View.{constant};
ghost use Rattle.jexl_parser.specs.Reading.{read_of, opening_part, Suffixes};
ghost use Rattle.jexl_parser.specs.Turns.{member_of, word_read};
ghost use Rattle.jexl_parser.specs.Gives.{Gives, Goes};
ghost use Rattle.jexl_parser.specs.Kept.{see};
ghost use Rattle.jexl_parser.specs.Kinds.{kinds_of};

use crate::build::{leaf, member, relative_name};
use crate::fault::ParseFault;
use crate::front::{Word, name, number, word_at};
use crate::node::{Literal, Node};
use crate::part::Part;
use jexl_lexer::Token;
use sequences::Text;
use std::alloc::{AllocError, Global};

/// A constant.
pub fn literal(alloc: Global, literal: Literal) -> Result<Part, AllocError>
    ensures { IfOk result (λ p. see p ≡ cap MAX_HEIGHT (LiteralTree (constant literal))) }
{
    leaf(alloc, Node::Literal(literal))
}

/// A quoted text.
pub fn quoted(alloc: Global, text: &str) -> Result<Part, AllocError>
    ensures { IfOk result (λ p. see p ≡ cap MAX_HEIGHT (LiteralTree (Quote text.now))) }
{
    let text = Text::new(alloc, text)?;
    literal(alloc, Literal::Text(text))
}

/// A name that stands for an attribute.
fn named(alloc: Global, name: &str) -> Result<Part, AllocError>
    ensures { IfOk result (λ p. see p ≡ cap MAX_HEIGHT (Named name.now)) }
{
    let name = Text::new(alloc, name)?;
    leaf(alloc, Node::Name(name))
}

/// What a word is, before these tokens.
pub fn word<'a>(
    alloc: Global,
    word: &str,
    rest: &'a [Token],
) -> Result<(Part, &'a [Token]), ParseFault>
    ensures read { Gives (λ x. (see x.0, kinds_of x.1.now)) result (word_read word.now (kinds_of rest.now)) }
    ensures short { IfOk result (λ x. length x.1.now ≤ length rest.now) }
{
    match word_at(word) {
        Word::Plain => Ok((named(alloc, word)?, rest)),
        Word::In => Err(ParseFault::Unexpected),
        Word::True => Ok((literal(alloc, Literal::Truth(true))?, rest)),
        Word::False => Ok((literal(alloc, Literal::Truth(false))?, rest)),
        Word::Null => Ok((literal(alloc, Literal::Null)?, rest)),
    }
}

/// A number behind its `-`.
pub fn negative(alloc: Global, tokens: &[Token]) -> Result<(Part, &[Token]), ParseFault>
    ensures read { Gives (λ x. (see x.0, kinds_of x.1.now)) result (opening_part MAX_HEIGHT (read_of MAX_HEIGHT) (kinds_of tokens.now) openings.Minus) }
    ensures short { IfOk result (λ x. length x.1.now ≤ length tokens.now) }
{
    match number(tokens) {
        None => Err(ParseFault::Unexpected),
        Some((number, rest)) => Ok((literal(alloc, Literal::Whole(-number))?, rest)),
    }
}

/// A relative name behind its `.`.
pub fn relative(alloc: Global, tokens: &[Token]) -> Result<(Part, &[Token]), ParseFault>
    ensures read { Gives (λ x. (see x.0, kinds_of x.1.now)) result (opening_part MAX_HEIGHT (read_of MAX_HEIGHT) (kinds_of tokens.now) openings.Dot) }
    ensures short { IfOk result (λ x. length x.1.now ≤ length tokens.now) }
{
    match name(tokens) {
        None => Err(ParseFault::Unexpected),
        Some((name, rest)) => Ok((relative_name(alloc, name)?, rest)),
    }
}

/// A member behind its `.`.
pub fn with_member(
    alloc: Global,
    subject: Part,
    tokens: &[Token],
) -> Result<(Part, &[Token]), ParseFault>
    ensures read { Goes (λ x. read_of MAX_HEIGHT (Suffixes (see x.0)) (kinds_of x.1.now)) result (member_of (see subject) (kinds_of tokens.now)) }
    ensures short { IfOk result (λ x. length x.1.now ≤ length tokens.now) }
{
    match name(tokens) {
        None => Err(ParseFault::Unexpected),
        Some((name, rest)) => Ok((member(alloc, subject, name)?, rest)),
    }
}
