// Any number of `!` before a postfix, in a loop, so that they take no stack.
ghost use Rattle.std.specs.Prelude.{◌≡◌, ◌≤◌, length, IfOk};
ghost use Rattle.jexl_parser.specs.declared.node.TheConstants.{MAX_HEIGHT};
ghost use Rattle.jexl_parser.specs.Kept.{see};
ghost use Rattle.jexl_parser.specs.Kinds.{kinds_of};
ghost use Rattle.jexl_parser.specs.Negations.{nots, read_with_nots};
ghost use Rattle.jexl_parser.specs.Reading.{read_of, AUnary, APostfix};

use crate::build::negated;
use crate::front::after_sign;
use crate::part::Part;
use jexl_lexer::{Sign, Token};
use std::alloc::{AllocError, Global};

/// How many `!` stand in front, and the tokens after them.
#[tactic(auto, using(crate::proofs::Nots::bangs_begin, crate::proofs::Nots::bangs_on, crate::proofs::Nots::bangs_end))]
pub fn bangs_at(tokens: &[Token]) -> (usize, &[Token])
    ensures read { read_of MAX_HEIGHT AUnary (kinds_of tokens.now) ≡ read_with_nots result.0 (read_of MAX_HEIGHT APostfix (kinds_of result.1.now)) }
    ensures short { length result.1.now ≤ length tokens.now }
{
    let mut count: usize = 0;
    let mut rest = tokens;
    while let Some(after) = after_sign(rest, Sign::Bang) {
        count += 1;
        rest = after;
    }
    (count, rest)
}

/// A tree with so many `!` before it.
#[tactic(auto, using(crate::proofs::Nots::nots_on, crate::proofs::Nots::nots_end))]
pub fn negated_times(alloc: Global, inside: Part, count: usize) -> Result<Part, AllocError>
    ensures { IfOk result (λ p. see p ≡ nots count (see inside)) }
{
    let mut part = inside;
    let mut left = count;
    while left > 0 {
        part = negated(alloc, part)?;
        left -= 1;
    }
    Ok(part)
}
