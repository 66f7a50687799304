// Expressions from tokens.
ghost use Rattle.std.specs.Prelude.{Some, None};
ghost use Rattle.jexl_parser.specs.declared.fault.ParseFault.TheVariants.{TooTall};
ghost use Rattle.jexl_parser.specs.Kept.{see};
ghost use Rattle.jexl_parser.specs.Kinds.{kinds_of};
ghost use Rattle.jexl_parser.specs.Parses.{Parses, IsWhole, WholeOf};

use crate::depth::is_too_deep;
use crate::expression::Expr;
use crate::fault::ParseFault;
use crate::front::first_of;
use crate::parser::expr;
use crate::part::Part;
use jexl_lexer::Token;
use std::alloc::Global;

/// The expression that the tokens spell, or the first of these faults, each exactly where it says:
/// TooDeep, by the counts of brackets, `!` and `?` alone; Unexpected, where the grammar has no tree
/// for the tokens; TooTall, where the tree has more than `MAX_HEIGHT` nodes on a path.
pub fn parse(alloc: Global, tokens: &[Token]) -> Result<Expr, ParseFault>
    ensures { Parses (kinds_of tokens.now) result }
{
    if is_too_deep(tokens) {
        return Err(ParseFault::TooDeep);
    }
    let (part, rest) = expr(alloc, tokens)?;
    match first_of(rest) {
        Some(_) => Err(ParseFault::Unexpected),
        None => {
            if part.relative {
                Err(ParseFault::Unexpected)
            } else {
                whole(part)
            }
        }
    }
}

/// The expression, if its tree was kept.
fn whole(part: Part) -> Result<Expr, ParseFault>
    requires { IsWhole (see part).tree }
    ensures { WholeOf (see part).tree result }
{
    let tree = part.tree;
    match tree {
        None => Err(ParseFault::TooTall),
        Some(root) => Ok(Expr {
            root: Box::into_inner(root),
        }),
    }
}
