// The expression that a text is.
ghost use Rattle.std.specs.Prelude.{◌≡◌, IfOk, option_map};
ghost use Rattle.jexl_parser.specs.View.{view};
ghost use Rattle.enrol_evolver.specs.Expressions.{lexing_wants_memory, parsing_wants_memory};
ghost use Rattle.enrol_evolver.specs.Targeting.{tree_of};

use jexl_lexer::{LexFault, lex};
use jexl_parser::{Expr, ParseFault, parse};
use std::alloc::{AllocError, Global};

/// The expression that the text is, if it is one.
pub(crate) fn expression_of(alloc: Global, text: &str) -> Result<Option<Expr>, AllocError>
    ensures { IfOk result (λ o. option_map (λ e. view e.root) o ≡ tree_of text.now) }
{
    match lex(alloc, text) {
        Ok(tokens) => match parse(alloc, tokens.as_slice()) {
            Ok(expression) => Ok(Some(expression)),
            Err(fault) => {
                if parsing_wants_memory(&fault) {
                    return Err(AllocError);
                }
                Ok(None)
            }
        },
        Err(fault) => {
            if lexing_wants_memory(&fault) {
                return Err(AllocError);
            }
            Ok(None)
        }
    }
}

fn lexing_wants_memory(fault: &LexFault) -> bool
    ensures { result ≡ lexing_wants_memory fault.now }
{
    matches!(fault, LexFault::OutOfMemory)
}

fn parsing_wants_memory(fault: &ParseFault) -> bool
    ensures { result ≡ parsing_wants_memory fault.now }
{
    matches!(fault, ParseFault::OutOfMemory)
}
