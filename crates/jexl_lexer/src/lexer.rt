// The tokens of a whole text.
ghost use Rattle.std.specs.Prelude.{◌≡◌, All, length, IfOk, IfErr};
ghost use Rattle.jexl_lexer.specs.Answering.{FaultsAs};
ghost use Rattle.jexl_lexer.specs.Lexing.{is_blank, Lexes};
ghost use Rattle.sequences.specs.Runs.{run};
ghost use Rattle.jexl_lexer.specs.Spans.{SpansRise, BlanksOutside, IsReadFrom};

use crate::fault::LexFault;
use crate::front::{ByteClass, split_run};
use crate::token::Token;
use crate::token_reader::read_token;
use sequences::Sequence;
use std::alloc::Global;

/// The most tokens that a text may have.
pub const MAX_TOKENS: usize = 4096;

/// The text after the blanks at the front.
fn after_blanks(text: &str) -> &str
    ensures { result.now ≡ (run is_blank text.now).1 }
{
    let (_, rest) = split_run(text, ByteClass::Blank);
    rest
}

/// The tokens of the text, or the first fault in it from the left, with its place.
///
/// Blanks are space, tab, line feed and carriage return. A text has at most `MAX_TOKENS` tokens, and where
/// one more would begin, that is the fault. The spans of the tokens rise, each token is read from
/// its own bytes, and only blanks stand outside the spans.
#[tactic(auto, using(crate::proofs::LexLoop::begin, crate::proofs::LexLoop::stops_blank, crate::proofs::LexLoop::falls, crate::proofs::LexLoop::finish, crate::proofs::LexLoop::too_many_there, crate::proofs::LexLoop::fails))]
pub fn lex(alloc: Global, text: &str) -> Result<Sequence<Token>, LexFault>
    ensures tokens { IfOk result (λ tokens. Lexes 0 0 text.now tokens) }
    ensures rise { IfOk result (λ tokens. SpansRise 0 (length text.now) tokens) }
    ensures slices { IfOk result (λ tokens. All (IsReadFrom text.now) tokens) }
    ensures blanks { IfOk result (λ tokens. BlanksOutside text.now 0 tokens) }
    ensures fault { IfErr result (λ fault. FaultsAs text.now fault) }
{
    let mut tokens: Sequence<Token> = Sequence::new(alloc);
    let mut rest = after_blanks(text);
    while !rest.is_empty() {
        let start = text.len() - rest.len();
        if tokens.len() == MAX_TOKENS {
            return Err(LexFault::TooManyTokens(start));
        }
        match read_token(alloc, start, rest) {
            Err(fault) => return Err(fault),
            Ok((kind, after)) => {
                let end = text.len() - after.len();
                tokens.push(Token { kind, start, end })?;
                rest = after_blanks(after);
            }
        }
    }
    Ok(tokens)
}
