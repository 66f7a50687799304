//! The tokens of a Jexl expression.
//!
//! `lex` turns a text into its tokens, each with the bytes that it stands in, or tells the first
//! fault and its place. What the tokens of a text are is said in `specs/Lexing.antt`.
#![tactic(auto)]

mod fault;
mod front;
mod laws;
mod lexer;
mod quotes;
mod signs;
mod token;
mod token_reader;

pub use fault::LexFault;
pub use laws::one_answer;
pub use lexer::{MAX_TOKENS, lex};
pub use token::{Sign, Token, TokenKind};
