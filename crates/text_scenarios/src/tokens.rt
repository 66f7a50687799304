//! Rows on the tokens of texts with their places, and on the faults of texts that have none.
use crate::expressions::add_parsed;
use jexl_lexer::{LexFault, Token, TokenKind, lex};
use row_tables::Found;
use std::alloc::Global;

/// Adds what is found of a text, or the name of its fault: of the kind `tokens` its tokens, each with its span and a comma before
/// it, or the message before the fault; of `count` the number of tokens; of `tree` the tree of the expression, and of `reading`
/// that it has one.
pub(crate) fn add_read(alloc: Global, kind: &str, input: &str, found: &mut Found) {
    match lex(alloc, input) {
        Ok(tokens) => add_lexed(alloc, kind, tokens.as_slice(), found),
        Err(fault) if kind == "tokens" => add_fault(&fault, found),
        Err(fault) => found.debugged(&fault),
    }
}

fn add_lexed(alloc: Global, kind: &str, tokens: &[Token], found: &mut Found) {
    match kind {
        "tokens" => add_tokens(tokens, found),
        "count" => found.displayed(&tokens.len()),
        _ => add_parsed(alloc, kind, tokens, found),
    }
}

fn add_fault(fault: &LexFault, found: &mut Found) {
    found.displayed(fault);
    found.text(" ");
    found.debugged(fault);
}

fn add_tokens(tokens: &[Token], found: &mut Found) {
    found.text("tokens");
    for token in tokens {
        add_token(token, found);
    }
}

fn add_token(token: &Token, found: &mut Found) {
    found.text(", ");
    add_kind(&token.kind, found);
    found.text("@");
    found.displayed(&token.start);
    found.text("-");
    found.displayed(&token.end);
}

fn add_kind(kind: &TokenKind, found: &mut Found) {
    match kind {
        TokenKind::Number(number) => found.displayed(number),
        TokenKind::Quoted(text) => found.texts(&["'", text.as_str(), "'"]),
        TokenKind::Name(name) => found.text(name.as_str()),
        TokenKind::Sign(sign) => found.debugged(sign),
    }
}
