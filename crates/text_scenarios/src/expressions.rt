//! Rows on the trees of expressions by the grammar, and on the texts that have none.
use jexl_lexer::Token;
use jexl_parser::{Literal, Node, parse};
use row_tables::Found;
use std::alloc::Global;

/// Adds the tree of an expression, or of the kind `reading` only `tree`; or the name of the fault of its tokens.
pub(crate) fn add_parsed(alloc: Global, kind: &str, tokens: &[Token], found: &mut Found) {
    match parse(alloc, tokens) {
        Ok(expression) if kind == "tree" => add_node(&expression.root, found),
        Ok(_) => found.text("tree"),
        Err(fault) => found.debugged(&fault),
    }
}

// Adds the tree of a node, behind a space where it isn't the first.
fn add_node(node: &Node, found: &mut Found) {
    add_head(node, found);
    match node {
        Node::Literal(_) | Node::Name(_) | Node::Relative(_) => {}
        Node::List(items) => {
            for item in items {
                add_node(item, found);
            }
        }
        Node::Members(members) => {
            for (key, value) in members {
                found.text(" ");
                add_quoted(key.as_str(), found);
                add_node(value, found);
            }
        }
        Node::Member(inside, _) | Node::Not(inside) => add_node(inside, found),
        Node::Index(first, second)
        | Node::Filter(first, second)
        | Node::Binary(_, first, second)
        | Node::OrElse(first, second) => {
            add_node(first, found);
            add_node(second, found);
        }
        Node::Transform(subject, name, arguments) => {
            add_node(subject, found);
            found.texts(&[" ", name.as_str()]);
            for argument in arguments {
                add_node(argument, found);
            }
        }
        Node::Choose(test, first, second) => {
            add_node(test, found);
            add_node(first, found);
            add_node(second, found);
        }
    }
    add_end(node, found);
}

// Adds what a node has before those inside it: a bracket and a name, or the whole where nothing is inside.
fn add_head(node: &Node, found: &mut Found) {
    found.between(" ");
    match node {
        Node::Literal(literal) => add_literal(literal, found),
        Node::Name(name) => found.text(name.as_str()),
        Node::Relative(name) => found.texts(&[".", name.as_str()]),
        Node::Binary(sign, _, _) => {
            found.text("(");
            found.debugged(sign);
        }
        Node::List(_) => found.text("(list"),
        Node::Members(_) => found.text("(members"),
        Node::Member(_, _) => found.text("(member"),
        Node::Index(_, _) => found.text("(index"),
        Node::Filter(_, _) => found.text("(filter"),
        Node::Transform(_, _, _) => found.text("(transform"),
        Node::Not(_) => found.text("(!"),
        Node::Choose(_, _, _) => found.text("(choose"),
        Node::OrElse(_, _) => found.text("(or_else"),
    }
}

// Adds what a node has behind those inside it: the bracket, and before it the name of a member.
fn add_end(node: &Node, found: &mut Found) {
    match node {
        Node::Literal(_) | Node::Name(_) | Node::Relative(_) => {}
        Node::Member(_, name) => found.texts(&[" ", name.as_str(), ")"]),
        _ => found.text(")"),
    }
}

// Adds a text in single quotes.
fn add_quoted(text: &str, found: &mut Found) {
    found.texts(&["'", text, "'"]);
}

// Adds a literal, a text in single quotes.
fn add_literal(literal: &Literal, found: &mut Found) {
    match literal {
        Literal::Null => found.text("null"),
        Literal::Truth(truth) => found.displayed(truth),
        Literal::Whole(number) => found.displayed(number),
        Literal::Text(text) => add_quoted(text.as_str(), found),
    }
}
