//! The tree of a Jexl expression.
//!
//! `parse` turns tokens into the tree that the grammar gives them, or tells why there is none. The
//! grammar stands in `specs/Grammar.antt`, apart from the parser, which climbs precedences.
#![tactic(auto)]

mod build;
mod depth;
mod expression;
mod fault;
mod front;
mod laws;
mod lists;
mod negation;
mod node;
mod parser;
mod parsing;
mod part;
mod primaries;

pub use depth::MAX_DEPTH;
pub use expression::Expr;
pub use fault::ParseFault;
pub use laws::{and_or_from_the_left, one_tree};
pub use node::{BinarySign, Literal, MAX_HEIGHT, Node};
pub use parsing::parse;
