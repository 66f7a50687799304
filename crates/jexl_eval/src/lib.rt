//! The meaning of Jexl expressions: the value of a tree, for attributes and a table of transforms.
//!
//! `eval` gives the value that `specs/Meaning.antt` defines, or the first fault from the left.
//! `eval_truth` says which truth value it is, if it is one, and copies nothing for that.
#![tactic(auto)]

mod arithmetic;
mod elements;
mod evaluation;
mod fault;
mod found;
mod known;
mod operations;
mod places;
mod preparing;
mod relative;
mod scene;
mod transforms;

pub use evaluation::{eval, eval_truth};
pub use fault::EvalFault;
