//! The order of versions of the toolkit version format, as in `1.0pre1` and `95.!`.
//!
//! A version is read as parts between dots, and each part as two numbers and two strings:
//! `number-a string-b number-c string-d`. The order goes part by part, and a version with fewer parts
//! counts as having empty ones after them. Every text is a version.
#![tactic(auto)]

mod comparing;
mod front;
mod laws;
mod numbers;
mod part;

pub use comparing::compare;
pub use laws::version_order_is_total;
