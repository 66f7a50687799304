//! The values of Jexl, and the attributes that an expression names: JSON values whose numbers are
//! all whole.
#![tactic(auto)]

mod attributes;
mod comparing;
mod converting;
mod copying;
mod equality;
mod laws;
mod value;

pub use attributes::Attributes;
pub use comparing::{order, truthy};
pub use converting::{tree_of, value_of};
pub use equality::same;
pub use laws::{names_are_found, values_are_kept};
pub use sequences::Text;
pub use value::{NamedValues, Value, Values};
