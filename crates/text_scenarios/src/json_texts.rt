//! Values of Jexl and JSON texts, the one from the other.
use crate::trees::{add_tree, tree};
use jexl_value::{Value, tree_of, value_of};
use row_tables::{Fault, Found};
use std::alloc::Global;

/// The value of a JSON text.
pub(crate) fn value(alloc: Global, text: &str) -> Result<Value, Fault> {
    let tree = tree(alloc, text)?;
    Ok(value_of(alloc, &tree)?)
}

/// Adds the compact JSON text of a value.
pub(crate) fn add_value(alloc: Global, value: &Value, found: &mut Found) {
    let Ok(tree) = tree_of(alloc, value) else {
        return found.lack_memory();
    };
    add_tree(alloc, &tree, found)
}
