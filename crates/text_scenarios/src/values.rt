//! Rows on the values that JSON texts become, how they compare, and the attributes that names give.
use crate::json_texts::{add_value, value};
use jexl_value::{Attributes, NamedValues, Text, Value, order, same, truthy};
use row_tables::{Fault, Found, parts};
use std::alloc::Global;

/// What is found of a row. Of the kind `truthy` whether a value counts as true, of `rewritten` the JSON text of its copy, of `order`
/// how two values compare in both orders, and of `same` whether they are the same; the row is their JSON texts.
pub(crate) fn find(alloc: Global, kind: &str, input: &str, found: &mut Found) -> Result<(), Fault> {
    match kind {
        "order" | "same" => find_of_two(alloc, kind, input, found),
        "attribute" => find_attribute(alloc, input, found),
        _ => find_of_one(alloc, kind, input, found),
    }
}

fn find_of_one(alloc: Global, kind: &str, input: &str, found: &mut Found) -> Result<(), Fault> {
    let value = value(alloc, input)?;
    match kind {
        "truthy" => Ok(found.displayed(&truthy(&value))),
        "rewritten" => Ok(add_copy(alloc, &value, found)),
        _ => Err(Fault::NoRow),
    }
}

fn find_of_two(alloc: Global, kind: &str, input: &str, found: &mut Found) -> Result<(), Fault> {
    let (left, right) = parts(input)?;
    let (left, right) = (value(alloc, left), value(alloc, right));
    match (&left, &right) {
        (Ok(left), Ok(right)) if kind == "order" => Ok(add_order(left, right, found)),
        (Ok(left), Ok(right)) => Ok(found.displayed(&same(left, right))),
        _ => Err(Fault::NoRow),
    }
}

fn add_order(left: &Value, right: &Value, found: &mut Found) {
    found.debugged(&order(left, right));
    found.text(" ");
    found.debugged(&order(right, left));
}

// Adds the JSON text of a copy of a value.
fn add_copy(alloc: Global, value: &Value, found: &mut Found) {
    let Ok(copy) = value.clone() else {
        return found.lack_memory();
    };
    if copy != *value {
        found.text("a copy differs: ");
    }
    add_value(alloc, &copy, found)
}

// The number of attributes where one name is set twice, and the value of a name among them, or `none`. Row: the name.
fn find_attribute(alloc: Global, input: &str, found: &mut Found) -> Result<(), Fault> {
    let mut attributes = Attributes {
        pairs: NamedValues::new(alloc),
    };
    set_twice(alloc, &mut attributes.pairs)?;
    Ok(add_attribute(alloc, &attributes, input, found))
}

fn add_attribute(alloc: Global, attributes: &Attributes, name: &str, found: &mut Found) {
    found.displayed(&attributes.pairs.as_slice().len());
    found.text(" ");
    match attributes.get(name) {
        Some(value) => add_value(alloc, value, found),
        None => found.text("none"),
    }
}

// Sets `locale` twice.
fn set_twice(alloc: Global, pairs: &mut NamedValues) -> Result<(), Fault> {
    pairs.insert(Text::new(alloc, "locale")?, Value::Null)?;
    set(alloc, pairs, "app_name", "\"fenix\"")?;
    set(alloc, pairs, "locale", "[\"en\"]")
}

// A name gets the value of a JSON text.
fn set(alloc: Global, pairs: &mut NamedValues, name: &str, text: &str) -> Result<(), Fault> {
    let value = value(alloc, text)?;
    pairs.insert(Text::new(alloc, name)?, value)?;
    Ok(())
}
