//! Rows on the meanings of expressions over the standard transforms, and over transforms that find no memory.
ghost use Rattle.std.specs.Prelude.{IsTrue};
ghost use Rattle.jexl_transforms.specs.Answering.{AnswersAs};
ghost use Rattle.jexl_transforms.specs.Meaning.{is_standard};

use crate::json_texts::{add_value, value};
use crate::transforms::find_called;
use jexl_eval::{eval, eval_truth};
use jexl_lexer::lex;
use jexl_parser::{Expr, parse};
use jexl_transforms::{
    Transform, TransformAnswer, TransformTable, bucket_transform, date_transform,
    event_nonzero_transform, event_seen_transform, event_sum_transform, version_transform,
};
use jexl_value::{Attributes, NamedValues, Value};
use row_tables::{Fault, Found};
use std::alloc::Global;

/// Puts a transform at the end of a table, unless memory is wanting.
pub(crate) fn put(alloc: Global, table: &mut TransformTable, name: &str, transform: Transform)
    requires standard { IsTrue (is_standard name.now) }
    requires callable { Transform.IsAlwaysCallable transform }
    requires answers { AnswersAs name.now (Transform.post transform) }
{
    let _ = table.push(alloc, name, transform);
}

/// A row over a table of the standard transforms, of the kind `value`, `truth` or `call`.
pub(crate) fn find_with_standard(
    alloc: Global,
    kind: &str,
    given: &str,
    input: &str,
    found: &mut Found,
) -> Result<(), Fault> {
    let (Ok(version), Ok(date), Ok(bucket), Ok(sum), Ok(nonzero), Ok(seen)) = (
        Box::new(
            alloc,
            |attributes: &Attributes, subject: &Value, arguments: &[Value]| {
                version_transform(attributes, subject, arguments)
            },
        ),
        Box::new(
            alloc,
            |attributes: &Attributes, subject: &Value, arguments: &[Value]| {
                date_transform(attributes, subject, arguments)
            },
        ),
        Box::new(
            alloc,
            move |attributes: &Attributes, subject: &Value, arguments: &[Value]| {
                bucket_transform(alloc, attributes, subject, arguments)
            },
        ),
        Box::new(
            alloc,
            |attributes: &Attributes, subject: &Value, arguments: &[Value]| {
                event_sum_transform(attributes, subject, arguments)
            },
        ),
        Box::new(
            alloc,
            |attributes: &Attributes, subject: &Value, arguments: &[Value]| {
                event_nonzero_transform(attributes, subject, arguments)
            },
        ),
        Box::new(
            alloc,
            |attributes: &Attributes, subject: &Value, arguments: &[Value]| {
                event_seen_transform(attributes, subject, arguments)
            },
        ),
    ) else {
        return Err(Fault::OutOfMemory);
    };
    let mut table = TransformTable::new(alloc);
    put(alloc, &mut table, "versionCompare", version);
    put(alloc, &mut table, "date", date);
    put(alloc, &mut table, "bucketSample", bucket);
    put(alloc, &mut table, "eventSum", sum);
    put(alloc, &mut table, "eventCountNonZero", nonzero);
    put(alloc, &mut table, "eventLastSeen", seen);
    if table.names() != 6 {
        return Err(Fault::OutOfMemory);
    }
    find_by(alloc, &table, kind, given, input, found)
}

/// A row over a table whose closures find no memory, of the kind `wanting-value` or `wanting-call`.
pub(crate) fn find_with_wanting(
    alloc: Global,
    kind: &str,
    given: &str,
    input: &str,
    found: &mut Found,
) -> Result<(), Fault> {
    let wanting = |_: &Attributes, _: &Value, _: &[Value]| TransformAnswer::OutOfMemory;
    let (Ok(version), Ok(date), Ok(bucket)) = (
        Box::new(alloc, wanting),
        Box::new(alloc, wanting),
        Box::new(alloc, wanting),
    ) else {
        return Err(Fault::OutOfMemory);
    };
    let mut table = TransformTable::new(alloc);
    put(alloc, &mut table, "versionCompare", version);
    put(alloc, &mut table, "date", date);
    put(alloc, &mut table, "bucketSample", bucket);
    find_by(alloc, &table, kind, given, input, found)
}

fn find_by(
    alloc: Global,
    table: &TransformTable,
    kind: &str,
    given: &str,
    input: &str,
    found: &mut Found,
) -> Result<(), Fault> {
    match kind {
        "value" | "truth" | "wanting-value" => {
            find_meaning(alloc, table, kind, given, input, found)
        }
        _ => find_called(alloc, table, input, found),
    }
}

// What an expression means over an object of attributes. Of the kind `truth` it is its truth value, or `none` where it has
// another value, and else its value as a JSON text; or it is the name of its fault. Row: the expression.
fn find_meaning(
    alloc: Global,
    table: &TransformTable,
    kind: &str,
    given: &str,
    input: &str,
    found: &mut Found,
) -> Result<(), Fault> {
    let attributes = attributes(alloc, given)?;
    match expression(alloc, input) {
        Ok(it) if kind == "truth" => Ok(add_truth(alloc, &it, &attributes, table, found)),
        Ok(it) => Ok(add_meaning(alloc, &it, &attributes, table, found)),
        Err(fault) => Err(fault),
    }
}

fn add_meaning(
    alloc: Global,
    expression: &Expr,
    attributes: &Attributes,
    table: &TransformTable,
    found: &mut Found,
) {
    match eval(alloc, expression, attributes, table) {
        Ok(value) => add_value(alloc, &value, found),
        Err(fault) => found.debugged(&fault),
    }
}

fn add_truth(
    alloc: Global,
    expression: &Expr,
    attributes: &Attributes,
    table: &TransformTable,
    found: &mut Found,
) {
    match eval_truth(alloc, expression, attributes, table) {
        Ok(Some(truth)) => found.displayed(&truth),
        Ok(None) => found.text("none"),
        Err(fault) => found.debugged(&fault),
    }
}

fn expression(alloc: Global, text: &str) -> Result<Expr, Fault> {
    let Ok(tokens) = lex(alloc, text) else {
        return Err(Fault::NoRow);
    };
    parse(alloc, tokens.as_slice()).ok().ok_or(Fault::NoRow)
}

fn attributes(alloc: Global, given: &str) -> Result<Attributes, Fault> {
    if given.is_empty() {
        let pairs = NamedValues::new(alloc);
        return Ok(Attributes { pairs });
    }
    match value(alloc, given)? {
        Value::Object(pairs) => Ok(Attributes { pairs }),
        _ => Err(Fault::NoRow),
    }
}
