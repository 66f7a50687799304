//! Rows on what the transforms answer, alone and out of a table.
use crate::json_texts::{add_value, value};
use crate::meanings::put;
use jexl_transforms::{
    PushFault, Transform, TransformAnswer, TransformTable, bucket_transform, date_transform,
    version_transform,
};
use jexl_value::{Attributes, NamedValues, Value};
use row_tables::{Fault, Found, parts};
use std::alloc::Global;

// A subject and its arguments.
#[derive(Drop)]
struct Call {
    subject: Value,
    arguments: Vec<Value>,
}

// Row: a value and a list of values, as JSON texts.
fn call_of(alloc: Global, input: &str) -> Result<Call, Fault> {
    let (subject, list) = parts(input)?;
    let arguments = arguments(alloc, list)?;
    Ok(Call {
        subject: value(alloc, subject)?,
        arguments,
    })
}

fn arguments(alloc: Global, text: &str) -> Result<Vec<Value>, Fault> {
    match value(alloc, text)? {
        Value::List(values) => Ok(values.into_vec()),
        _ => Err(Fault::NoRow),
    }
}

fn no_attributes(alloc: Global) -> Attributes {
    Attributes {
        pairs: NamedValues::new(alloc),
    }
}

// Adds the value of an answer as a JSON text, or why there is none.
fn add_answer(alloc: Global, answer: &TransformAnswer, found: &mut Found) {
    match answer {
        TransformAnswer::Gives(value) => add_value(alloc, value, found),
        TransformAnswer::Refused => found.text("refused"),
        TransformAnswer::OutOfMemory => found.text("out of memory"),
    }
}

/// The answer of a transform, of the kind `version`, `date` or `bucket`. Row: a subject and a list of arguments, as JSON
/// texts.
pub(crate) fn find_answer(
    alloc: Global,
    kind: &str,
    input: &str,
    found: &mut Found,
) -> Result<(), Fault> {
    let call = call_of(alloc, input)?;
    Ok(add_answer(alloc, &answer_to(alloc, kind, &call), found))
}

fn answer_to(alloc: Global, kind: &str, call: &Call) -> TransformAnswer {
    let attributes = no_attributes(alloc);
    match kind {
        "version" => version_transform(&attributes, &call.subject, &call.arguments),
        "date" => date_transform(&attributes, &call.subject, &call.arguments),
        _ => bucket_transform(alloc, &attributes, &call.subject, &call.arguments),
    }
}

/// The value of a call of the table as a JSON text, or the name of its fault. Row: a name, a subject and a list of
/// arguments.
pub(crate) fn find_called(
    alloc: Global,
    table: &TransformTable,
    input: &str,
    found: &mut Found,
) -> Result<(), Fault> {
    let (name, rest) = parts(input)?;
    let call = call_of(alloc, rest)?;
    Ok(add_called(alloc, table, name, &call, found))
}

fn add_called(alloc: Global, table: &TransformTable, name: &str, call: &Call, found: &mut Found) {
    let attributes = no_attributes(alloc);
    match table.call(name, &attributes, &call.subject, &call.arguments) {
        Ok(value) => add_value(alloc, &value, found),
        Err(fault) => found.debugged(&fault),
    }
}

/// What becomes of a transform of dates that is pushed behind one of its name, which finds no memory: the number of
/// names, the answer of the table, and that of the closure which was given back. Row: a subject and a list of arguments.
pub(crate) fn find_pushed_again(
    alloc: Global,
    input: &str,
    found: &mut Found,
) -> Result<(), Fault> {
    let (Ok(wanting), Ok(again)) = (
        Box::new(alloc, |_: &Attributes, _: &Value, _: &[Value]| {
            TransformAnswer::OutOfMemory
        }),
        Box::new(
            alloc,
            |attributes: &Attributes, subject: &Value, arguments: &[Value]| {
                date_transform(attributes, subject, arguments)
            },
        ),
    ) else {
        return Err(Fault::OutOfMemory);
    };
    let mut table = TransformTable::new(alloc);
    put(alloc, &mut table, "date", wanting);
    match table.push(alloc, "date", again) {
        Err(PushFault::DuplicateName(given_back)) => {
            find_both(alloc, &table, &given_back, input, found)
        }
        _ => Err(Fault::NoRow),
    }
}

fn find_both(
    alloc: Global,
    table: &TransformTable,
    given_back: &Transform,
    input: &str,
    found: &mut Found,
) -> Result<(), Fault>
    requires { Transform.IsAlwaysCallable given_back.now }
{
    let call = call_of(alloc, input)?;
    found.displayed(&table.names());
    found.text(" ");
    add_called(alloc, table, "date", &call, found);
    found.text(" ");
    let answer = given_back(&no_attributes(alloc), &call.subject, &call.arguments);
    Ok(add_answer(alloc, &answer, found))
}
