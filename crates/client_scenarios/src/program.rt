//! Calls of the program with the standard transforms of targeting.
ghost use Rattle.std.specs.Prelude.{IsTrue};
ghost use Rattle.jexl_transforms.specs.Answering.{AnswersAs};
ghost use Rattle.jexl_transforms.specs.Meaning.{is_standard};
ghost use Rattle.jexl_transforms.specs.Table.{HasStandardNames, names_of};
ghost use Rattle.client_scenarios.specs.Puts.{IsPut};

use crate::shelf::{File, put_files};
use host_model::{MemShelf, MemSource};
use jexl_transforms::{
    Transform, TransformTable, bucket_transform, date_transform, event_nonzero_transform,
    event_seen_transform, event_sum_transform, version_transform,
};
use jexl_value::{Attributes, Value};
use plain_text::LAST_MOMENT;
use row_tables::CountingHost;
use session_run::{RunStatus, nimbus};
use std::alloc::{AllocError, Global};

/// How many standard transforms there are.
const STANDARD_NAMES: usize = 6;

/// A call of the program: its words, between which there is one space each, its moment, and the files, of which the
/// call with this number fails.
#[derive(Clone, Copy)]
pub(crate) struct Call<'a> {
    pub(crate) words: &'a str,
    pub(crate) moment: u64,
    pub(crate) files: &'a [File<'a>],
    pub(crate) failing: u64,
}

/// Calls the program. Where memory is wanting for what the call needs, it ends with `OutOfMemory`.
pub(crate) fn call_program(
    alloc: Global,
    call: Call<'_>,
    source: &mut MemSource,
    host: &mut CountingHost,
) -> RunStatus {
    let mut words = Vec::new(alloc);
    if add_words(alloc, call.words, &mut words) {
        call_words(alloc, &words, call, source, host)
    } else {
        RunStatus::OutOfMemory
    }
}

// Adds the words of a text, which has none where it is empty.
fn add_words(alloc: Global, text: &str, words: &mut Vec<String>) -> bool {
    let mut all = true;
    for word in text.split(' ') {
        all = all && (text.is_empty() || add_word(alloc, word, words));
    }
    all
}

fn add_word(alloc: Global, word: &str, words: &mut Vec<String>) -> bool {
    match String::from_str(alloc, word) {
        Ok(word) => words.push(word).is_ok(),
        Err(AllocError) => false,
    }
}

fn call_words(
    alloc: Global,
    words: &[String],
    call: Call<'_>,
    source: &mut MemSource,
    host: &mut CountingHost,
) -> RunStatus {
    match MemShelf::new(alloc, &[call.failing]) {
        Ok(mut shelf) => call_over(alloc, words, call, source, &mut shelf, host),
        Err(AllocError) => RunStatus::OutOfMemory,
    }
}

fn call_over(
    alloc: Global,
    words: &[String],
    call: Call<'_>,
    source: &mut MemSource,
    shelf: &mut MemShelf,
    host: &mut CountingHost,
) -> RunStatus {
    if put_files(alloc, shelf, call.files) {
        answer(alloc, words, call.moment, source, shelf, host)
    } else {
        RunStatus::OutOfMemory
    }
}

// Puts a transform of a standard name at the end of a table, unless memory is wanting.
fn put(alloc: Global, table: &mut TransformTable, name: &str, transform: Transform)
    requires standard { IsTrue (is_standard name.now) }
    requires callable { Transform.IsAlwaysCallable transform }
    requires answers { AnswersAs name.now (Transform.post transform) }
    ensures names { IsPut (names_of table.old) name.now (names_of table.new) }
{
    let _ = table.push(alloc, name, transform);
}

// A box of a closure is made where it is used, so all are made here. They are let go of at one exit, and whether each was put
// into the table is asked once.
fn answer(
    alloc: Global,
    words: &[String],
    moment: u64,
    source: &mut MemSource,
    shelf: &mut MemShelf,
    host: &mut CountingHost,
) -> RunStatus {
    let (Ok(version), Ok(date), Ok(bucket), Ok(sum), Ok(nonzero), Ok(seen)) = (
        Box::new(
            alloc,
            |attributes: &Attributes, subject: &Value, arguments: &[Value]| {
                version_transform(attributes, subject, arguments)
            },
        ),
        Box::new(
            alloc,
            |attributes: &Attributes, subject: &Value, arguments: &[Value]| {
                date_transform(attributes, subject, arguments)
            },
        ),
        Box::new(
            alloc,
            move |attributes: &Attributes, subject: &Value, arguments: &[Value]| {
                bucket_transform(alloc, attributes, subject, arguments)
            },
        ),
        Box::new(
            alloc,
            |attributes: &Attributes, subject: &Value, arguments: &[Value]| {
                event_sum_transform(attributes, subject, arguments)
            },
        ),
        Box::new(
            alloc,
            |attributes: &Attributes, subject: &Value, arguments: &[Value]| {
                event_nonzero_transform(attributes, subject, arguments)
            },
        ),
        Box::new(
            alloc,
            |attributes: &Attributes, subject: &Value, arguments: &[Value]| {
                event_seen_transform(attributes, subject, arguments)
            },
        ),
    ) else {
        return RunStatus::OutOfMemory;
    };
    let mut table = TransformTable::new(alloc);
    put(alloc, &mut table, "versionCompare", version);
    put(alloc, &mut table, "date", date);
    put(alloc, &mut table, "bucketSample", bucket);
    put(alloc, &mut table, "eventSum", sum);
    put(alloc, &mut table, "eventCountNonZero", nonzero);
    put(alloc, &mut table, "eventLastSeen", seen);
    if table.names() != STANDARD_NAMES {
        return RunStatus::OutOfMemory;
    }
    answer_with(alloc, words, moment, &table, source, shelf, host)
}

// The same with a table that has them.
fn answer_with(
    alloc: Global,
    words: &[String],
    moment: u64,
    table: &TransformTable,
    source: &mut MemSource,
    shelf: &mut MemShelf,
    host: &mut CountingHost,
) -> RunStatus
    requires table { HasStandardNames table.now }
{
    nimbus(
        alloc,
        words,
        moment.min(LAST_MOMENT),
        table,
        source,
        shelf,
        host,
    )
}
