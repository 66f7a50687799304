//! Tables of rows on what is read from texts, which stand on standard input: plain text, JSON, recipes, versions, Jexl
//! expressions from tokens to their values, the transforms that they call, and contexts. A line tells of each table that its rows
//! pass, or what was found and what was wanted. `row_tables` says how a table is written. The kind of a row is what is read, a
//! slash, and a name, and the functions that `find` and those beside it name say what a row of each kind is.
#![tactic(auto)]

mod contexts;
mod expressions;
mod json_texts;
mod lengths;
mod meanings;
mod payloads;
mod plain;
mod records;
mod tokens;
mod transforms;
mod trees;
mod values;
mod versions;

use json_length::text_length;
use plain_text::is_name;
use row_tables::{Fault, Found, Kinds, Question, report_on};
use std::alloc::Global;
use std::io;

struct TextKinds;

impl Kinds for TextKinds {
    fn find(&self, alloc: Global, row: Question<'_>, found: &mut Found) -> Result<(), Fault> {
        let (part, kind) = row.kind.split_once('/').ok_or(Fault::NoRow)?;
        if part == "bytes" {
            return find_of_bytes(alloc, kind, row.input, found);
        }
        let input = row.text()?;
        find_of_text(alloc, part, kind, row.given, input, found)
    }
}

fn find_of_bytes(alloc: Global, kind: &str, input: &[u8], found: &mut Found) -> Result<(), Fault> {
    match kind {
        "lines" => plain::find_lines(alloc, input, found),
        "words" => plain::find_words(alloc, input, found),
        "slug" => plain::find_slug(alloc, input, found),
        "name" => Ok(found.displayed(&is_name(input))),
        "number" => Ok(plain::add_number(input, found)),
        "moment" => Ok(plain::add_moment(input, found)),
        "json" | "readable" => Ok(trees::add_read(alloc, kind, input, found)),
        _ => Err(Fault::NoRow),
    }
}

fn find_of_text(
    alloc: Global,
    part: &str,
    kind: &str,
    given: &str,
    input: &str,
    found: &mut Found,
) -> Result<(), Fault> {
    match part {
        "order" => find_of_order(alloc, kind, input, found),
        "json" => find_of_json(alloc, kind, input, found),
        "recipes" => find_of_recipes(alloc, kind, given, input, found),
        "jexl" => find_of_jexl(alloc, kind, given, input, found),
        "values" => values::find(alloc, kind, input, found),
        "contexts" => contexts::find(alloc, kind, given, input, found),
        _ => Err(Fault::NoRow),
    }
}

fn find_of_order(alloc: Global, kind: &str, input: &str, found: &mut Found) -> Result<(), Fault> {
    match kind {
        "slugs" => plain::find_order(alloc, input, found),
        "versions" => versions::find_order(input, found),
        "chain" => Ok(versions::add_chain(input, found)),
        _ => Err(Fault::NoRow),
    }
}

fn find_of_json(alloc: Global, kind: &str, input: &str, found: &mut Found) -> Result<(), Fault> {
    match kind {
        "member" => Ok(trees::add_member_of_copy(alloc, input, found)),
        "same" => trees::find_same(alloc, input, found),
        "length" => lengths::find_length(alloc, input, found),
        "text-length" => Ok(found.displayed(&text_length(input))),
        "whole-length" => lengths::find_whole_length(input, found),
        "within" => lengths::find_length_within(alloc, input, found),
        _ => Err(Fault::NoRow),
    }
}

fn find_of_recipes(
    alloc: Global,
    kind: &str,
    given: &str,
    input: &str,
    found: &mut Found,
) -> Result<(), Fault> {
    match kind {
        "record" => records::find_of_record(alloc, kind, input, found),
        "with" => records::find_with(alloc, kind, given, input, found),
        "absent" => records::find_with(alloc, kind, "record", input, found),
        "equal" => records::find_equal(alloc, input, found),
        "payload" | "fault" => payloads::find_of_payload(alloc, kind, input, "", found),
        "inserted" | "last" => payloads::find_of_slugs(alloc, kind, input, found),
        _ => Err(Fault::NoRow),
    }
}

fn find_of_jexl(
    alloc: Global,
    kind: &str,
    given: &str,
    input: &str,
    found: &mut Found,
) -> Result<(), Fault> {
    match kind {
        "tokens" | "count" | "tree" | "reading" => Ok(tokens::add_read(alloc, kind, input, found)),
        "value" | "truth" | "call" => {
            meanings::find_with_standard(alloc, kind, given, input, found)
        }
        "wanting-value" | "wanting-call" => {
            meanings::find_with_wanting(alloc, kind, given, input, found)
        }
        "version" | "date" | "bucket" => transforms::find_answer(alloc, kind, input, found),
        "again" => transforms::find_pushed_again(alloc, input, found),
        _ => Err(Fault::NoRow),
    }
}

fn main(rt: HostRuntime) -> io::Result<()> {
    let text = io::read_to_string(rt.alloc(), rt.reader())?;
    let mut report = String::new(rt.alloc());
    report_on(rt.alloc(), &TextKinds, &text, &mut report)?;
    print!(rt; "{report}")
}
