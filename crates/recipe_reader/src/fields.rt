// Single values of a record.
ghost use Rattle.std.specs.Prelude.{◌≡◌, option_map, Some, IfOk};
ghost use Rattle.json_tree.specs.Json.{get};
ghost use Rattle.json_tree.specs.Tree.{json_of};
ghost use Rattle.recipe_reader.specs.Outcome.{Gives, needed, only_if};
ghost use Rattle.recipe_reader.specs.Values.{text_at, count_at, count_within, is_schema, optional_text, truth_or_absent, optional_truth, kept_if, has_bytes, has_more_than_blanks, is_blank, is_moment, is_null, present};
ghost use Rattle.std.specs.List.{list_all};
ghost use Rattle.recipe_reader.specs.declared.recipe.SkipReason.TheVariants.{BadField};

use crate::recipe::{RecordFault, SkipReason};
use json_tree::Tree;
use plain_text::read_moment;
use sequences::Text;
use std::alloc::{AllocError, Global};

/// The key's text, where it has one.
pub fn text_at<'a>(entry: &'a Tree, key: &str) -> Option<&'a str>
    ensures { option_map (λ s. s.now) result ≡ text_at key.now (json_of entry.now) }
{
    match entry.get(key) {
        Some(Tree::Text(text)) => Some(text.as_str()),
        _ => None,
    }
}

/// The value, where it is there and not null.
pub fn present(value: Option<&Tree>) -> Option<&Tree>
    ensures { option_map (λ t. json_of t.now) result ≡ present (option_map (λ t. json_of t.now) value.entry) }
{
    match value {
        Some(tree) => not_null(tree),
        None => None,
    }
}

fn not_null(tree: &Tree) -> Option<&Tree>
    ensures { option_map (λ t. json_of t.now) result ≡ present (Some (json_of tree.now)) }
{
    if is_null(tree) { None } else { Some(tree) }
}

fn is_null(tree: &Tree) -> bool
    ensures { result ≡ is_null (json_of tree.now) }
{
    match tree {
        Tree::Null => true,
        _ => false,
    }
}

/// The key's whole number, where it has one from `low` to `high`.
pub fn count_at(entry: &Tree, key: &str, low: u32, high: u32) -> Option<u32>
    ensures { result ≡ count_at key.now low high (json_of entry.now) }
{
    match entry.get(key) {
        Some(Tree::Whole(n)) => count_within(*n, low, high),
        _ => None,
    }
}

fn count_within(n: i64, low: u32, high: u32) -> Option<u32>
    ensures { result ≡ count_within n low high }
{
    if n >= i64::from(low) && n <= i64::from(high) {
        Some(n as u32)
    } else {
        None
    }
}

/// Whether the part before the first `.` is `1`.
#[tactic(auto, using(crate::proofs::Schemas::schema_starts))]
pub fn is_schema(bytes: &[u8]) -> bool
    ensures { result ≡ is_schema bytes.now }
{
    match bytes {
        [] => false,
        [a] => *a == b'1',
        [a, b, ..] => *a == b'1' && *b == b'.',
    }
}

/// The key's text, or nothing where it is absent or null.
pub fn optional_text<'a>(entry: &'a Tree, key: &str) -> Result<Option<&'a str>, RecordFault>
    ensures { Gives (λ o. option_map (λ s. s.now) o) result (needed BadField (optional_text (get key.now (json_of entry.now)))) }
{
    match entry.get(key) {
        None | Some(Tree::Null) => Ok(None),
        Some(Tree::Text(text)) => Ok(Some(text.as_str())),
        Some(_) => Err(RecordFault::Skip(SkipReason::BadField)),
    }
}

/// The key's truth value, false where it is absent.
pub fn truth_or_absent(entry: &Tree, key: &str) -> Result<bool, RecordFault>
    ensures { Gives (λ b. b) result (needed BadField (truth_or_absent (get key.now (json_of entry.now)))) }
{
    match entry.get(key) {
        None => Ok(false),
        Some(Tree::Truth(truth)) => Ok(*truth),
        Some(_) => Err(RecordFault::Skip(SkipReason::BadField)),
    }
}

/// The key's truth value, false where it is absent or null.
pub fn optional_truth(entry: &Tree, key: &str) -> Result<bool, RecordFault>
    ensures { Gives (λ b. b) result (needed BadField (optional_truth (get key.now (json_of entry.now)))) }
{
    match entry.get(key) {
        None | Some(Tree::Null) => Ok(false),
        Some(Tree::Truth(truth)) => Ok(*truth),
        Some(_) => Err(RecordFault::Skip(SkipReason::BadField)),
    }
}

/// The text, unless it has no bytes.
pub fn kept_with_bytes(alloc: Global, text: Option<&str>) -> Result<Option<Text>, AllocError>
    ensures { IfOk result (λ o. o ≡ kept_if has_bytes (option_map (λ s. s.now) text.entry)) }
{
    match text {
        Some(text) => kept(alloc, text, !text.is_empty()),
        None => Ok(None),
    }
}

/// The text, unless it is blanks alone.
pub fn kept_with_more(alloc: Global, text: Option<&str>) -> Result<Option<Text>, AllocError>
    ensures { IfOk result (λ o. o ≡ kept_if has_more_than_blanks (option_map (λ s. s.now) text.entry)) }
{
    match text {
        Some(text) => kept(alloc, text, !all_blank(text.as_bytes())),
        None => Ok(None),
    }
}

/// The text, where it is a moment.
pub fn kept_moment(alloc: Global, text: Option<&str>) -> Result<Option<Text>, AllocError>
    ensures { IfOk result (λ o. o ≡ kept_if is_moment (option_map (λ s. s.now) text.entry)) }
{
    match text {
        Some(text) => kept(alloc, text, read_moment(text.as_bytes()).is_some()),
        None => Ok(None),
    }
}

fn kept(alloc: Global, text: &str, is_kept: bool) -> Result<Option<Text>, AllocError>
    ensures { IfOk result (λ o. o ≡ only_if is_kept text.now) }
{
    if is_kept {
        Ok(Some(Text::new(alloc, text)?))
    } else {
        Ok(None)
    }
}

fn all_blank(bytes: &[u8]) -> bool
    ensures { result ≡ list_all is_blank bytes.now }
{
    bytes.iter().all(|byte| is_blank(*byte))
}

fn is_blank(byte: u8) -> bool
    ensures { result ≡ is_blank byte }
{
    byte == b' ' || byte == b'\t' || byte == b'\n' || byte == b'\r'
}
