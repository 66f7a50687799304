// The lines of a text and the words of a line, each as where it starts and where it ends.
ghost use Rattle.std.specs.Prelude.{◌≡◌, ◌+◌, ◌^◌, ◌<◌, ◌∷◌, ◌++◌, [], length, IfOk, OnOk, position};
ghost use Rattle.plain_text.specs.Spans.{trimmed_len};
ghost use Rattle.plain_text.specs.Spans as spec;

use memchr::memchr;
use sequences::Sequence;
use std::alloc::{AllocError, Global};

/// Where the lines stand, each without the byte 10 that ends it and without one byte 13
/// directly before that or before the end of the text. Bytes after the last byte 10 are a line.
pub fn lines(alloc: Global, bytes: &[u8]) -> Result<Sequence<(usize, usize)>, AllocError>
    ensures { IfOk result (λ spans. spans ≡ spec.lines bytes.now) }
{
    let mut spans = Sequence::new(alloc);
    let mut start = 0;
    while let Some(len) = line_end(&bytes[start..]) {
        spans.push((start, start + trimmed_len(&bytes[start..start + len])))?;
        start += len + 1;
    }
    push_last_line(&mut spans, start, &bytes[start..])?;
    Ok(spans)
}

/// The place of the first line end.
fn line_end(bytes: &[u8]) -> Option<usize>
    ensures { result ≡ position spec.is_line_end bytes.now }
{
    match bytes {
        [b'\n', ..] => Some(0),
        _ => memchr(b'\n', bytes),
    }
}

/// The length without one byte 13 at the end.
fn trimmed_len(part: &[u8]) -> usize
    ensures { result ≡ trimmed_len part.now }
{
    match part {
        [front @ .., b'\r'] => front.len(),
        _ => part.len(),
    }
}

/// What follows the last line end is a line where there are bytes.
fn push_last_line(
    spans: &mut Sequence<(usize, usize)>,
    start: usize,
    rest: &[u8],
) -> Result<(), AllocError>
    requires { start + length rest.now < 2 ^ 64 }
    ensures { OnOk result (spans.new ≡ spans.old ++ spec.last_line start rest.now) }
{
    if rest.is_empty() {
        return Ok(());
    }
    spans.push((start, start + trimmed_len(rest)))
}

/// Where the words stand: the longest runs of bytes without a space or a tab.
pub fn words(alloc: Global, line: &[u8]) -> Result<Sequence<(usize, usize)>, AllocError>
    ensures { IfOk result (λ spans. spans ≡ spec.words line.now) }
{
    let mut spans = Sequence::new(alloc);
    let mut start = 0;
    while let Some(len) = first_blank(&line[start..]) {
        push_word(&mut spans, start, &line[start..start + len])?;
        start += len + 1;
    }
    push_word(&mut spans, start, &line[start..])?;
    Ok(spans)
}

/// The place of the first blank.
fn first_blank(line: &[u8]) -> Option<usize>
    ensures { result ≡ position spec.is_blank line.now }
{
    line.iter().position(|byte| is_blank(*byte))
}

fn is_blank(byte: u8) -> bool
    ensures { result ≡ spec.is_blank byte }
{
    byte == b' ' || byte == b'\t'
}

/// What stands between two blanks is a word where there are bytes.
fn push_word(
    spans: &mut Sequence<(usize, usize)>,
    start: usize,
    part: &[u8],
) -> Result<(), AllocError>
    requires { start + length part.now < 2 ^ 64 }
    ensures { OnOk result (spans.new ≡ spans.old ++ spec.word_span start part.now) }
{
    if part.is_empty() {
        return Ok(());
    }
    spans.push((start, start + part.len()))
}
