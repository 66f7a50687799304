// Names that commas divide, and names in order.
ghost use Rattle.std.specs.Prelude.{◌≡◌, ◌++◌, [], position, IfOk, OnOk, IsUtf8};
ghost use Rattle.fml_types.specs.TypeTexts.{without_front, without_end};
ghost use Rattle.fml_reader.specs.Features.{is_comma, kept_name, names_in, in_order};

use fml_types::without_spaces;
use memchr::memchr;
use sequences::{Sequence, Text};
use std::alloc::{AllocError, Global};
use std::collections::BTreeSet;
use std::str;

/// The names that commas divide, each without the spaces around it. Empty names are dropped.
pub(crate) fn names_in(alloc: Global, text: &Text) -> Result<Sequence<Text>, AllocError>
    ensures { IfOk result (λ names. names ≡ names_in text.now) }
{
    let text = text.as_str();
    pieces(alloc, text.as_bytes())
}

fn pieces(alloc: Global, bytes: &[u8]) -> Result<Sequence<Text>, AllocError>
    requires { IsUtf8 bytes.now }
    ensures { IfOk result (λ names. names ≡ names_in bytes.now) }
{
    let mut names = Sequence::new(alloc);
    let mut start = 0;
    while let Some(len) = first_comma(&bytes[start..]) {
        push_name(alloc, &mut names, &bytes[start..start + len])?;
        start += len + 1;
    }
    push_name(alloc, &mut names, &bytes[start..])?;
    Ok(names)
}

fn first_comma(bytes: &[u8]) -> Option<usize>
    ensures { result ≡ position is_comma bytes.now }
{
    memchr(b',', bytes)
}

fn push_name(alloc: Global, names: &mut Sequence<Text>, piece: &[u8]) -> Result<(), AllocError>
    requires { IsUtf8 piece.now }
    ensures { OnOk result (names.new ≡ names.old ++ kept_name (without_front (without_end piece.now))) }
{
    push_kept(alloc, names, without_spaces(piece))
}

fn push_kept(alloc: Global, names: &mut Sequence<Text>, name: &[u8]) -> Result<(), AllocError>
    requires { IsUtf8 name.now }
    ensures { OnOk result (names.new ≡ names.old ++ kept_name name.now) }
{
    if name.len() == 0 {
        return Ok(());
    }
    let text = text_of(alloc, name)?;
    names.push(text)?;
    Ok(())
}

/// The name as a text.
fn text_of(alloc: Global, name: &[u8]) -> Result<Text, AllocError>
    requires { IsUtf8 name.now }
    ensures { IfOk result (λ text. text ≡ name.now) }
{
    let Ok(text) = str::from_utf8(name) else {
        unreachable!();
    };
    Text::new(alloc, text)
}

/// The names in order by their bytes, each once.
pub(crate) fn in_order(alloc: Global, names: Sequence<Text>) -> Result<Sequence<Text>, AllocError>
    ensures { IfOk result (λ all. all ≡ in_order [] names) }
{
    let mut set = BTreeSet::new(alloc);
    for name in names.into_vec() {
        set.insert(name)?;
    }
    let all: Vec<Text> = set.into_iter().collect(alloc)?;
    Ok(Sequence::from_vec(all))
}
