// Types as texts.
ghost use Rattle.std.specs.Prelude.{◌≡◌, ◌==◌, IfOk, IsTrue, option_map, option_and_then, position};
ghost use Rattle.fml_types.specs.Shape as shape;
ghost use Rattle.fml_types.specs.Shapes.{key_of, shape_of};
ghost use Rattle.fml_types.specs.TypeTexts.{is_option, in_option, is_bracket_word, is_simple_word, is_type_name, named_type, simple_type, key_in, cut, without_front, without_end, closed, map_in, bracketed, type_of, spelled, GivesType};

use crate::field_type::{FieldType, InnerType, Key};
use memchr::memchr;
use plain_text::is_name;
use sequences::Text;
use std::alloc::{AllocError, AllocFailed, Global};
use std::str;

/// Why `read_type` gives no type.
#[derive(Clone, Copy, Debug, PartialEq, Eq)]
pub enum TypeFault {
    /// The text is no type's.
    BadType,
    OutOfMemory,
}

impl From<AllocError> for TypeFault {
    ghost use Rattle.fml_types.specs.declared.type_text.TypeFault.{TypeFault};

    ghost from_gives = { λ _ f. f ≡ TypeFault.OutOfMemory };

    fn from(_e: AllocError) -> TypeFault {
        TypeFault::OutOfMemory
    }
}

impl<T: Drop> From<AllocFailed<T>> for TypeFault {
    ghost use Rattle.fml_types.specs.declared.type_text.TypeFault.{TypeFault};

    ghost from_gives = { λ _ f. f ≡ TypeFault.OutOfMemory };

    fn from(_e: AllocFailed<T>) -> TypeFault {
        TypeFault::OutOfMemory
    }
}

const MAX_LEVELS: usize = 8;

/// The type that a text spells: `Boolean`, `Int`, `String`, `Text`, `Image`, `Option<T>`,
/// `List<T>`, `Map<K, T>` or a name, where K is `String` or a name. Spaces may stand between these
/// parts. None of the eight words is a name here, no `Option` stands directly in an `Option`, and
/// at most 8 brackets stand inside one another.
pub fn read_type(alloc: Global, text: &str) -> Result<FieldType, TypeFault>
    ensures { GivesType result (spelled text.now) }
{
    type_of(alloc, text.as_bytes(), MAX_LEVELS)
}

#[cycle(type_of)]
fn type_of(alloc: Global, bytes: &[u8], levels: usize) -> Result<FieldType, TypeFault>
    ensures { GivesType result (type_of levels bytes.now) }
{
    let Some((word, rest)) = cut(bytes, b'<') else {
        return simple_type(alloc, bytes);
    };
    if levels == 0 {
        return Err(TypeFault::BadType);
    }
    let Some(inside) = closed(rest) else {
        return Err(TypeFault::BadType);
    };
    bracketed(alloc, without_end(word), inside, levels - 1)
}

#[cycle(type_of)]
#[tactic(auto, unfolding(crate::specs::TypeTexts::bracketed))]
fn bracketed(
    alloc: Global,
    word: &[u8],
    inside: &[u8],
    levels: usize,
) -> Result<FieldType, TypeFault>
    ensures { GivesType result (bracketed (type_of levels) word.now inside.now) }
{
    if word == b"Option".as_slice() {
        return option_of(alloc, inside, levels);
    }
    if word == b"List".as_slice() {
        return list_of(alloc, inside, levels);
    }
    if word == b"Map".as_slice() {
        return map_of(alloc, inside, levels);
    }
    Err(TypeFault::BadType)
}

#[cycle(type_of)]
fn option_of(alloc: Global, inside: &[u8], levels: usize) -> Result<FieldType, TypeFault>
    ensures { GivesType result (option_and_then in_option (type_of levels inside.now)) }
{
    let inner = type_of(alloc, inside, levels)?;
    if is_option(&inner) {
        return Err(TypeFault::BadType);
    }
    Ok(FieldType::Option(InnerType::new(alloc, inner)?))
}

#[cycle(type_of)]
fn list_of(alloc: Global, inside: &[u8], levels: usize) -> Result<FieldType, TypeFault>
    ensures { GivesType result (option_map shape.list (type_of levels inside.now)) }
{
    let inner = type_of(alloc, inside, levels)?;
    Ok(FieldType::List(InnerType::new(alloc, inner)?))
}

#[cycle(type_of)]
#[tactic(auto, unfolding(crate::specs::TypeTexts::map_in))]
fn map_of(alloc: Global, inside: &[u8], levels: usize) -> Result<FieldType, TypeFault>
    ensures { GivesType result (map_in (type_of levels) inside.now) }
{
    let Some((key, value)) = cut(inside, b',') else {
        return Err(TypeFault::BadType);
    };
    let Some(key) = key_in(alloc, without_end(key))? else {
        return Err(TypeFault::BadType);
    };
    let inner = type_of(alloc, without_front(value), levels)?;
    Ok(FieldType::Map(key, InnerType::new(alloc, inner)?))
}

fn is_option(of: &FieldType) -> bool
    ensures { result ≡ is_option (shape_of of.now) }
{
    match of {
        FieldType::Option(_) => true,
        _ => false,
    }
}

#[tactic(auto, unfolding(crate::specs::TypeTexts::key_in))]
fn key_in(alloc: Global, bytes: &[u8]) -> Result<Option<Key>, AllocError>
    ensures { IfOk result (λ key. option_map key_of key ≡ key_in bytes.now) }
{
    if bytes == b"String".as_slice() {
        return Ok(Some(Key::String));
    }
    if is_type_name(bytes) {
        return Ok(Some(Key::Named(text_of(alloc, bytes)?)));
    }
    Ok(None)
}

fn simple_type(alloc: Global, bytes: &[u8]) -> Result<FieldType, TypeFault>
    ensures { GivesType result (simple_type bytes.now) }
{
    if bytes == b"Boolean".as_slice() {
        return Ok(FieldType::Boolean);
    }
    if bytes == b"Int".as_slice() {
        return Ok(FieldType::Int);
    }
    if bytes == b"String".as_slice() {
        return Ok(FieldType::String);
    }
    if bytes == b"Text".as_slice() {
        return Ok(FieldType::Text);
    }
    if bytes == b"Image".as_slice() {
        return Ok(FieldType::Image);
    }
    named_type(alloc, bytes)
}

fn named_type(alloc: Global, bytes: &[u8]) -> Result<FieldType, TypeFault>
    ensures { GivesType result (named_type bytes.now) }
{
    if is_type_name(bytes) {
        Ok(FieldType::Named(text_of(alloc, bytes)?))
    } else {
        Err(TypeFault::BadType)
    }
}

/// The name as a text.
fn text_of(alloc: Global, name: &[u8]) -> Result<Text, AllocError>
    requires { IsTrue (is_type_name name.now) }
    ensures { IfOk result (λ text. text ≡ name.now) }
{
    let Ok(text) = str::from_utf8(name) else {
        unreachable!();
    };
    Text::new(alloc, text)
}

fn is_type_name(bytes: &[u8]) -> bool
    ensures { result ≡ is_type_name bytes.now }
{
    is_name(bytes) && !(is_simple_word(bytes) || is_bracket_word(bytes))
}

fn is_simple_word(bytes: &[u8]) -> bool
    ensures { result ≡ is_simple_word bytes.now }
{
    bytes == b"Boolean".as_slice()
        || bytes == b"Int".as_slice()
        || bytes == b"String".as_slice()
        || bytes == b"Text".as_slice()
        || bytes == b"Image".as_slice()
}

fn is_bracket_word(bytes: &[u8]) -> bool
    ensures { result ≡ is_bracket_word bytes.now }
{
    bytes == b"Option".as_slice() || bytes == b"List".as_slice() || bytes == b"Map".as_slice()
}

/// What stands before the first such byte, and what after it.
fn cut(bytes: &[u8], at: u8) -> Option<(&[u8], &[u8])>
    ensures { option_map (λ p. (p.0.now, p.1.now)) result ≡ cut at bytes.now }
{
    let place = first(bytes, at)?;
    Some((&bytes[..place], &bytes[place + 1..]))
}

fn first(bytes: &[u8], at: u8) -> Option<usize>
    ensures { result ≡ position (λ x. x == at) bytes.now }
{
    memchr(at, bytes)
}

/// What stands before the bracket that ends it, without spaces around it.
fn closed(bytes: &[u8]) -> Option<&[u8]>
    ensures { option_map (λ b. b.now) result ≡ closed bytes.now }
{
    match bytes {
        [inside @ .., b'>'] => Some(without_spaces(inside)),
        _ => None,
    }
}

/// The bytes without the spaces at their front and at their end. It takes no memory.
pub fn without_spaces(bytes: &[u8]) -> &[u8]
    ensures { result.now ≡ without_front (without_end bytes.now) }
{
    without_front(without_end(bytes))
}

fn without_front(bytes: &[u8]) -> &[u8]
    ensures { result.now ≡ without_front bytes.now }
{
    let mut rest = bytes;
    while let [b' ', after @ ..] = rest {
        rest = after;
    }
    rest
}

fn without_end(bytes: &[u8]) -> &[u8]
    ensures { result.now ≡ without_end bytes.now }
{
    let mut len = bytes.len();
    while len > 0 {
        if bytes[len - 1] != b' ' {
            return &bytes[..len];
        }
        len -= 1;
    }
    &[]
}
