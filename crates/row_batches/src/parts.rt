// What stands at the front of the bytes of changes.
ghost use Rattle.std.specs.Prelude.{◌≡◌, ◌<◌, ◌^◌, ◌++◌, ◌∷◌, length, IfSome, IsNone};
ghost use Rattle.row_batches.specs.BatchParts.{IsNext, IsPutAt, IsDeleteAt, HasNoShortField, HasNoLongField};
ghost use Rattle.row_batches.specs.Batches.{short_field, long_field};

use crate::writing::{DELETE, PUT};

/// What stands at the front of the bytes of changes.
pub(crate) enum Next<'a> {
    /// No byte.
    End,
    /// Bytes that don't begin with a change.
    NoChange,
    /// A put, and the bytes behind it.
    Put {
        key: &'a [u8],
        value: &'a [u8],
        rest: &'a [u8],
    },
    /// A delete, and the bytes behind it.
    Delete {
        key: &'a [u8],
        rest: &'a [u8],
    },
}

/// The change at the front.
pub(crate) fn next_change(bytes: &[u8]) -> Next<'_>
    ensures { IsNext bytes.now result }
{
    match bytes {
        [] => Next::End,
        [PUT, fields @ ..] => put_of_fields(fields),
        [DELETE, key @ ..] => delete_of_field(key),
        _ => Next::NoChange,
    }
}

// The put whose fields stand at the front.
fn put_of_fields(bytes: &[u8]) -> Next<'_>
    ensures { IsPutAt bytes.now result }
{
    let Some((key, behind)) = short_field(bytes) else {
        return Next::NoChange;
    };
    let Some((value, rest)) = long_field(behind) else {
        return Next::NoChange;
    };
    Next::Put { key, value, rest }
}

// The delete whose key stands at the front.
fn delete_of_field(bytes: &[u8]) -> Next<'_>
    ensures { IsDeleteAt bytes.now result }
{
    match short_field(bytes) {
        Some((key, rest)) => Next::Delete { key, rest },
        None => Next::NoChange,
    }
}

// The field at the front whose number of bytes stands in two bytes, and what follows it.
fn short_field(bytes: &[u8]) -> Option<(&[u8], &[u8])>
    ensures some { IfSome result (λ p. (bytes.now ≡ short_field p.0.now ++ p.1.now) × (length p.0.now < 2 ^ 16)) }
    ensures none { IsNone result → HasNoShortField bytes.now }
{
    let (size, rest) = bytes.split_first_chunk::<2>()?;
    let len = u16::from_be_bytes(*size) as usize;
    rest.split_at_checked(len)
}

// The field at the front whose number of bytes stands in four bytes, and what follows it.
fn long_field(bytes: &[u8]) -> Option<(&[u8], &[u8])>
    ensures some { IfSome result (λ p. (bytes.now ≡ long_field p.0.now ++ p.1.now) × (length p.0.now < 2 ^ 32)) }
    ensures none { IsNone result → HasNoLongField bytes.now }
{
    let (size, rest) = bytes.split_first_chunk::<4>()?;
    let len = u32::from_be_bytes(*size) as usize;
    rest.split_at_checked(len)
}
