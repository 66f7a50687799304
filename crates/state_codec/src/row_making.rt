// The rows that a state has one of each.
ghost use Rattle.std.specs.Prelude.{◌≡◌, ◌∷◌, [], codes, IfOk};
ghost use Rattle.state_codec.specs.Kinds.{letter};
ghost use Rattle.state_values.specs.Values.{hyphenated, bit, participation_byte};
ghost use Rattle.state_codec.specs.Encoding.{row};
ghost use Rattle.state_values.specs.Statuses as statuses;

use crate::row_kind::RowKind;
use enrol_states::State;
use row_batches::StoreRow;
use sequences::{Sequence, Text};
use state_values::{number_bytes, participation_byte};
use std::alloc::{AllocError, Global};
use uuid::Uuid;

/// The kind's letter, and what follows it.
pub(crate) fn key_of(alloc: Global, kind: RowKind, rest: &str) -> Result<Sequence<u8>, AllocError>
    ensures { IfOk result (λ key. key ≡ letter kind ∷ rest.now) }
{
    let rest = rest.as_bytes();
    let mut key = Vec::with_capacity(alloc, rest.len() + 1)?;
    key.push(kind.letter())?;
    key.extend_from_slice(rest)?;
    Ok(Sequence::from_vec(key))
}

/// The row whose key is the kind's letter and what follows it.
pub(crate) fn row_of(
    alloc: Global,
    kind: RowKind,
    rest: &str,
    value: Vec<u8>,
) -> Result<StoreRow, AllocError>
    ensures { IfOk result (λ r. r ≡ row (letter kind ∷ rest.now) value.items) }
{
    Ok(StoreRow {
        key: key_of(alloc, kind, rest)?,
        value: Sequence::from_vec(value),
    })
}

/// The row of the id's text, in lower case and with hyphens (RFC 9562).
#[tactic(auto, unfolding(state_values::specs::Values::hyphenated))]
pub(crate) fn id_row(alloc: Global, id: Uuid) -> Result<StoreRow, AllocError>
    ensures { IfOk result (λ r. r ≡ row (codes "i") (hyphenated id)) }
{
    let mut buffer = Uuid::encode_buffer();
    let text = id.hyphenated().encode_lower(&mut buffer);
    row_of(alloc, RowKind::Id, "", text.as_bytes().to_vec(alloc)?)
}

/// The row whose value is one byte.
pub(crate) fn byte_row(alloc: Global, kind: RowKind, byte: u8) -> Result<StoreRow, AllocError>
    ensures { IfOk result (λ r. r ≡ row (letter kind ∷ []) (byte ∷ [])) }
{
    let mut value = Vec::new(alloc);
    value.push(byte)?;
    row_of(alloc, kind, "", value)
}

/// The row of participation.
pub(crate) fn participation_row(alloc: Global, state: &State) -> Result<StoreRow, AllocError>
    ensures { IfOk result (λ r. r ≡ row (codes "p") (participation_byte state.now ∷ [])) }
{
    byte_row(alloc, RowKind::Participation, participation_byte(state))
}

pub(crate) fn flag_row(alloc: Global, kind: RowKind, flag: bool) -> Result<StoreRow, AllocError>
    ensures { IfOk result (λ r. r ≡ row (letter kind ∷ []) (bit flag ∷ [])) }
{
    byte_row(alloc, kind, bit(flag))
}

pub(crate) fn moment_row(alloc: Global, kind: RowKind, moment: u64) -> Result<StoreRow, AllocError>
    ensures { IfOk result (λ r. r ≡ row (letter kind ∷ []) (statuses.number moment)) }
{
    let value = number_bytes(moment).as_slice().to_vec(alloc)?;
    row_of(alloc, kind, "", value)
}

pub(crate) fn version_row(alloc: Global, version: &Text) -> Result<StoreRow, AllocError>
    ensures { IfOk result (λ r. r ≡ row (codes "v") version.now) }
{
    let value = version.as_str().as_bytes().to_vec(alloc)?;
    row_of(alloc, RowKind::Version, "", value)
}

/// 1 for a set flag, else 0.
pub(crate) fn bit(flag: bool) -> u8
    ensures { result ≡ bit flag }
{
    if flag { 1 } else { 0 }
}
