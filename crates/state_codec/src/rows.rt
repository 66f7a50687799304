// The rows of a state, in the order of their keys.
ghost use Rattle.std.specs.Prelude.{◌≡◌, ◌++◌, IfOk, OnOk};
ghost use Rattle.enrol_states.specs.Consistent.{IsConsistent};
ghost use Rattle.row_batches.specs.Rows.{AreRows};
ghost use Rattle.state_codec.specs.Encoding.{status_rows, last_rows, first_rows, later_rows, rows_of};
ghost use Rattle.state_values.specs.Values.{participation_byte};

use crate::changes::pending_recipes;
use crate::row_kind::RowKind;
use crate::row_making::{byte_row, flag_row, id_row, moment_row, version_row};
use enrol_states::State;
use row_batches::{StoreRow, add_rows};
use sequences::Sequence;
use state_values::participation_byte;
use std::alloc::{AllocError, Global};

/// The rows of the state, in the order of their keys. The length of the state's encoding is not limited.
pub fn rows_of(alloc: Global, state: &State) -> Result<Sequence<StoreRow>, AllocError>
    requires { IsConsistent state.now }
    ensures rows { IfOk result (λ rows. rows ≡ rows_of state.now) }
    ensures order { IfOk result AreRows }
{
    let mut rows = first_rows_of(alloc, state)?;
    add_later(alloc, &mut rows, participation_byte(state), state)?;
    Ok(rows)
}

/// The first rows of the state.
#[tactic(auto, unfolding(crate::specs::Encoding::first_rows))]
pub fn first_rows_of(alloc: Global, state: &State) -> Result<Sequence<StoreRow>, AllocError>
    ensures { IfOk result (λ rows. rows ≡ first_rows state.now) }
{
    let mut rows = Sequence::new(alloc);
    add_rows(
        alloc,
        &mut rows,
        &RowKind::Coenrolling,
        state.coenrolling.as_slice(),
    )?;
    Ok(rows)
}

/// The later rows of the state.
pub fn later_rows_of(alloc: Global, state: &State) -> Result<Sequence<StoreRow>, AllocError>
    ensures { IfOk result (λ rows. rows ≡ later_rows (participation_byte state.now) state.now) }
{
    later_rows(alloc, participation_byte(state), state)
}

/// The later rows of the state, where this is the byte of participation.
pub(crate) fn later_rows(
    alloc: Global,
    byte: u8,
    state: &State,
) -> Result<Sequence<StoreRow>, AllocError>
    ensures { IfOk result (λ rows. rows ≡ later_rows byte state.now) }
{
    let mut rows = Sequence::new(alloc);
    add_later(alloc, &mut rows, byte, state)?;
    Ok(rows)
}

// Adds each later row of the state.
fn add_later(
    alloc: Global,
    rows: &mut Sequence<StoreRow>,
    byte: u8,
    state: &State,
) -> Result<(), AllocError>
    ensures { OnOk result (rows.new ≡ rows.old ++ later_rows byte state.now) }
{
    rows.push(id_row(alloc, state.id)?)?;
    add_rows(alloc, rows, &RowKind::Live, state.live.as_slice())?;
    add_rows(
        alloc,
        rows,
        &RowKind::Pending,
        pending_recipes(&state.pending),
    )?;
    add_rows(alloc, rows, &RowKind::OptedOut, state.opted_out.as_slice())?;
    add_statuses(alloc, rows, byte, state)?;
    add_last(alloc, rows, state)
}

// Adds the rows of participation, of whether recipes are pending, and of the statuses.
fn add_statuses(
    alloc: Global,
    rows: &mut Sequence<StoreRow>,
    byte: u8,
    state: &State,
) -> Result<(), AllocError>
    ensures { OnOk result (rows.new ≡ rows.old ++ status_rows byte state.now) }
{
    rows.push(byte_row(alloc, RowKind::Participation, byte)?)?;
    rows.push(flag_row(alloc, RowKind::IsPending, state.pending.is_some())?)?;
    add_rows(alloc, rows, &RowKind::Status, state.rows.as_slice())
}

// Adds the rows of the moments and of the version.
fn add_last(alloc: Global, rows: &mut Sequence<StoreRow>, state: &State) -> Result<(), AllocError>
    ensures { OnOk result (rows.new ≡ rows.old ++ last_rows state.now) }
{
    rows.push(moment_row(alloc, RowKind::Installed, state.installed)?)?;
    rows.push(moment_row(alloc, RowKind::Updated, state.updated)?)?;
    rows.push(version_row(alloc, &state.version)?)
}
