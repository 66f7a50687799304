// Old forms of states: whether rows are one, and what makes the rows of the state of it.
ghost use Rattle.std.specs.Prelude.{◌≡◌, ◌∷◌, [], false, IsTrue, IfOk, codes, length};
ghost use Rattle.enrol_states.specs.Consistent.{IsConsistent};
ghost use Rattle.enrol_states.specs.declared.state.State.{State};
ghost use Rattle.row_batches.specs.Batch.{applied, batch_text, whole_of};
ghost use Rattle.row_batches.specs.Between.{between};
ghost use Rattle.row_batches.specs.declared.change.RowChange.TheVariants.{Put};
ghost use Rattle.state_codec.specs.Forms.{old_rows, is_old, needs_migration, IsForm, IsOldForm};
ghost use Rattle.state_values.specs.Values.{participation_byte};
ghost use Rattle.state_codec.specs.Encoding.{row, rows_of, encoding};

use crate::row_kind::RowKind;
use crate::row_making::participation_row;
use enrol_states::State;
use row_batches::{Batch, RowChange, StoreRow};
use sequences::Sequence;
use std::alloc::{AllocError, Global};

/// Whether the row `p` is 0 or 1, as it is in the old form of a state alone. It takes no memory.
pub fn needs_migration(rows: &[StoreRow]) -> bool
    ensures row { result ≡ needs_migration rows.now }
    ensures old { IsTrue result → (s : State) → IsForm s rows.now → IsOldForm s rows.now }
    ensures encoded { result ≡ false → (s : State) → IsForm s rows.now → rows.now ≡ rows_of s }
{
    has_old(rows)
}

/// Whether one of the rows is that of participation in the old form.
pub(crate) fn has_old(rows: &[StoreRow]) -> bool
    ensures { result ≡ needs_migration rows.now }
{
    rows.iter().any(|row| is_old(row))
}

fn is_old(row: &StoreRow) -> bool
    ensures { result ≡ is_old row.now }
{
    row.key.as_slice() == [RowKind::Participation.letter()].as_slice()
        && (row.value.as_slice() == [0].as_slice() || row.value.as_slice() == [1].as_slice())
}

/// The batch that makes the rows of a state of their old form: a put of the row `p`. It has 9 bytes.
pub fn migration(alloc: Global, state: &State) -> Result<Batch, AllocError>
    requires { IsConsistent state.now }
    ensures put { IfOk result (λ batch. batch ≡ record { clear = false; changes = Put (row (codes "p") (participation_byte state.now ∷ [])) ∷ [] }) }
    ensures between { IfOk result (λ batch. batch ≡ between (old_rows state.now) (rows_of state.now)) }
    ensures gives { IfOk result (λ batch. applied batch (old_rows state.now) ≡ rows_of state.now) }
    ensures whole { IfOk result (λ batch. batch_text (whole_of (applied batch (old_rows state.now))) ≡ encoding state.now) }
    ensures size { IfOk result (λ batch. length (batch_text batch) ≡ 9) }
{
    let mut changes = Sequence::new(alloc);
    let row = participation_row(alloc, state)?;
    changes.push(RowChange::Put(row))?;
    Ok(Batch::of_changes(changes))
}
