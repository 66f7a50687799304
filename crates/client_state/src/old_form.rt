// Old forms of states: whether rows are one, and what makes the rows of the state of it.
ghost use Rattle.std.specs.Prelude.{◌≡◌, ◌∷◌, [], false, IsTrue, IfOk, codes, length};
ghost use Rattle.row_batches.specs.Batch.{applied, batch_text, whole_of};
ghost use Rattle.row_batches.specs.Between.{between};
ghost use Rattle.row_batches.specs.declared.change.RowChange.TheVariants.{Put};
ghost use Rattle.state_values.specs.Values.{participation_byte};
ghost use Rattle.state_codec.specs.Encoding.{row};
ghost use Rattle.client_state.specs.declared.client_state.ClientState.{ClientState};
ghost use Rattle.client_state.specs.Forms.{old_rows, needs_migration, IsForm, IsOldForm};
ghost use Rattle.client_state.specs.Sound.{IsConsistent};
ghost use Rattle.client_state.specs.Encoding.{rows_of, encoding};

use crate::client_state::ClientState;
use row_batches::{Batch, StoreRow};
use std::alloc::{AllocError, Global};

/// Whether the row `p` is 0 or 1, as it is in the old form of a state alone. It takes no memory.
#[tactic(auto, using(crate::proofs::Forms::old_where, crate::proofs::Forms::new_where))]
pub fn needs_migration(rows: &[StoreRow]) -> bool
    ensures row { result ≡ needs_migration rows.now }
    ensures old { IsTrue result → (s : ClientState) → IsForm s rows.now → IsOldForm s rows.now }
    ensures encoded { result ≡ false → (s : ClientState) → IsForm s rows.now → rows.now ≡ rows_of s }
{
    state_codec::needs_migration(rows)
}

/// The batch that makes the rows of a state of their old form: a put of the row `p`. It has 9 bytes.
#[tactic(auto, using(crate::proofs::Migrating::migrated, crate::proofs::Migrating::rows_migrated, crate::proofs::Migrating::text_migrated))]
pub fn migration(alloc: Global, state: &ClientState) -> Result<Batch, AllocError>
    requires { IsConsistent state.now }
    ensures put { IfOk result (λ batch. batch ≡ record { clear = false; changes = Put (row (codes "p") (participation_byte state.now.enrolment ∷ [])) ∷ [] }) }
    ensures between { IfOk result (λ batch. batch ≡ between (old_rows state.now) (rows_of state.now)) }
    ensures gives { IfOk result (λ batch. applied batch (old_rows state.now) ≡ rows_of state.now) }
    ensures whole { IfOk result (λ batch. batch_text (whole_of (applied batch (old_rows state.now))) ≡ encoding state.now) }
    ensures size { IfOk result (λ batch. length (batch_text batch) ≡ 9) }
{
    state_codec::migration(alloc, &state.enrolment)
}
