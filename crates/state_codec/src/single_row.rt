// The rows that a state has one of, by its fields.
ghost use Rattle.std.specs.Prelude.{◌≡◌, ◌↔◌, IfOk, IsTrue};
ghost use Rattle.enrol_states.specs.Consistent.{IsConsistent};
ghost use Rattle.state_codec.specs.SingleRows.{single_value, single_row};

use crate::row_kind::RowKind;
use crate::row_making::{flag_row, id_row, moment_row, participation_row, version_row};
use enrol_states::State;
use row_batches::StoreRow;
use state_values::participation_byte;
use std::alloc::{AllocError, Global};

/// A row that a state has one of.
#[derive(Clone, Copy)]
pub(crate) enum SingleRow {
    Id,
    Participation,
    IsPending,
    Installed,
    Updated,
    Version,
}

impl SingleRow {
    /// Whether both states have one value of it. Their fields are compared, and no value is made.
    #[tactic(auto, using(crate::proofs::SingleRows::ids_told, crate::proofs::SingleRows::bytes_told, crate::proofs::SingleRows::flags_told, crate::proofs::SingleRows::moments_told, crate::proofs::SingleRows::texts_told))]
    pub(crate) fn has_same_value(self, old: &State, new: &State) -> bool
        requires old_state { IsConsistent old.now }
        requires new_state { IsConsistent new.now }
        ensures { IsTrue result ↔ (single_value self old.now ≡ single_value self new.now) }
    {
        match self {
            SingleRow::Id => old.id == new.id,
            SingleRow::Participation => participation_byte(old) == participation_byte(new),
            SingleRow::IsPending => old.pending.is_some() == new.pending.is_some(),
            SingleRow::Installed => old.installed == new.installed,
            SingleRow::Updated => old.updated == new.updated,
            SingleRow::Version => old.version == new.version,
        }
    }

    /// The state's row of it.
    pub(crate) fn of(self, alloc: Global, state: &State) -> Result<StoreRow, AllocError>
        ensures { IfOk result (λ r. r ≡ single_row self state.now) }
    {
        match self {
            SingleRow::Id => id_row(alloc, state.id),
            SingleRow::Participation => participation_row(alloc, state),
            SingleRow::IsPending => flag_row(alloc, RowKind::IsPending, state.pending.is_some()),
            SingleRow::Installed => moment_row(alloc, RowKind::Installed, state.installed),
            SingleRow::Updated => moment_row(alloc, RowKind::Updated, state.updated),
            SingleRow::Version => version_row(alloc, &state.version),
        }
    }
}
