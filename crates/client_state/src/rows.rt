// The rows of a client's state, in the order of their keys.
ghost use Rattle.std.specs.Prelude.{◌≡◌, ◌++◌, IfOk};
ghost use Rattle.row_batches.specs.Rows.{AreRows};
ghost use Rattle.client_state.specs.Sound.{IsConsistent};
ghost use Rattle.client_state.specs.Encoding.{rows_of};

use crate::client_state::ClientState;
use row_batches::StoreRow;
use sequences::Sequence;
use state_codec::{first_rows_of, later_rows_of};
use std::alloc::{AllocError, Global};

/// The rows of the state.
#[tactic(auto, using(crate::proofs::KeyOrder::rows_rise), unfolding(crate::specs::Encoding::rows_with))]
pub(crate) fn rows_of(alloc: Global, state: &ClientState) -> Result<Sequence<StoreRow>, AllocError>
    requires { IsConsistent state.now }
    ensures rows { IfOk result (λ rows. rows ≡ rows_of state.now) }
    ensures order { IfOk result AreRows }
{
    let first = first_rows_of(alloc, &state.enrolment)?;
    let events = state.events.rows(alloc)?;
    let holds = state.preferences.hold_rows(alloc)?;
    let later = later_rows_of(alloc, &state.enrolment)?;
    let outbox = state.outbox.rows(alloc)?;
    let values = state.preferences.value_rows(alloc)?;
    joined(first, events, holds, later, outbox, values)
}

/// The items of six sequences, one after the other.
pub(crate) fn joined<T: Drop>(
    first: Sequence<T>,
    second: Sequence<T>,
    third: Sequence<T>,
    fourth: Sequence<T>,
    fifth: Sequence<T>,
    sixth: Sequence<T>,
) -> Result<Sequence<T>, AllocError>
    ensures { IfOk result (λ all. all ≡ first ++ (second ++ (third ++ (fourth ++ (fifth ++ sixth))))) }
{
    let mut all = first.into_vec();
    all.append(&mut second.into_vec())?;
    all.append(&mut third.into_vec())?;
    all.append(&mut fourth.into_vec())?;
    all.append(&mut fifth.into_vec())?;
    all.append(&mut sixth.into_vec())?;
    Ok(Sequence::from_vec(all))
}
