// The state of bytes.
ghost use Rattle.std.specs.Prelude.{IfOk, IsErrOf};
ghost use Rattle.enrol_states.specs.declared.state.State.{State};
ghost use Rattle.state_codec.specs.Forms.{IsEncoded, MakesForm};
ghost use Rattle.state_codec.specs.Sound.{IsSound};

use crate::row_reading::{MAX_STATE_BYTES, state_of};
use enrol_states::State;
use row_batches::{Batch, BatchFault, RowMap, batch_of};
use state_values::CodecFault;
use std::alloc::Global;

/// The sound state of which the bytes are the encoding, or encode the old form. `NotAState` comes exactly where there is none.
pub fn read_state(alloc: Global, bytes: &[u8]) -> Result<State, CodecFault>
    ensures state { IfOk result (λ s. IsSound s × IsEncoded s bytes.now) }
    ensures not_a_state { IsErrOf result CodecFault.NotAState → (s : State) → IsSound s → IsEncoded s bytes.now → ⊥ }
{
    if bytes.len() > MAX_STATE_BYTES {
        return Err(CodecFault::NotAState);
    }
    match batch_of(alloc, bytes) {
        Ok(batch) => state_made(alloc, batch),
        Err(BatchFault::NotABatch) => Err(CodecFault::NotAState),
        Err(BatchFault::OutOfMemory) => Err(CodecFault::OutOfMemory),
    }
}

// The sound state of which this is the batch that makes its rows, or their old form. `NotAState` comes exactly where there is
// none.
fn state_made(alloc: Global, batch: Batch) -> Result<State, CodecFault>
    ensures state { IfOk result (λ s. IsSound s × MakesForm s batch) }
    ensures not_a_state { IsErrOf result CodecFault.NotAState → (s : State) → IsSound s → MakesForm s batch → ⊥ }
{
    if !batch.is_clear() {
        return Err(CodecFault::NotAState);
    }
    let mut map = RowMap::new(alloc);
    map.reserve(batch.changes().len())?;
    map.apply(batch);
    state_of(alloc, map.as_slice())
}
