// The script, read to its end.
ghost use Rattle.std.specs.Prelude.{◌≡◌, ◌≤◌, ◌<◌, ◌^◌, ◌++◌, [], length, IfOk, OnOk, OnErr, IsErrOf};
ghost use Rattle.host_model.specs.Causes.{HasCause, Rose};
ghost use Rattle.session_run.specs.Scripts.{TakesFew};

use host_model::{Source, SourceFailed};
use std::alloc::Global;

/// The most bytes of a script.
const MAX_SCRIPT_LEN: usize = 1_048_576;

/// How many bytes are asked for at once, at most.
const PIECE: usize = 4096;

/// Why there is no script.
#[derive(Clone, Copy, Debug, PartialEq, Eq)]
pub(crate) enum ScriptFault {
    /// The source gave more than 1,048,576 bytes.
    TooLong,
    SourceFault,
    OutOfMemory,
}

/// Reads some bytes into the piece, and gives them. None come of a piece that isn't empty only where none are left.
fn read_piece<'p, S: Source>(source: &mut S, piece: &'p mut [u8]) -> Result<&'p [u8], SourceFailed>
    ensures within { IfOk result (λ bytes. length bytes.now ≤ length piece.old) }
    ensures bytes { S.tells → IfOk result (λ bytes. S.left source.old ≡ bytes.now ++ S.left source.new) }
    ensures end { S.tells → IfOk result (λ bytes. 0 < length piece.old → bytes.now ≡ [] → S.left source.new ≡ []) }
    ensures kept { S.tells → OnErr result (S.left source.new ≡ S.left source.old) }
    ensures cause { HasCause (S.faults source.old) (S.faults source.new) result }
    ensures quiet { OnOk result (S.faults source.new ≡ S.faults source.old) }
{
    let count = source.read(piece)?;
    Ok(&piece[..count])
}

/// Reads the source to its end, or until it has given too much. Each turn takes at least one byte, and all together at
/// most one more than a script may have.
pub(crate) fn read_script<S: Source>(alloc: Global, source: &mut S) -> Result<Vec<u8>, ScriptFault>
    ensures bytes { IfOk result (λ script. S.tells → script.items ≡ S.left source.old) }
    ensures all { OnOk result (S.tells → S.left source.new ≡ []) }
    ensures taken { S.tells → TakesFew (S.left source.old) (S.left source.new) }
    ensures short { IfOk result (λ script. length script.items ≤ 2 ^ 20) }
    ensures too_long { IsErrOf result ScriptFault.TooLong → S.tells → 2 ^ 20 < length (S.left source.old) }
    ensures quiet { ¬ IsErrOf result ScriptFault.SourceFault → S.faults source.new ≡ S.faults source.old }
    ensures cause { IsErrOf result ScriptFault.SourceFault → Rose (S.faults source.old) (S.faults source.new) }
{
    let mut script = Vec::new(alloc);
    let mut piece = [0u8; PIECE];
    loop {
        let room = MAX_SCRIPT_LEN - script.len();
        let bytes = match read_piece(source, &mut piece[..PIECE.min(room + 1)]) {
            Ok(bytes) => bytes,
            Err(_) => return Err(ScriptFault::SourceFault),
        };
        if bytes.is_empty() {
            return Ok(script);
        }
        if bytes.len() > room {
            return Err(ScriptFault::TooLong);
        }
        if script.extend_from_slice(bytes).is_err() {
            return Err(ScriptFault::OutOfMemory);
        }
    }
}
