// What a side has, read from its bytes.
ghost use Rattle.std.specs.Prelude.{◌≡◌, ◌⊎◌, ◌≤◌, ◌++◌, ◌∷◌, false, length, take, drop, IfOk, OnOk, IfSome, IfNone, IsErrOf, IsTrue};
ghost use Rattle.gate_journal.specs.Parts.{payloads_in, AreWithin};
ghost use Rattle.gate_journal.specs.Reading.{HasNoHeader, HasNoRecords, HasRecords, IsNext};
ghost use Rattle.gate_journal.specs.Records.{header, place_of, IsClosed, IsNoJournal};
ghost use Rattle.host_model.specs.Causes.{HasCause, Rose};
ghost use Rattle.host_model.specs.Hosts.{MeetsAll, NowOf, StillAll};

use crate::faults::OpenFault;
use crate::format::{CLOSED, FIRST_GATE, MAX_SIDE_END, OPEN};
use crate::payloads::Part;
use host_model::{DiskFailed, Host, Side};
use std::alloc::{AllocError, Global};

/// The generation of the header that stands first.
pub(crate) fn read_header(bytes: &[u8]) -> Option<u8>
    ensures header { IfSome result (λ generation. bytes.now ≡ 1 ∷ header generation ++ drop FIRST_GATE bytes.now) }
    ensures known { IfSome result (λ generation. generation ≤ 2) }
    ensures long { IfSome result (λ _. FIRST_GATE ≤ length bytes.now) }
    ensures none { IfNone result (HasNoHeader bytes.now) }
{
    match bytes {
        [
            OPEN,
            b'N',
            b'I',
            b'M',
            b'B',
            b'U',
            b'S',
            b'1',
            generation,
            ..
        ] if *generation <= 2 => { Some(*generation) }
        _ => None,
    }
}

/// What stands at a gate.
pub(crate) enum Next<'a> {
    /// No byte, or one other than 1.
    End,
    /// An open gate and no whole record.
    Cut,
    /// A record, and the bytes behind it.
    Record { payload: &'a [u8], rest: &'a [u8] },
}

/// The record at this gate.
pub(crate) fn next_record(bytes: &[u8]) -> Next<'_>
    ensures { IsNext bytes.now result }
{
    match bytes {
        [OPEN, first, second, third, fourth, rest @ ..] => {
            let len = u32::from_be_bytes([*first, *second, *third, *fourth]) as usize;
            if rest.len() < len {
                Next::Cut
            } else {
                Next::Record {
                    payload: &rest[..len],
                    rest: &rest[len..],
                }
            }
        }
        [OPEN, ..] => Next::Cut,
        _ => Next::End,
    }
}

/// Where whole records end that begin at the first gate, and which parts of the side's bytes their payloads are, up to a gate
/// that isn't open. A record that would end past the last place is refused.
pub(crate) fn read_records(
    alloc: Global,
    bytes: &[u8],
) -> Result<Option<(u64, Vec<Part>)>, AllocError>
    requires { FIRST_GATE ≤ length bytes.now }
    ensures some { IfOk result (λ found. IfSome found (λ records. HasRecords (payloads_in bytes.now records.1.items) (drop FIRST_GATE bytes.now))) }
    ensures place { IfOk result (λ found. IfSome found (λ records. records.0 ≡ place_of (payloads_in bytes.now records.1.items))) }
    ensures within { IfOk result (λ found. IfSome found (λ records. AreWithin bytes.now records.1.items)) }
    ensures none { IfOk result (λ found. IfNone found (HasNoRecords (drop FIRST_GATE bytes.now))) }
{
    let mut parts = Vec::new(alloc);
    let mut rest = &bytes[FIRST_GATE as usize..];
    let mut place = FIRST_GATE;
    loop {
        match next_record(rest) {
            Next::End => break,
            Next::Cut => return Ok(None),
            Next::Record {
                payload,
                rest: behind,
            } => {
                let end = place + payload.len() as u64 + 5;
                if end >= MAX_SIDE_END {
                    return Ok(None);
                }
                parts.push(Part {
                    start: place as usize + 5,
                    len: payload.len(),
                })?;
                rest = behind;
                place = end;
            }
        }
    }
    Ok(Some((place, parts)))
}

/// Why a side without a header is not open.
pub(crate) fn without_header(bytes: &[u8]) -> OpenFault
    requires { HasNoHeader bytes.now }
    ensures closed { result ≡ OpenFault.Closed → IsClosed bytes.now }
    ensures no_journal { result ≡ OpenFault.NotAJournal → IsNoJournal bytes.now }
    ensures either { (result ≡ OpenFault.Closed) ⊎ (result ≡ OpenFault.NotAJournal) }
{
    match bytes {
        [OPEN, ..] => OpenFault::NotAJournal,
        _ => OpenFault::Closed,
    }
}

/// Whether a side's first byte is 1. No other byte is read.
pub(crate) fn is_open<H: Host>(host: &mut H, side: Side) -> Result<bool, DiskFailed>
    ensures closed { H.tells → IfOk result (λ starts. starts ≡ false → IsClosed (H.reads host.old side)) }
    ensures opened { H.tells → IfOk result (λ starts. IsTrue starts → IsClosed (H.reads host.old side) → ⊥) }
    ensures still { H.tells → StillAll H.Host host.old host.new }
    ensures any_moment { H.tells → MeetsAll H.Host host.old host.new (NowOf H.Host host.old) }
    ensures cause { HasCause (H.disk_faults host.old) (H.disk_faults host.new) result }
    ensures disk_quiet { OnOk result (H.disk_faults host.new ≡ H.disk_faults host.old) }
    ensures say_faults { H.say_faults host.new ≡ H.say_faults host.old }
{
    let mut first = [CLOSED];
    host.read(side, 0, &mut first)?;
    Ok(first[0] == OPEN)
}

/// The bytes of a side, where the host tells what it holds. What is past the last place where records may end counts
/// for nothing, and isn't read.
pub(crate) fn read_side<H: Host>(
    alloc: Global,
    host: &mut H,
    side: Side,
) -> Result<Vec<u8>, OpenFault>
    ensures bytes { H.tells → IfOk result (λ bytes. bytes.items ≡ take MAX_SIDE_END (H.reads host.old side)) }
    ensures most { IfOk result (λ bytes. length bytes.items ≤ MAX_SIDE_END) }
    ensures still { H.tells → StillAll H.Host host.old host.new }
    ensures any_moment { H.tells → MeetsAll H.Host host.old host.new (NowOf H.Host host.old) }
    ensures cause { IsErrOf result OpenFault.DiskFault → Rose (H.disk_faults host.old) (H.disk_faults host.new) }
    ensures disk_quiet { ¬ IsErrOf result OpenFault.DiskFault → H.disk_faults host.new ≡ H.disk_faults host.old }
    ensures disk_faults { H.disk_faults host.old ≤ H.disk_faults host.new }
    ensures say_faults { H.say_faults host.new ≡ H.say_faults host.old }
    ensures no_other { (IsErrOf result OpenFault.Closed → ⊥) × (IsErrOf result OpenFault.NotAJournal → ⊥) }
{
    let len = host.len(side)?.min(MAX_SIDE_END);
    let mut bytes = vec![in alloc; 0; len as usize]?;
    let count = host.read(side, 0, &mut bytes)?;
    bytes.truncate(count);
    Ok(bytes)
}
