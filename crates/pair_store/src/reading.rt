// What is found on the two sides.
ghost use Rattle.std.specs.Prelude.{◌≡◌, ◌≤◌, List, ℕ, IfOk, OnOk, IsErrOf};
ghost use Rattle.host_model.specs.Causes.{HasCause, Rose};
ghost use Rattle.host_model.specs.Hosts.{IsDurable, KeepsAll, MeetsAll, NowOf, OnSideOf, StillAll};
ghost use Rattle.host_model.specs.Sides.{other};
ghost use Rattle.gate_journal.specs.Records.{IsClosed};
ghost use Rattle.host_model.specs.declared.side.Side.{Side};
ghost use Rattle.pair_store.specs.Choice.{IsFound, IsRead};
ghost use Rattle.pair_store.specs.Moments.{ReadsInPhases, ReadsSide};

use crate::faults::PairFault;
use crate::records::{Found, Records};
use gate_journal::{Journal, OpenFault};
use host_model::{DiskFailed, Host, Side};
use std::alloc::Global;

// A side that isn't open.
fn found_closed<H: Host>(host: &mut H, side: Side) -> Result<Found, DiskFailed>
    ensures found { H.tells → IsClosed (H.reads host.old side) → IfOk result (λ found. IsFound side (H.reads host.old side) found) }
    ensures still { H.tells → StillAll H.Host host.old host.new }
    ensures any_moment { H.tells → MeetsAll H.Host host.old host.new (NowOf H.Host host.old) }
    ensures cause { HasCause (H.disk_faults host.old) (H.disk_faults host.new) result }
    ensures disk_quiet { OnOk result (H.disk_faults host.new ≡ H.disk_faults host.old) }
    ensures say_faults { H.say_faults host.new ≡ H.say_faults host.old }
{
    if host.len(side)? == 0 {
        Ok(Found::Empty)
    } else {
        Ok(Found::Shut)
    }
}

// A side that is open.
fn found_open(records: Records) -> Found
    ensures { (side : Side) (image : List ℕ) → IsRead records side image → IsFound side image result }
{
    if records.payloads.is_empty() {
        Found::Damaged
    } else {
        Found::Open(records)
    }
}

/// Syncs the side and reads it. It is synced also where memory is wanting.
pub(crate) fn found<H: Host>(alloc: Global, host: &mut H, side: Side) -> Result<Found, PairFault>
    ensures found { H.tells → IfOk result (λ found. IsFound side (H.reads host.old side) found) }
    ensures no_answer { (IsErrOf result PairFault.NoStore → ⊥) × (IsErrOf result PairFault.BadStore → ⊥) }

    ensures phases { H.tells → ReadsSide H.Host side host.old host.new result }
    ensures any_moment { H.tells → MeetsAll H.Host host.old host.new (NowOf H.Host host.old) }
    ensures durable { H.tells → ¬ IsErrOf result PairFault.DiskFault → IsDurable H.Host host.new side }
    ensures same { H.tells → ¬ IsErrOf result PairFault.DiskFault → H.reads host.new side ≡ H.reads host.old side }
    ensures rest { H.tells → KeepsAll H.Host (other side) host.old host.new }

    ensures cost { H.tells → H.written host.new ≡ H.written host.old }
    ensures cause { IsErrOf result PairFault.DiskFault → Rose (H.disk_faults host.old) (H.disk_faults host.new) }
    ensures disk_quiet { ¬ IsErrOf result PairFault.DiskFault → H.disk_faults host.new ≡ H.disk_faults host.old }
    ensures disk_faults { H.disk_faults host.old ≤ H.disk_faults host.new }
    ensures say_faults { H.say_faults host.new ≡ H.say_faults host.old }
{
    match Journal::open(alloc, host, side) {
        Ok((journal, payloads)) => Ok(found_open(Records {
            side,
            journal,
            payloads,
        })),
        Err(OpenFault::Closed) => Ok(found_closed(host, side)?),
        Err(OpenFault::NotAJournal) => Ok(Found::Damaged),
        Err(OpenFault::DiskFault) => Err(PairFault::DiskFault),
        Err(OpenFault::OutOfMemory) => Err(PairFault::OutOfMemory),
    }
}

/// Syncs both sides and reads them. Both are synced also where memory is wanting.
pub(crate) fn found_both<H: Host>(alloc: Global, host: &mut H) -> Result<(Found, Found), PairFault>
    ensures left { H.tells → IfOk result (λ both. IsFound Side.Left (H.reads host.old Side.Left) both.0) }
    ensures right { H.tells → IfOk result (λ both. IsFound Side.Right (H.reads host.old Side.Right) both.1) }
    ensures no_answer { (IsErrOf result PairFault.NoStore → ⊥) × (IsErrOf result PairFault.BadStore → ⊥) }

    ensures phases { H.tells → ReadsInPhases H.Host host.old host.new result }
    ensures any_moment { H.tells → MeetsAll H.Host host.old host.new (NowOf H.Host host.old) }
    ensures durable { H.tells → ¬ IsErrOf result PairFault.DiskFault → (side : Side) → IsDurable H.Host host.new side }
    ensures same { H.tells → ¬ IsErrOf result PairFault.DiskFault → (side : Side) → H.reads host.new side ≡ H.reads host.old side }
    ensures text { H.tells → H.said host.new ≡ H.said host.old }

    ensures cost { H.tells → H.written host.new ≡ H.written host.old }
    ensures cause { IsErrOf result PairFault.DiskFault → Rose (H.disk_faults host.old) (H.disk_faults host.new) }
    ensures disk_quiet { ¬ IsErrOf result PairFault.DiskFault → H.disk_faults host.new ≡ H.disk_faults host.old }
    ensures disk_faults { H.disk_faults host.old ≤ H.disk_faults host.new }
    ensures say_faults { H.say_faults host.new ≡ H.say_faults host.old }
{
    match found(alloc, host, Side::Left) {
        Ok(left) => Ok((left, found(alloc, host, Side::Right)?)),
        Err(PairFault::OutOfMemory) => {
            host.sync(Side::Right)?;
            Err(PairFault::OutOfMemory)
        }
        Err(fault) => Err(fault),
    }
}
