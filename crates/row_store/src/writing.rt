// What a commit writes.
ghost use Rattle.std.specs.Prelude.{◌≡◌, ◌≤◌, ◌+◌, ℕ, List, if◌then◌else◌, IsTrue, false, length, OnOk, OnErr};
ghost use Rattle.gate_journal.specs.Costs.{HasCost};
ghost use Rattle.host_model.specs.Causes.{HasCause};
ghost use Rattle.host_model.specs.Hosts.{MeetsAll};
ghost use Rattle.pair_store.specs.declared.mark.TheConstants.{MAX_RECORD_END, MAX_WHOLE};
ghost use Rattle.pair_store.specs.Moments.{KeepsEither, StaysBelow};
ghost use Rattle.pair_store.specs.Store.{PairStands, PairStandsWithGate};
ghost use Rattle.row_store.specs.Ready.{payloads_after, IsCommitted};

use gate_journal::Frame;
use host_model::{DiskFailed, Host};
use pair_store::PairStore;

/// Writes a record behind the others, or in the place of all of them.
pub(crate) fn write_payload<H: Host>(
    pair: &mut PairStore,
    host: &mut H,
    frame: &Frame,
    is_whole: bool,
) -> Result<(), DiskFailed>
    requires whole { IsTrue is_whole → length frame.now ≤ MAX_WHOLE }
    requires record { is_whole ≡ false → pair.old.place + length frame.now + 6 ≤ MAX_RECORD_END }
    requires stands { H.tells → (payloads : List (List ℕ)) × PairStands H.Host pair.old host.old payloads }
    ensures acknowledged { H.tells → (payloads : List (List ℕ)) → PairStands H.Host pair.old host.old payloads
        → OnOk result (PairStandsWithGate H.Host pair.new host.new (payloads_after is_whole payloads frame.now)) }
    ensures bytes { H.tells → OnOk result (IsCommitted H.Host is_whole pair.old frame.now host.old host.new) }
    ensures any_moment { H.tells → (payloads : List (List ℕ)) → PairStandsWithGate H.Host pair.old host.old payloads
        → MeetsAll H.Host host.old host.new (KeepsEither H.Host host.old payloads (payloads_after is_whole payloads frame.now)) }
    ensures below { H.tells → MeetsAll H.Host host.old host.new (StaysBelow H.Host host.old) }
    ensures place { OnOk result (pair.new.place ≡ (if is_whole then length frame.now + 14 else pair.old.place + length frame.now + 5)) }
    ensures same { OnErr result (pair.new ≡ pair.old) }
    ensures cost { H.tells → HasCost (length frame.now + (if is_whole then 16 else 6)) (H.written host.old) (H.written host.new) result }
    ensures cause { HasCause (H.disk_faults host.old) (H.disk_faults host.new) result }
    ensures disk_quiet { OnOk result (H.disk_faults host.new ≡ H.disk_faults host.old) }
    ensures say_faults { H.say_faults host.new ≡ H.say_faults host.old }
{
    if is_whole {
        pair.checkpoint(host, frame)
    } else {
        pair.append(host, frame)
    }
}
