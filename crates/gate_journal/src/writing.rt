// A write that is on the disk when it is done.
ghost use Rattle.std.specs.Prelude.{◌≡◌, length, OnOk};
ghost use Rattle.host_model.specs.Causes.{HasCause};
ghost use Rattle.host_model.specs.Hosts.{IsDurable, KeepsAll, MeetsAll, OnSideOf};
ghost use Rattle.host_model.specs.Images.{overwritten, Torn, IsAfter};
ghost use Rattle.host_model.specs.Sides.{other};
ghost use Rattle.gate_journal.specs.Costs.{HasCost};

use host_model::{DiskFailed, Host, Side};

/// Writes and syncs. Until it is done, a crash may leave the write torn.
pub(crate) fn write_synced<H: Host>(
    host: &mut H,
    side: Side,
    at: u64,
    bytes: &[u8],
) -> Result<(), DiskFailed>
    ensures after { H.tells → OnOk result (H.reads host.new side ≡ overwritten (H.reads host.old side) at bytes.now) }
    ensures durable { H.tells → OnOk result (IsDurable H.Host host.new side) }
    ensures any_moment { H.tells → MeetsAll H.Host host.old host.new
        (OnSideOf H.Host host.old side (IsAfter (Torn at (length bytes.now)) (H.images host.old side))) }
    ensures rest { H.tells → KeepsAll H.Host (other side) host.old host.new }
    ensures cost { H.tells → HasCost (length bytes.now) (H.written host.old) (H.written host.new) result }
    ensures cause { HasCause (H.disk_faults host.old) (H.disk_faults host.new) result }
    ensures disk_quiet { OnOk result (H.disk_faults host.new ≡ H.disk_faults host.old) }
    ensures say_faults { H.say_faults host.new ≡ H.say_faults host.old }
{
    host.write_at(side, at, bytes)?;
    host.sync(side)
}
