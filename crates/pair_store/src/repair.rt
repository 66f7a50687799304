// The closing of the earlier of two open sides.
ghost use Rattle.std.specs.Prelude.{◌≡◌, OnOk, if◌then◌else◌};
ghost use Rattle.host_model.specs.Causes.{HasCause};
ghost use Rattle.host_model.specs.Hosts.{IsDurable, KeepsAll, MeetsAll, OnSideOf};
ghost use Rattle.host_model.specs.Sides.{other};
ghost use Rattle.gate_journal.specs.Costs.{HasCost};
ghost use Rattle.pair_store.specs.Repair.{MayBeShut, shut_where};

use gate_journal::Journal;
use host_model::{DiskFailed, Host, Side};

/// Closes the side where it is open.
pub(crate) fn shut_side<H: Host>(host: &mut H, side: Side, is_open: bool) -> Result<(), DiskFailed>
    ensures reads { H.tells → OnOk result (H.reads host.new side ≡ shut_where is_open (H.reads host.old side)) }
    ensures durable { H.tells → IsDurable H.Host host.old side → OnOk result (IsDurable H.Host host.new side) }
    ensures any_moment { H.tells → MeetsAll H.Host host.old host.new
        (OnSideOf H.Host host.old side (MayBeShut is_open (H.images host.old side))) }
    ensures rest { H.tells → KeepsAll H.Host (other side) host.old host.new }
    ensures cost { H.tells → HasCost (if is_open then 1 else 0) (H.written host.old) (H.written host.new) result }
    ensures cause { HasCause (H.disk_faults host.old) (H.disk_faults host.new) result }
    ensures disk_quiet { OnOk result (H.disk_faults host.new ≡ H.disk_faults host.old) }
    ensures say_faults { H.say_faults host.new ≡ H.say_faults host.old }
{
    if is_open {
        Journal::close(host, side)
    } else {
        Ok(())
    }
}
