// An answer is said.
ghost use Rattle.std.specs.Prelude.{◌≡◌, ◌≢◌, ◌++◌, ℕ, [], OnOk, OnErr, take};
ghost use Rattle.host_model.specs.Causes.{HasCause};
ghost use Rattle.host_model.specs.Hosts.{MeetsAll};
ghost use Rattle.host_model.specs.Moments.{IsSaying, KeepsSide};
ghost use Rattle.host_model.specs.declared.side.Side.{Side};

use host_model::{Host, SayFailed};

/// Says an answer. One without bytes is not said.
pub(crate) fn say_answer<H: Host>(host: &mut H, text: &str) -> Result<(), SayFailed>
    ensures empty { text.now ≡ [] → host.new ≡ host.old }
    ensures some { OnErr result (text.now ≢ []) }
    ensures said { H.tells → OnOk result (H.said host.new ≡ H.said host.old ++ text.now) }
    ensures said_part { H.tells → OnErr result ((n : ℕ) × (H.said host.new ≡ H.said host.old ++ take n text.now)) }
    ensures still { H.tells → (side : Side) → KeepsSide H.reads H.images side host.old host.new }
    ensures any_moment { H.tells → MeetsAll H.Host host.old host.new (IsSaying (H.images host.old) (H.said host.old) text.now) }
    ensures cost { H.tells → H.written host.new ≡ H.written host.old }
    ensures cause { HasCause (H.say_faults host.old) (H.say_faults host.new) result }
    ensures quiet { OnOk result (H.say_faults host.new ≡ H.say_faults host.old) }
    ensures disk_faults { H.disk_faults host.new ≡ H.disk_faults host.old }
{
    if text.is_empty() {
        return Ok(());
    }
    host.say(text.as_bytes())
}
