// A store is made, and said to be ready.
ghost use Rattle.std.specs.Prelude.{◌≡◌, ◌≤◌, IfOk};
ghost use Rattle.enrol_states.specs.State.{last_moment};
ghost use Rattle.session_run.specs.FaultCauses.{IsStatusOf, HasHostCauses};
ghost use Rattle.session_run.specs.Finds.{MakingFound};
ghost use Rattle.session_run.specs.Making.{ready, Made};
ghost use Rattle.session_run.specs.Statuses.{IsOfMaking};

use crate::status::RunStatus;
use client_store::StateStore;
use client_words::hyphenated;
use host_model::Host;
use sequences::Text;
use std::alloc::{AllocError, Global};
use uuid::Uuid;

/// What is said of a new store.
#[tactic(auto, unfolding(crate::specs::Making::ready))]
fn ready(alloc: Global, id: [u8; 16]) -> Result<Text, AllocError>
    ensures { IfOk result (λ text. text ≡ ready id) }
{
    let mut text = String::new(alloc);
    text.push_str("ready ")?;
    text.push_str(hyphenated(alloc, Uuid::from_bytes(id))?.as_str())?;
    text.push_str("\n")?;
    Ok(Text::from_string(text))
}

/// Makes a store, where there is none, and then says that it is ready.
///
/// Its answer is built before the store is made, so that want of memory comes before the first write.
pub(crate) fn init<H: Host>(alloc: Global, id: [u8; 16], now: u64, host: &mut H) -> RunStatus
    requires { now ≤ last_moment }
    ensures made { H.tells → Made H.Host id now host.old host.new result }
    ensures found { H.tells → MakingFound H.Host host.old host.new result }
    ensures is_of { IsOfMaking result }
    ensures host_causes { HasHostCauses H.Host (IsStatusOf result) host.old host.new }
{
    let Ok(text) = ready(alloc, id) else {
        return RunStatus::OutOfMemory;
    };
    match StateStore::make(alloc, host, Uuid::from_bytes(id), now) {
        Ok(()) => match host.say(text.as_str().as_bytes()) {
            Ok(()) => RunStatus::Done,
            Err(_) => RunStatus::SayFault,
        },
        Err(fault) => fault.into(),
    }
}
