// The store is opened.
ghost use Rattle.std.specs.Prelude.{◌≡◌, ◌≤◌, List, IfOk, IsErrOf};
ghost use Rattle.host_model.specs.declared.side.Side.TheVariants.{Left, Right};
ghost use Rattle.host_model.specs.Causes.{Rose};
ghost use Rattle.host_model.specs.Hosts.{MeetsAll};
ghost use Rattle.pair_store.specs.Moments.{IsOnlyRead, StaysBelow};
ghost use Rattle.pair_store.specs.Pair.{HasNoList};
ghost use Rattle.client_state.specs.declared.client_state.ClientState.{ClientState};
ghost use Rattle.client_state.specs.Sound.{IsSound};
ghost use Rattle.client_store.specs.Moments.{IsLeftAmong};
ghost use Rattle.client_store.specs.OpenStore.{AllKeptAmong};
ghost use Rattle.client_steps.specs.Sessions.{no_session};

use crate::client::Client;
use client_steps::Session;
use client_store::{PairFault, StateStore};
use host_model::Host;
use std::alloc::Global;

impl Client {
    ghost use Rattle.client_store.specs.Openings.{OpensInPhases, OpenJudges};
    ghost use Rattle.client_core.specs.Clients.{state_of, session_of};
    ghost use Rattle.client_core.specs.Openings.{OpenEnds};

    /// Opens the store: both sides are synced and read, and the session is empty. Nothing is said.
    ///
    /// Where a checkpoint was cut short, one byte is written then. Where the rows are the old form of a state, the row of
    /// participation is written anew, last, as by a commit. So the store is in one form from then on.
    pub fn open<H: Host>(alloc: Global, host: &mut H) -> Result<Client, PairFault>
        // What stands at the end, by the answer, and which answer each pair has.
        ensures ends { H.tells → OpenEnds H.Host host.old host.new result }
        ensures judges { H.tells → OpenJudges (H.reads host.old Left) (H.reads host.old Right) result }
        ensures sound { IfOk result (λ client. IsSound (state_of client)) }
        ensures session { IfOk result (λ client. session_of client ≡ no_session) }

        // What each image is at each moment: until both sides are synced, until the repair is done, and from then on. So each
        // is kept for one of the states for which each was kept.
        ensures phases { H.tells → OpensInPhases H.Host host.old host.new result }
        ensures left { H.tells → (states : List ClientState) → AllKeptAmong H.Host host.old states
            → MeetsAll H.Host host.old host.new (IsLeftAmong (H.said host.old) states) }
        ensures below { H.tells → MeetsAll H.Host host.old host.new (StaysBelow H.Host host.old) }
        ensures text { H.tells → H.said host.new ≡ H.said host.old }

        // Where the pair that was read has no list of payloads, nothing is written, whatever the answer.
        ensures only_read { H.tells → HasNoList (H.reads host.old Left) (H.reads host.old Right) → IsOnlyRead H.Host host.old host.new }

        ensures cause { IsErrOf result PairFault.DiskFault → Rose (H.disk_faults host.old) (H.disk_faults host.new) }
        ensures disk_quiet { ¬ IsErrOf result PairFault.DiskFault → H.disk_faults host.new ≡ H.disk_faults host.old }
        ensures disk_faults { H.disk_faults host.old ≤ H.disk_faults host.new }
        ensures say_faults { H.say_faults host.new ≡ H.say_faults host.old }
    {
        match StateStore::open(alloc, host) {
            Ok(store) => Ok(Client {
                store,
                session: Session::new(),
            }),
            Err(fault) => Err(fault),
        }
    }
}
