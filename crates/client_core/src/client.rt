// A client over its store.
ghost use Rattle.std.specs.Prelude.{◌≡◌, ◌≢◌, ◌↔◌, OnOk, OnErr, IsOk, IsTrue};
ghost use Rattle.gate_journal.specs.Costs.{HasCost};
ghost use Rattle.host_model.specs.declared.side.Side.TheVariants.{Left, Right};
ghost use Rattle.host_model.specs.Causes.{HasCause};
ghost use Rattle.host_model.specs.Hosts.{MeetsAll};
ghost use Rattle.pair_store.specs.Moments.{StaysBelow};
ghost use Rattle.row_store.specs.Moments.{KeepsEitherRows};
ghost use Rattle.row_store.specs.Rows.{HasRows};
ghost use Rattle.client_state.specs.Sound.{IsConsistent, IsSound};
ghost use Rattle.client_state.specs.Encoding.{rows_of};
ghost use Rattle.client_store.specs.Moments.{WhileWritten};
ghost use Rattle.client_store.specs.OpenStore.{AreDurable, AllKept, AllKeptEither, AllStand, IsChangedTo};
ghost use Rattle.client_store.specs.Places.{place_after, bytes_for, makes_checkpoint};
ghost use Rattle.client_steps.specs.Sessions.{changed_by};

use crate::prepared::Prepared;
use change_outbox::Outbox;
use client_state::ClientState;
use client_steps::{Session, SessionChange};
use client_store::{Change, StateStore};
use event_counts::Counts;
use host_model::{DiskFailed, Host};
use pref_bindings::Prefs;

/// A client: its state with the store that holds it, and the session of the run.
///
/// A client stands for the sides of the host on which it was opened. Each call on it that takes a host wants this
/// host, with the sides as the last call left them and synced.
#[derive(Drop)]
pub struct Client {
    pub(crate) store: StateStore,
    pub(crate) session: Session,
}

impl Client {
    ghost use Rattle.client_core.specs.Clients.{state_of, session_of, end_of, IsOpenOn, HasGateOn};
    ghost use Rattle.client_store.specs.Changes.{IsReadyChangeOf, next_of};
    ghost use Rattle.client_core.specs.Prepared.{IsMadeOn, next_state, next_session, is_checkpoint};

    /// The state. It takes no memory.
    pub fn state(&self) -> &ClientState
        ensures state { result.now ≡ state_of self.now }
        ensures sound { IsSound (state_of self.now) }
    {
        self.store.state()
    }

    /// The counts of events. It takes no memory.
    pub fn events(&self) -> &Counts
        ensures events { result.now ≡ (state_of self.now).events }
        ensures consistent { IsConsistent (state_of self.now) }
    {
        &self.state().events
    }

    /// The changes of enrolments that aren't confirmed, and the number of the next one. It takes no memory.
    pub fn outbox(&self) -> &Outbox
        ensures outbox { result.now ≡ (state_of self.now).outbox }
        ensures consistent { IsConsistent (state_of self.now) }
    {
        &self.state().outbox
    }

    /// The preferences that have a value, with who holds them. It takes no memory.
    pub fn prefs(&self) -> &Prefs
        ensures preferences { result.now ≡ (state_of self.now).preferences }
        ensures consistent { IsConsistent (state_of self.now) }
    {
        &self.state().preferences
    }

    /// Takes a prepared step over: the changed rows are written, where there are some. It takes no memory, and makes no call
    /// of the host where the state stays. After a `DiskFailed` the client is dropped and the store opened again.
    pub fn commit<H: Host>(&mut self, host: &mut H, prepared: Prepared) -> Result<(), DiskFailed>
        requires holds { H.tells → IsOpenOn H.Host self.old host.old }
        requires made { IsMadeOn self.old prepared }

        // Each image since then is kept for the old or the new state, and nothing is said.
        ensures any_moment { H.tells → HasGateOn H.Host self.old host.old
            → MeetsAll H.Host host.old host.new (WhileWritten (H.said host.old) (state_of self.old) (next_state self.old prepared)) }
        ensures kept_either { H.tells → HasGateOn H.Host self.old host.old
            → AllKeptEither H.Host host.new (state_of self.old) (next_state self.old prepared) }
        ensures text { H.tells → H.said host.new ≡ H.said host.old }

        // Each has the rows of the old or of the new state, none that are an old form. After `Ok` it has those of the new one.
        ensures any_rows { H.tells → HasGateOn H.Host self.old host.old
            → MeetsAll H.Host host.old host.new (KeepsEitherRows H.Host host.old (rows_of (state_of self.old)) (rows_of (next_state self.old prepared))) }
        ensures rows { OnOk result (H.tells → HasRows (H.reads host.new Left) (H.reads host.new Right) (rows_of (next_state self.old prepared))) }

        // After `Ok` each image is what reads give, and stands for the new state. It is kept for it where each was kept,
        // or where the state changed.
        ensures holds { OnOk result (H.tells → IsOpenOn H.Host self.new host.new) }
        ensures settled { OnOk result (H.tells → AreDurable H.Host host.new) }
        ensures stands { OnOk result (H.tells → AllStand H.Host host.new (next_state self.old prepared)) }
        ensures kept { OnOk result (H.tells → HasGateOn H.Host self.old host.old → AllKept H.Host host.new (next_state self.old prepared)) }
        ensures kept_where { OnOk result (H.tells → state_of self.old ≢ next_state self.old prepared
            → AllKept H.Host host.new (next_state self.old prepared)) }
        ensures gate { OnOk result (H.tells → HasGateOn H.Host self.old host.old → HasGateOn H.Host self.new host.new) }
        ensures gate_made { OnOk result (H.tells → state_of self.old ≢ next_state self.old prepared → HasGateOn H.Host self.new host.new) }

        ensures state { OnOk result (state_of self.new ≡ next_state self.old prepared) }
        ensures sound { IsSound (next_state self.old prepared) }
        ensures session { OnOk result (session_of self.new ≡ next_session self.old prepared) }
        ensures same { OnErr result (self.new ≡ self.old) }

        // What is written, and where: no byte at or past the mark, and the whole of the new state exactly where a record of
        // the changed rows would pass it. Else both sides are as they were.
        ensures bytes { OnOk result (H.tells → state_of self.old ≢ next_state self.old prepared
            → IsChangedTo H.Host self.old.store (next_state self.old prepared) host.old host.new) }
        ensures cost { H.tells → HasCost (bytes_for (end_of self.old) (state_of self.old) (next_state self.old prepared)) (H.written host.old) (H.written host.new) result }
        ensures place { OnOk result (end_of self.new ≡ place_after (end_of self.old) (state_of self.old) (next_state self.old prepared)) }
        ensures below { H.tells → MeetsAll H.Host host.old host.new (StaysBelow H.Host host.old) }
        ensures checkpoint { is_checkpoint prepared ≡ makes_checkpoint (end_of self.old) (state_of self.old) (next_state self.old prepared) }

        ensures unchanged { state_of self.old ≡ next_state self.old prepared → IsOk result × (host.new ≡ host.old) }
        ensures cause { HasCause (H.disk_faults host.old) (H.disk_faults host.new) result }
        ensures disk_quiet { OnOk result (H.disk_faults host.new ≡ H.disk_faults host.old) }
        ensures say_faults { H.say_faults host.new ≡ H.say_faults host.old }
    {
        // Its contract says that the state is sound.
        self.store.state();
        let Prepared {
            change,
            session,
            answer: _,
        } = prepared;
        match change {
            Some(change) => self.write(host, change, session),
            None => {
                self.session.take_over(session);
                Ok(())
            }
        }
    }

    // Writes a change, and takes its parts and the session over.
    fn write<H: Host>(
        &mut self,
        host: &mut H,
        change: Change,
        session: SessionChange,
    ) -> Result<(), DiskFailed>
        requires holds { H.tells → IsOpenOn H.Host self.old host.old }
        requires change { IsReadyChangeOf self.old.store change }

        ensures any_moment { H.tells → HasGateOn H.Host self.old host.old
            → MeetsAll H.Host host.old host.new (WhileWritten (H.said host.old) (state_of self.old) (next_of (state_of self.old) change)) }
        ensures kept_either { H.tells → HasGateOn H.Host self.old host.old → AllKeptEither H.Host host.new (state_of self.old) (next_of (state_of self.old) change) }
        ensures text { H.tells → H.said host.new ≡ H.said host.old }

        ensures any_rows { H.tells → HasGateOn H.Host self.old host.old
            → MeetsAll H.Host host.old host.new (KeepsEitherRows H.Host host.old (rows_of (state_of self.old)) (rows_of (next_of (state_of self.old) change))) }
        ensures rows { OnOk result (H.tells → HasRows (H.reads host.new Left) (H.reads host.new Right) (rows_of (next_of (state_of self.old) change))) }

        ensures holds { OnOk result (H.tells → IsOpenOn H.Host self.new host.new) }
        ensures settled { OnOk result (H.tells → AreDurable H.Host host.new) }
        ensures stands { OnOk result (H.tells → AllStand H.Host host.new (next_of (state_of self.old) change)) }
        ensures kept { OnOk result (H.tells → AllKept H.Host host.new (next_of (state_of self.old) change)) }
        ensures gate { OnOk result (H.tells → HasGateOn H.Host self.new host.new) }

        ensures state { OnOk result (state_of self.new ≡ next_of (state_of self.old) change) }
        ensures session { OnOk result (session_of self.new ≡ changed_by self.old.session session) }
        ensures same { OnErr result (self.new ≡ self.old) }

        ensures bytes { OnOk result (H.tells → IsChangedTo H.Host self.old.store (next_of (state_of self.old) change) host.old host.new) }
        ensures cost { H.tells → HasCost (bytes_for (end_of self.old) (state_of self.old) (next_of (state_of self.old) change)) (H.written host.old) (H.written host.new) result }
        ensures place { OnOk result (end_of self.new ≡ place_after (end_of self.old) (state_of self.old) (next_of (state_of self.old) change)) }
        ensures below { H.tells → MeetsAll H.Host host.old host.new (StaysBelow H.Host host.old) }
        ensures checkpoint { change.ready.is_whole ≡ makes_checkpoint (end_of self.old) (state_of self.old) (next_of (state_of self.old) change) }
        ensures cause { HasCause (H.disk_faults host.old) (H.disk_faults host.new) result }
        ensures disk_quiet { OnOk result (H.disk_faults host.new ≡ H.disk_faults host.old) }
        ensures say_faults { H.say_faults host.new ≡ H.say_faults host.old }
    {
        self.store.commit(host, change)?;
        self.session.take_over(session);
        Ok(())
    }
}
