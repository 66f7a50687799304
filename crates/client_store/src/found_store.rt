// A store as it is found at its opening: its rows are those of its state, or their old form.
ghost use Rattle.std.specs.Prelude.{◌≡◌, ◌≤◌, false, IfOk, IsErrOf, IsTrue};
ghost use Rattle.gate_journal.specs.Costs.{HasCost};
ghost use Rattle.host_model.specs.declared.side.Side.TheVariants.{Left, Right};
ghost use Rattle.host_model.specs.Causes.{Rose};
ghost use Rattle.host_model.specs.Hosts.{MeetsAll};
ghost use Rattle.pair_store.specs.Moments.{IsOpening, IsOnlyRead, OpensInPhases, StaysBelow};
ghost use Rattle.pair_store.specs.Pair.{HasNoList};
ghost use Rattle.pair_store.specs.Repair.{repair_cost, IsUnwritten, IsLeftByOpening};
ghost use Rattle.pair_store.specs.Store.{IsClosedOn};
ghost use Rattle.row_store.specs.Rows.{HasRows, HasPlace};
ghost use Rattle.row_store.specs.Store.{RowsStand, RowsStandWithGate, place};
ghost use Rattle.client_state.specs.declared.client_state.ClientState.{ClientState};
ghost use Rattle.client_state.specs.Forms.{IsForm, IsOldForm, needs_migration};
ghost use Rattle.client_state.specs.Sound.{IsSound};
ghost use Rattle.client_state.specs.Encoding.{rows_of};
ghost use Rattle.client_store.specs.Migrations.{opening_bytes, place_opened, IsMigration};
ghost use Rattle.client_store.specs.Moments.{IsLeftAs};
ghost use Rattle.client_store.specs.Store.{KeptFor, IsAbsent, IsBad};
ghost use Rattle.client_store.specs.Stored.{IsStored, IsFound};

use crate::sized_state::SizedState;
use crate::state_store::StateStore;
use client_state::{client_state_of, migration, needs_migration};
use host_model::{DiskFailed, Host};
use row_store::{PairFault, Ready, RowStore};
use state_codec::CodecFault;
use std::alloc::{AllocError, Global};

/// A sound state, and the store whose rows are the state's or their old form.
#[derive(Drop)]
pub(crate) struct FoundStore {
    rows: RowStore,
    state: SizedState,
}

impl FoundStore {
    /// Opens the store and reads its state. Nothing is said.
    pub(crate) fn open<H: Host>(alloc: Global, host: &mut H) -> Result<FoundStore, PairFault>
        ensures opened { H.tells → IfOk result (λ found. RowsStand H.Host found.rows host.new) }
        ensures found { IfOk result IsFound }
        ensures gate { H.tells → IfOk result (λ found. (s : ClientState) → KeptFor (H.reads host.old Left) (H.reads host.old Right) s → RowsStandWithGate H.Host found.rows host.new) }
        ensures place { H.tells → IfOk result (λ found. HasPlace (H.reads host.old Left) (H.reads host.old Right) (place found.rows)) }
        ensures rows { H.tells → IfOk result (λ found. HasRows (H.reads host.old Left) (H.reads host.old Right) found.rows.rows) }
        ensures no_store { H.tells → IsErrOf result PairFault.NoStore → IsAbsent (H.reads host.old Left) (H.reads host.old Right) }
        ensures none_open { H.tells → IsErrOf result PairFault.NoStore → IsClosedOn H.Host host.new }
        ensures none_written { H.tells → IsErrOf result PairFault.NoStore → IsUnwritten H.Host host.old host.new }
        ensures bad_store { H.tells → IsErrOf result PairFault.BadStore → IsBad (H.reads host.old Left) (H.reads host.old Right) }
        ensures only_read { H.tells → HasNoList (H.reads host.old Left) (H.reads host.old Right) → IsOnlyRead H.Host host.old host.new }

        ensures phases { H.tells → OpensInPhases H.Host host.old host.new result }
        ensures left { H.tells → ¬ IsErrOf result PairFault.DiskFault → IsLeftByOpening H.Host host.old host.new }
        ensures any_moment { H.tells → MeetsAll H.Host host.old host.new (IsOpening H.Host host.old) }
        ensures below { H.tells → MeetsAll H.Host host.old host.new (StaysBelow H.Host host.old) }
        ensures cost { H.tells → HasCost (repair_cost (H.reads host.old Left) (H.reads host.old Right)) (H.written host.old) (H.written host.new) result }
        ensures cause { IsErrOf result PairFault.DiskFault → Rose (H.disk_faults host.old) (H.disk_faults host.new) }
        ensures disk_quiet { ¬ IsErrOf result PairFault.DiskFault → H.disk_faults host.new ≡ H.disk_faults host.old }
        ensures disk_faults { H.disk_faults host.old ≤ H.disk_faults host.new }
        ensures say_faults { H.say_faults host.new ≡ H.say_faults host.old }
    {
        match RowStore::open(alloc, host) {
            Ok(rows) => state_in(alloc, rows),
            Err(fault) => Err(fault),
        }
    }

    /// The store whose rows are the state's: where they are the old form, the row of participation is written anew. Where
    /// memory is wanting, nothing is written.
    pub(crate) fn migrated<H: Host>(
        self,
        alloc: Global,
        host: &mut H,
    ) -> Result<StateStore, PairFault>
        requires found { IsFound self }
        requires stands { H.tells → RowsStand H.Host self.rows host.old }
        ensures stored { IfOk result IsStored }
        ensures state { IfOk result (λ store. store.state ≡ self.state) }
        ensures stands { H.tells → IfOk result (λ store. RowsStand H.Host store.rows host.new) }
        ensures gate { H.tells → IfOk result (λ store. RowsStandWithGate H.Host self.rows host.old → RowsStandWithGate H.Host store.rows host.new) }
        ensures gate_made { H.tells → IfOk result (λ store. IsTrue (needs_migration self.rows.rows) → RowsStandWithGate H.Host store.rows host.new) }
        ensures any_moment { H.tells → RowsStandWithGate H.Host self.rows host.old → MeetsAll H.Host host.old host.new (IsLeftAs (H.said host.old) self.state) }
        ensures unneeded { ¬ IsTrue (needs_migration self.rows.rows) → host.new ≡ host.old }
        ensures memory { IsErrOf result PairFault.OutOfMemory → host.new ≡ host.old }
        ensures no_other { (IsErrOf result PairFault.NoStore → ⊥) × (IsErrOf result PairFault.BadStore → ⊥) }
        ensures below { H.tells → MeetsAll H.Host host.old host.new (StaysBelow H.Host host.old) }
        ensures place { IfOk result (λ store. place store.rows ≡ place_opened (needs_migration self.rows.rows) (place self.rows) self.state) }
        ensures cost { H.tells → HasCost (opening_bytes (needs_migration self.rows.rows) (place self.rows) self.state) (H.written host.old) (H.written host.new) result }
        ensures cause { IsErrOf result PairFault.DiskFault → Rose (H.disk_faults host.old) (H.disk_faults host.new) }
        ensures disk_quiet { ¬ IsErrOf result PairFault.DiskFault → H.disk_faults host.new ≡ H.disk_faults host.old }
        ensures disk_faults { H.disk_faults host.old ≤ H.disk_faults host.new }
        ensures say_faults { H.say_faults host.new ≡ H.say_faults host.old }
    {
        let FoundStore { mut rows, state } = self;
        match migration_of(alloc, &mut rows, &state) {
            Ok(None) => Ok(StateStore::new(rows, state)),
            Ok(Some(ready)) => match rows.commit(host, ready) {
                Ok(()) => Ok(StateStore::new(rows, state)),
                Err(DiskFailed) => {
                    drop(state);
                    Err(PairFault::DiskFault)
                }
            },
            Err(AllocError) => {
                drop(state);
                Err(PairFault::OutOfMemory)
            }
        }
    }
}

// The state of these rows, with its store.
fn state_in(alloc: Global, mut rows: RowStore) -> Result<FoundStore, PairFault>
    ensures rows { IfOk result (λ found. found.rows ≡ rows) }
    ensures found { IfOk result IsFound }
    ensures none { IsErrOf result PairFault.BadStore → (s : ClientState) → IsSound s → IsForm s rows.rows → ⊥ }
    ensures no_other { (IsErrOf result PairFault.NoStore → ⊥) × (IsErrOf result PairFault.DiskFault → ⊥) }
{
    match client_state_of(alloc, rows.rows()) {
        Ok(state) => match SizedState::new(alloc, state) {
            Ok(state) => Ok(FoundStore { rows, state }),
            Err(AllocError) => Err(PairFault::OutOfMemory),
        },
        Err(CodecFault::NotAState) => Err(PairFault::BadStore),
        Err(CodecFault::OutOfMemory) => Err(PairFault::OutOfMemory),
    }
}

// The batch that makes the rows of a state of their old form, ready to be committed. There is none where they are its rows. The
// rows stay the same.
fn migration_of(
    alloc: Global,
    rows: &mut RowStore,
    state: &SizedState,
) -> Result<Option<Ready>, AllocError>
    requires { IsForm state.now rows.old.rows }
    ensures records { rows.new.records ≡ rows.old.records }
    ensures rows { rows.new.rows ≡ rows.old.rows }
    ensures migration { IfOk result (IsMigration state.now rows.new) }
{
    if !are_old_form(rows) {
        return Ok(None);
    }
    let batch = migration(alloc, state.state())?;
    Ok(Some(rows.prepare(alloc, &batch)?))
}

// Whether the rows are the old form of a state. They stay the same.
fn are_old_form(rows: &mut RowStore) -> bool
    ensures same { rows.new ≡ rows.old }
    ensures row { result ≡ needs_migration rows.old.rows }
    ensures old { IsTrue result → (s : ClientState) → IsForm s rows.old.rows → IsOldForm s rows.old.rows }
    ensures encoded { result ≡ false → (s : ClientState) → IsForm s rows.old.rows → rows.old.rows ≡ rows_of s }
{
    needs_migration(rows.rows())
}
