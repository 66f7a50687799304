// A store is made.
ghost use Rattle.std.specs.Prelude.{◌≡◌, ◌⊎◌, ◌≤◌, ◌+◌, List, [], ◌∷◌, drop, IfOk, OnOk, IsOk, IsErrOf};
ghost use Rattle.gate_journal.specs.Costs.{HasCost};
ghost use Rattle.gate_journal.specs.Records.{made_on};
ghost use Rattle.host_model.specs.declared.side.Side.TheVariants.{Left, Right};
ghost use Rattle.host_model.specs.Causes.{Rose};
ghost use Rattle.host_model.specs.Hosts.{MeetsAll};
ghost use Rattle.pair_store.specs.Moments.{IsOpening, IsOnlyRead, StaysBelow};
ghost use Rattle.pair_store.specs.Pair.{HasNoList};
ghost use Rattle.pair_store.specs.Repair.{repair_cost, IsLeftByOpening};
ghost use Rattle.client_state.specs.declared.client_state.ClientState.{ClientState};
ghost use Rattle.enrol_states.specs.State.{last_moment};
ghost use Rattle.row_store.specs.Rows.{HasRows, HasPlace};
ghost use Rattle.row_batches.specs.Batch.{whole_of, applied, batch_text};
ghost use Rattle.client_state.specs.Sound.{IsSound};
ghost use Rattle.client_state.specs.Encoding.{rows_of, encoding};
ghost use Rattle.client_store.specs.Faults.{refusal};
ghost use Rattle.client_store.specs.Finds.{MakeFinds, MakeFailed};
ghost use Rattle.client_store.specs.Makings.{MakePhases};
ghost use Rattle.client_store.specs.Moments.{IsQuiet, IsLeftAmong};
ghost use Rattle.client_store.specs.NewStates.{fresh};
ghost use Rattle.client_store.specs.OpenStore.{AllKept, AllKeptAmong, AreDurable};
ghost use Rattle.client_store.specs.Places.{making_bytes, place_made};
ghost use Rattle.client_store.specs.Store.{IsStore, IsAbsent, IsBad};

use crate::faults::MakeFault;
use crate::found_store::FoundStore;
use crate::state_store::StateStore;
use client_state::{ClientState, whole_batch};
use enrol_states::State;
use host_model::Host;
use row_batches::Batch;
use row_store::{PairFault, RowStore};
use std::alloc::{AllocError, Global};
use uuid::Uuid;

impl StateStore {
    /// Makes a store with the state of a new client, where there is none. Nothing is said, and no store is migrated.
    ///
    /// Its rows are built before the sides are looked at. A crash meanwhile may leave no store, or a damaged one.
    pub fn make<H: Host>(alloc: Global, host: &mut H, id: Uuid, now: u64) -> Result<(), MakeFault>
        requires { now ≤ last_moment }
        ensures made { OnOk result (H.tells → AllKept H.Host host.new (fresh id now)) }
        ensures settled { OnOk result (H.tells → AreDurable H.Host host.new) }
        ensures encoded { OnOk result (H.tells → HasRows (H.reads host.new Left) (H.reads host.new Right) (rows_of (fresh id now))) }
        ensures place { OnOk result (H.tells → HasPlace (H.reads host.new Left) (H.reads host.new Right) (place_made (fresh id now))) }
        ensures journal { OnOk result (H.tells → H.reads host.new Left ≡ made_on 0 (encoding (fresh id now)) (H.reads host.old Left)) }
        ensures right { OnOk result (H.tells → H.reads host.new Right ≡ 0 ∷ drop 1 (H.reads host.old Right)) }

        // What the pair was that it read, by its answer, and which answer each such pair has.
        ensures finds { H.tells → MakeFinds (H.reads host.old Left) (H.reads host.old Right) result }
        ensures made_where { H.tells → IsAbsent (H.reads host.old Left) (H.reads host.old Right) → IsOk result ⊎ MakeFailed result }
        ensures already_store_where { H.tells → IsStore (H.reads host.old Left) (H.reads host.old Right) → IsErrOf result MakeFault.AlreadyStore ⊎ MakeFailed result }
        ensures bad_store_where { H.tells → IsBad (H.reads host.old Left) (H.reads host.old Right) → IsErrOf result MakeFault.BadStore ⊎ MakeFailed result }

        // A pair that is a store, or a damaged one, is left as reads gave it, but for the byte that an opening writes.
        ensures left_as_read { H.tells → IsErrOf result MakeFault.AlreadyStore ⊎ IsErrOf result MakeFault.BadStore → IsLeftByOpening H.Host host.old host.new }

        // What each image is at each moment: until both sides are synced, and from then on.
        ensures phases { H.tells → MakePhases H.Host (fresh id now) host.old host.new result }

        // Where a side was open, and where memory was wanting, it does no more than open the store: at each moment the images
        // are those of the start, or what reads gave but for the one byte that an opening writes. So each is kept where each
        // was.
        ensures opening { H.tells → (IsAbsent (H.reads host.old Left) (H.reads host.old Right) → ⊥) → MeetsAll H.Host host.old host.new (IsOpening H.Host host.old) }
        ensures quiet { H.tells → (IsAbsent (H.reads host.old Left) (H.reads host.old Right) → ⊥)
            → H.written host.new ≤ H.written host.old + repair_cost (H.reads host.old Left) (H.reads host.old Right) }
        ensures only_read { H.tells → (IsAbsent (H.reads host.old Left) (H.reads host.old Right) → ⊥) → HasNoList (H.reads host.old Left) (H.reads host.old Right)
            → IsOnlyRead H.Host host.old host.new }
        ensures memory { IsErrOf result MakeFault.OutOfMemory → H.tells → MeetsAll H.Host host.old host.new (IsOpening H.Host host.old) }
        ensures memory_cost { IsErrOf result MakeFault.OutOfMemory → H.tells
            → H.written host.new ≤ H.written host.old + repair_cost (H.reads host.old Left) (H.reads host.old Right) }
        ensures left { H.tells → (states : List ClientState) → AllKeptAmong H.Host host.old states
            → MeetsAll H.Host host.old host.new (IsLeftAmong (H.said host.old) states) }

        ensures cost { H.tells → IsAbsent (H.reads host.old Left) (H.reads host.old Right)
            → HasCost (making_bytes (fresh id now)) (H.written host.old) (H.written host.new) result }
        ensures below { H.tells → MeetsAll H.Host host.old host.new (StaysBelow H.Host host.old) }
        ensures any_moment { H.tells → MeetsAll H.Host host.old host.new (IsQuiet (H.said host.old)) }
        ensures text { H.tells → H.said host.new ≡ H.said host.old }
        ensures cause { IsErrOf result MakeFault.DiskFault → Rose (H.disk_faults host.old) (H.disk_faults host.new) }
        ensures disk_quiet { ¬ IsErrOf result MakeFault.DiskFault → H.disk_faults host.new ≡ H.disk_faults host.old }
        ensures disk_faults { H.disk_faults host.old ≤ H.disk_faults host.new }
        ensures say_faults { H.say_faults host.new ≡ H.say_faults host.old }
    {
        let first = first_rows(alloc, id, now)?;
        match refusal(FoundStore::open(alloc, host)) {
            None => Ok(RowStore::make(alloc, host, &first)?),
            Some(fault) => Err(fault),
        }
    }
}

// Why no store is made, by the answer of the opening before. Nothing stands in the way where that found no store.
fn refusal(found: Result<FoundStore, PairFault>) -> Option<MakeFault>
    ensures { result ≡ refusal found }
{
    match found {
        Ok(found) => {
            drop(found);
            Some(MakeFault::AlreadyStore)
        }
        Err(PairFault::NoStore) => None,
        Err(PairFault::BadStore) => Some(MakeFault::BadStore),
        Err(PairFault::DiskFault) => Some(MakeFault::DiskFault),
        Err(PairFault::OutOfMemory) => Some(MakeFault::OutOfMemory),
    }
}

// The rows of the state of a new store, behind a clear.
fn first_rows(alloc: Global, id: Uuid, now: u64) -> Result<Batch, AllocError>
    requires { now ≤ last_moment }
    ensures sound { IsSound (fresh id now) }
    ensures rows { IfOk result (λ batch. batch ≡ whole_of (rows_of (fresh id now))) }
    ensures text { IfOk result (λ batch. batch_text batch ≡ encoding (fresh id now)) }
    ensures gives { IfOk result (λ batch. applied batch [] ≡ rows_of (fresh id now)) }
{
    let enrolment = State::new(alloc, id, now);
    let state = ClientState::new(alloc, enrolment);
    whole_batch(alloc, &state)
}
