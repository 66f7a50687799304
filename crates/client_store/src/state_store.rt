// A state and the store that holds it.
ghost use Rattle.std.specs.Prelude.{◌≡◌, ◌≤◌, ◌<◌, false, IfErr, IfOk, IsErrOf, IsTrue, OnOk, OnErr, length, option_map, ⊤, MatchOption, None};
ghost use Rattle.std.specs.Fn.{FnOnceReturnsAtMut, FnOnceTakesAtMut};
ghost use Rattle.plain_text.specs.Names.{is_name};
ghost use Rattle.pref_bindings.specs.Preferences.{IsValue, holder_of};
ghost use Rattle.gate_journal.specs.Costs.{HasCost};
ghost use Rattle.host_model.specs.Causes.{HasCause};
ghost use Rattle.host_model.specs.Hosts.{MeetsAll};
ghost use Rattle.pair_store.specs.Moments.{StaysBelow};
ghost use Rattle.row_store.specs.Moments.{KeepsEitherRows};
ghost use Rattle.row_store.specs.Ready.{IsCommitted, commit_cost, place_after};
ghost use Rattle.row_store.specs.Store.{RowsStand, RowsStandWithGate, place};
ghost use Rattle.client_state.specs.Changes.{state_after, with_users_value, HasHoldersOfBefore, IsChangeOf, IsWholeChangeOf};
ghost use Rattle.client_state.specs.Following.{followed, spends};
ghost use Rattle.client_state.specs.Sizes.{IsSizeOf};
ghost use Rattle.client_state.specs.Sound.{IsSound, max_size};
ghost use Rattle.client_state.specs.Encoding.{rows_of, encoding};

use crate::change::Change;
use crate::sized_state::SizedState;
use change_outbox::AppendChangesFault;
use client_state::{BoxedChange, ClientSizes, ClientState, StateChange};
use fml_types::Manifest;
use host_model::{DiskFailed, Host};
use json_tree::Tree;
use pref_bindings::Bindings;
use row_store::RowStore;
use sequences::Text;
use state_codec::MAX_STATE_BYTES;
use std::alloc::{AllocError, Global};
use std::marker::Model;

/// A sound state, and the store whose rows are the state's.
#[derive(Drop)]
pub struct StateStore {
    rows: RowStore,
    state: SizedState,
}

impl Model for StateStore {
    ghost use Rattle.std.specs.Coded.{codes};
    ghost use Rattle.json_tree.specs.Json.{json_code};
    ghost use Rattle.client_store.specs.Stored.{StoredState, IsStored};

    ghost Value = { StoredState };

    ghost coded = { Prim.hlevel (codes, json_code) };

    ghost view = { λ s. record { rows = s.rows; state = s.state } };

    ghost invariant = { λ s. IsStored (record { rows = s.rows; state = s.state }) };
}

impl StateStore {
    ghost use Rattle.client_store.specs.Changes.{changed, next_of, IsChange, IsReadyChangeOf};
    ghost use Rattle.client_store.specs.Stored.{IsStored, IsSameStored};

    /// A sound state with the store of its rows.
    pub(crate) fn new(rows: RowStore, state: SizedState) -> StateStore
        requires { rows.rows ≡ rows_of state }
        ensures rows { result.rows ≡ rows }
        ensures state { result.state ≡ state }
        ensures stored { IsStored result }
    {
        // Its contract says that the state is sound.
        state.state();
        StateStore { rows, state }
    }

    /// The state. It takes no memory.
    pub fn state(&self) -> &ClientState
        ensures state { result.now ≡ self.now.state }
        ensures stored { IsStored self.now }
    {
        self.state.state()
    }

    /// What a function makes of the state. The state is lent to it, and stays the same.
    pub fn lend<T, F: FnOnce(&mut ClientState) -> T>(&mut self, function: F) -> T
        requires callable { FnOnceTakesAtMut F.FnOnce function self.old.state }
        requires same { (made : T) (left : _) → FnOnceReturnsAtMut F.FnOnce function self.old.state made left → left ≡ self.old.state }
        ensures same { self.new ≡ self.old }
        ensures made { FnOnceReturnsAtMut F.FnOnce function self.old.state result self.old.state }
    {
        self.state.lend(function)
    }

    /// Adds what follows the change to it. The state is lent to that, and stays the same. After an error the change is as it was.
    pub fn follow(
        &mut self,
        alloc: Global,
        change: &mut StateChange,
        manifest: Option<&Manifest>,
        bindings: Option<&Bindings>,
    ) -> Result<(), AppendChangesFault>
        requires change { IsChangeOf self.old.state change.old }
        requires holders { HasHoldersOfBefore self.old.state change.old }
        ensures same { self.new ≡ self.old }
        ensures followed { OnOk result (state_after change.new self.old.state ≡ followed (option_map (λ m. m.now) manifest.entry) (option_map (λ b. b.now) bindings.entry) change.old self.old.state) }
        ensures change { OnOk result (IsWholeChangeOf self.old.state change.new) }
        ensures not_spent { OnOk result (spends change.old self.old.state ≡ false) }
        ensures spent { IsErrOf result AppendChangesFault.ChangesSpent → IsTrue (spends change.old self.old.state) }
        ensures unchanged { OnErr result (change.new ≡ change.old) }
    {
        self.state.follow(alloc, change, manifest, bindings)
    }

    /// Makes the change one after which the user has set the value of a preference too, or taken it away. The state is lent to that,
    /// and stays the same. After an error the change is as it was.
    pub fn set_preference(
        &mut self,
        change: &mut StateChange,
        name: &Text,
        value: Option<&Tree>,
    ) -> Result<(), AllocError>
        requires change { IsWholeChangeOf self.old.state change.old }
        requires free { holder_of name.now (state_after change.old self.old.state).preferences ≡ None }
        requires name { IsTrue (is_name name.now) }
        requires value { MatchOption value ⊤ (λ v. IsValue v.now) }
        ensures same { self.new ≡ self.old }
        ensures set { OnOk result (state_after change.new self.old.state ≡ with_users_value name.now (option_map (λ v. v.now) value.entry) (state_after change.old self.old.state)) }
        ensures change { OnOk result (IsWholeChangeOf self.old.state change.new) }
        ensures unchanged { OnErr result (change.new ≡ change.old) }
    {
        self.state.set_preference(change, name, value)
    }

    /// Makes a change ready to be committed, where the state after it is another one, and reserves the room for it; or else says
    /// how many bytes the encoding of that state has, which are too many. Neither the state nor its rows are changed.
    pub fn prepare(
        &mut self,
        alloc: Global,
        parts: BoxedChange,
    ) -> Result<Result<Option<Change>, u128>, AllocError>
        requires { IsWholeChangeOf self.old.state parts }
        ensures same { IsSameStored self.old self.new }
        ensures change { IfOk result (λ prepared. IfOk prepared (IsChange self.new)) }
        ensures next { IfOk result (λ prepared. IfOk prepared (λ change. changed self.new.state change ≡ state_after parts self.old.state)) }
        ensures fits { IfOk result (λ prepared. IfOk prepared (λ _. length (encoding (state_after parts self.old.state)) ≤ max_size)) }
        ensures large { IfOk result (λ prepared. IfErr prepared (λ size. (size ≡ length (encoding (state_after parts self.old.state))) × (max_size < size))) }
    {
        let sizes = self.state.sizes_after(parts.get());
        if sizes.total > MAX_STATE_BYTES as u128 {
            return Ok(Err(sizes.total));
        }
        Ok(Ok(self.ready(alloc, parts, sizes)?))
    }

    // Makes a change ready to be committed, where the state after it is another one, and reserves the room for it. That state is
    // sound, and has these sizes.
    fn ready(
        &mut self,
        alloc: Global,
        parts: BoxedChange,
        sizes: ClientSizes,
    ) -> Result<Option<Change>, AllocError>
        requires change { IsWholeChangeOf self.old.state parts }
        requires sound { IsSound (state_after parts self.old.state) }
        requires sizes { IsSizeOf (state_after parts self.old.state) sizes }
        ensures same { IsSameStored self.old self.new }
        ensures change { IfOk result (IsChange self.new) }
        ensures next { IfOk result (λ change. changed self.new.state change ≡ state_after parts self.old.state) }
    {
        let batch = self.state.changes_to(alloc, parts.get())?;
        if batch.changes().is_empty() {
            return Ok(None);
        }
        let boxed = Box::new(alloc, sizes)?;
        let ready = self.rows.prepare(alloc, &batch)?;
        Ok(Some(Change {
            parts,
            sizes: boxed,
            ready,
        }))
    }

    /// Writes a change, and takes its parts over.
    pub fn commit<H: Host>(&mut self, host: &mut H, change: Change) -> Result<(), DiskFailed>
        requires change { IsReadyChangeOf self.old change }
        requires stands { H.tells → RowsStand H.Host self.old.rows host.old }

        ensures acknowledged { H.tells → OnOk result (RowsStandWithGate H.Host self.new.rows host.new) }
        ensures bytes { H.tells → OnOk result (IsCommitted H.Host change.ready.is_whole self.old.rows.records change.ready.payload host.old host.new) }
        ensures state { OnOk result (self.new.state ≡ next_of self.old.state change) }
        ensures same { OnErr result (self.new ≡ self.old) }
        ensures was { IsStored self.old }
        ensures stored { IsStored self.new }

        ensures any_moment { H.tells → RowsStandWithGate H.Host self.old.rows host.old
            → MeetsAll H.Host host.old host.new (KeepsEitherRows H.Host host.old (rows_of self.old.state) (rows_of (next_of self.old.state change))) }
        ensures below { H.tells → MeetsAll H.Host host.old host.new (StaysBelow H.Host host.old) }

        ensures place { OnOk result (place self.new.rows ≡ place_after change.ready (place self.old.rows)) }
        ensures cost { H.tells → HasCost (commit_cost change.ready) (H.written host.old) (H.written host.new) result }
        ensures cause { HasCause (H.disk_faults host.old) (H.disk_faults host.new) result }
        ensures disk_quiet { OnOk result (H.disk_faults host.new ≡ H.disk_faults host.old) }
        ensures say_faults { H.say_faults host.new ≡ H.say_faults host.old }
    {
        let Change {
            parts,
            sizes,
            ready,
        } = change;
        self.rows.commit(host, ready)?;
        self.state.take_over(parts, Box::into_inner(sizes));
        Ok(())
    }
}
