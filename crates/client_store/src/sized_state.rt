// A state that may be stored, with the size of its encoding.
ghost use Rattle.std.specs.Prelude.{◌≡◌, ◌≤◌, ◌+◌, false, IfOk, IsErrOf, IsTrue, OnErr, OnOk, length, option_map, ⊤, MatchOption, None};
ghost use Rattle.std.specs.Fn.{FnOnceReturnsAtMut, FnOnceTakesAtMut};
ghost use Rattle.plain_text.specs.Names.{is_name};
ghost use Rattle.pref_bindings.specs.Preferences.{IsValue, holder_of};
ghost use Rattle.row_batches.specs.Batch.{applied, batch_text, whole_of};
ghost use Rattle.client_state.specs.Changes.{state_after, with_users_value, HasHoldersOfBefore, IsChangeOf, IsWholeChangeOf};
ghost use Rattle.client_state.specs.Following.{followed, spends};
ghost use Rattle.client_state.specs.Sizes.{IsSizeOf};
ghost use Rattle.client_state.specs.Sound.{IsSound, max_size};
ghost use Rattle.client_state.specs.Encoding.{rows_of, encoding};
ghost use Rattle.client_store.specs.Places.{row_changes};

use change_outbox::AppendChangesFault;
use client_state::{
    BoxedChange, ClientSizes, ClientState, StateChange, changes_to, follow, set_preference,
    sizes_after, sizes_of,
};
use fml_types::Manifest;
use json_tree::Tree;
use pref_bindings::Bindings;
use row_batches::Batch;
use sequences::Text;
use std::alloc::{AllocError, Global};
use std::marker::Model;

/// A state that may be stored, and how many bytes its encoding has, in a box. Contracts see it as the state.
///
/// The next state's sizes are made of these: only the parts that change are counted, and of recipes those that are gone, new
/// or differ.
#[derive(Drop)]
pub struct SizedState {
    counted: Box<CountedState>,
}

// A state, and how many bytes its encoding has.
#[derive(Drop)]
struct CountedState {
    state: ClientState,
    sizes: ClientSizes,
}

impl Model for SizedState {
    ghost use Rattle.std.specs.Coded.{codes};
    ghost use Rattle.json_tree.specs.Json.{json_code};
    ghost use Rattle.client_state.specs.declared.client_state.ClientState.{ClientState};
    ghost use Rattle.client_state.specs.Sizes.{IsSizeOf};
    ghost use Rattle.client_state.specs.Sound.{IsSound};

    ghost Value = { ClientState };

    ghost coded = { Prim.hlevel (codes, json_code) };

    ghost view = { λ sized. sized.counted.value.state };

    ghost invariant = { λ sized. IsSound sized.counted.value.state × IsSizeOf sized.counted.value.state sized.counted.value.sizes };
}

impl SizedState {
    /// A sound state, whose encoding is counted.
    pub(crate) fn new(alloc: Global, state: ClientState) -> Result<SizedState, AllocError>
        requires { IsSound state }
        ensures { IfOk result (λ sized. sized ≡ state) }
    {
        let sizes = sizes_of(&state);
        Ok(SizedState {
            counted: Box::new(alloc, CountedState { state, sizes })?,
        })
    }

    /// The state. It takes no memory.
    pub(crate) fn state(&self) -> &ClientState
        ensures state { result.now ≡ self.now }
        ensures sound { IsSound self.now }
    {
        &self.counted.state
    }

    /// What a function makes of the state. The state is lent to it, and stays the same.
    pub(crate) fn lend<T, F: FnOnce(&mut ClientState) -> T>(&mut self, function: F) -> T
        requires callable { FnOnceTakesAtMut F.FnOnce function self.old }
        requires same { (made : T) (left : _) → FnOnceReturnsAtMut F.FnOnce function self.old made left → left ≡ self.old }
        ensures same { self.new ≡ self.old }
        ensures made { FnOnceReturnsAtMut F.FnOnce function self.old result self.old }
    {
        function(&mut self.counted.state)
    }

    /// Adds what follows the change to it. The state is lent to that, and stays the same. After an error the change is as it was.
    pub(crate) fn follow(
        &mut self,
        alloc: Global,
        change: &mut StateChange,
        manifest: Option<&Manifest>,
        bindings: Option<&Bindings>,
    ) -> Result<(), AppendChangesFault>
        requires change { IsChangeOf self.old change.old }
        requires holders { HasHoldersOfBefore self.old change.old }
        ensures same { self.new ≡ self.old }
        ensures followed { OnOk result (state_after change.new self.old ≡ followed (option_map (λ m. m.now) manifest.entry) (option_map (λ b. b.now) bindings.entry) change.old self.old) }
        ensures change { OnOk result (IsWholeChangeOf self.old change.new) }
        ensures not_spent { OnOk result (spends change.old self.old ≡ false) }
        ensures spent { IsErrOf result AppendChangesFault.ChangesSpent → IsTrue (spends change.old self.old) }
        ensures unchanged { OnErr result (change.new ≡ change.old) }
    {
        follow(alloc, &mut self.counted.state, change, manifest, bindings)
    }

    /// Makes the change one after which the user has set the value of a preference too, or taken it away. The state is lent to that,
    /// and stays the same. After an error the change is as it was.
    pub(crate) fn set_preference(
        &mut self,
        change: &mut StateChange,
        name: &Text,
        value: Option<&Tree>,
    ) -> Result<(), AllocError>
        requires change { IsWholeChangeOf self.old change.old }
        requires free { holder_of name.now (state_after change.old self.old).preferences ≡ None }
        requires name { IsTrue (is_name name.now) }
        requires value { MatchOption value ⊤ (λ v. IsValue v.now) }
        ensures same { self.new ≡ self.old }
        ensures set { OnOk result (state_after change.new self.old ≡ with_users_value name.now (option_map (λ v. v.now) value.entry) (state_after change.old self.old)) }
        ensures change { OnOk result (IsWholeChangeOf self.old change.new) }
        ensures unchanged { OnErr result (change.new ≡ change.old) }
    {
        set_preference(&mut self.counted.state, change, name, value)
    }

    /// How many bytes the state after a change is encoded in. It takes no memory.
    pub(crate) fn sizes_after(&self, change: &StateChange) -> ClientSizes
        requires { IsWholeChangeOf self.now change.now }
        ensures sizes { IsSizeOf (state_after change.now self.now) result }
        ensures sound { result.total ≤ max_size → IsSound (state_after change.now self.now) }
    {
        sizes_after(self.counted.sizes, &self.counted.state, change)
    }

    /// The rows that change from this state to that after a change.
    pub(crate) fn changes_to(
        &self,
        alloc: Global,
        change: &StateChange,
    ) -> Result<Batch, AllocError>
        requires change { IsWholeChangeOf self.now change.now }
        requires next { IsSound (state_after change.now self.now) }
        ensures sound { IsSound self.now }
        ensures changes { IfOk result (λ batch. batch ≡ row_changes self.now (state_after change.now self.now)) }
        ensures gives { IfOk result (λ batch. applied batch (rows_of self.now) ≡ rows_of (state_after change.now self.now)) }
        ensures whole { IfOk result (λ batch. batch_text (whole_of (applied batch (rows_of self.now))) ≡ encoding (state_after change.now self.now)) }
        ensures size { IfOk result (λ batch. length (batch_text batch) ≤ length (encoding self.now) + length (encoding (state_after change.now self.now))) }
    {
        changes_to(alloc, &self.counted.state, change)
    }

    /// Takes the parts of a change over, after which the state has these sizes. It takes no memory.
    pub(crate) fn take_over(&mut self, change: BoxedChange, sizes: ClientSizes)
        requires sound { IsSound (state_after change self.old) }
        requires sizes { IsSizeOf (state_after change self.old) sizes }
        ensures { self.new ≡ state_after change self.old }
    {
        self.counted.take_over(change, sizes);
    }
}

impl CountedState {
    // Takes the parts of a change over, and these sizes.
    fn take_over(&mut self, change: BoxedChange, sizes: ClientSizes)
        ensures state { self.new.state ≡ state_after change self.old.state }
        ensures sizes { self.new.sizes ≡ sizes }
    {
        self.state.take_over(change);
        self.sizes = sizes;
    }
}
