// The laws of stores. Each function does nothing: its contract is the law.
ghost use Rattle.std.specs.Prelude.{◌≡◌, ℕ, List};
ghost use Rattle.client_state.specs.declared.client_state.ClientState.{ClientState};
ghost use Rattle.client_store.specs.Store.{StandsFor, KeptFor};
ghost use Rattle.client_store.specs.WholeStates.{WholeStatesStand};

/// A pair of sides stands for one state at most, and so it is kept for one at most.
pub fn one_state()
    ensures stands { (l r : List ℕ) (s t : ClientState) → StandsFor l r s → StandsFor l r t → s ≡ t }
    ensures kept { (l r : List ℕ) (s t : ClientState) → KeptFor l r s → KeptFor l r t → s ≡ t }
{}

/// A store of whole states, each in one record of the left side and in either form, stands for the last of them. It takes no
/// memory.
pub fn whole_states_stand()
    ensures { WholeStatesStand }
{}
