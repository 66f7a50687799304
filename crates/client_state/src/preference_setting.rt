// What the user sets of the preferences.
ghost use Rattle.std.specs.Prelude.{◌≡◌, ⊤, IfOk, IsTrue, MatchOption, None, OnErr, OnOk, option_map};
ghost use Rattle.plain_text.specs.Names.{is_name};
ghost use Rattle.pref_bindings.specs.Changes.{set_by_user};
ghost use Rattle.pref_bindings.specs.Preferences.{IsValue, holder_of};
ghost use Rattle.client_state.specs.Changes.{IsNextPreferences, IsNextPreferencesIf, IsWholeChangeOf, preferences_or, state_after, with_users_value};

use crate::client_state::ClientState;
use crate::state_change::StateChange;
use json_tree::Tree;
use pref_bindings::{NextPreferences, Prefs};
use sequences::Text;
use std::alloc::AllocError;

/// Makes the change one after which the user has set the value of a preference too, or taken it away. Nobody holds it. The one error
/// is want of memory, and after it the change is as it was. The state is lent to that, and stays the same.
#[tactic(auto, using(crate::proofs::HoldersAfter::holders_set))]
pub fn set_preference(
    state: &mut ClientState,
    change: &mut StateChange,
    name: &Text,
    value: Option<&Tree>,
) -> Result<(), AllocError>
    requires change { IsWholeChangeOf state.old change.old }
    requires free { holder_of name.now (state_after change.old state.old).preferences ≡ None }
    requires name { IsTrue (is_name name.now) }
    requires value { MatchOption value ⊤ (λ v. IsValue v.now) }
    ensures same { state.new ≡ state.old }
    ensures set { OnOk result (state_after change.new state.old ≡ with_users_value name.now (option_map (λ v. v.now) value.entry) (state_after change.old state.old)) }
    ensures change { OnOk result (IsWholeChangeOf state.old change.new) }
    ensures unchanged { OnErr result (change.new ≡ change.old) }
{
    let preferences = preferences_set(
        &mut state.preferences,
        &mut change.preferences,
        name,
        value,
    )?;
    change.preferences = Some(preferences);
    Ok(())
}

// The next preferences, or else those of before, where the user has set this one or taken its value away. Both are lent, and
// stay the same. They differ in this one alone, or else where there are next ones already the whole list is the part.
fn preferences_set(
    before: &mut Prefs,
    next: &mut Option<NextPreferences>,
    name: &Text,
    value: Option<&Tree>,
) -> Result<NextPreferences, AllocError>
    requires free { holder_of name.now (preferences_or next.old before.old) ≡ None }
    requires name { IsTrue (is_name name.now) }
    requires value { MatchOption value ⊤ (λ v. IsValue v.now) }
    ensures same { before.new ≡ before.old }
    ensures same_next { next.new ≡ next.old }
    ensures set { IfOk result (λ set. set.preferences ≡ set_by_user name.now (option_map (λ v. v.now) value.entry) (preferences_or next.old before.old)) }
    ensures next { IfOk result (IsNextPreferences before.old) }
{
    match next {
        Some(next) => {
            let set = next.preferences.user_set(name, value)?;
            Ok(NextPreferences::whole(before, set.preferences))
        }
        None => before.user_set(name, value),
    }
}
