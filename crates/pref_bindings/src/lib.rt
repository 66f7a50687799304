//! Preferences that recipes set while the client takes part in them: their values, who holds them, what the user's values are,
//! and their rows in a store; and which preferences the variables of features are bound to, and what a branch sets of these.
#![tactic(auto)]

mod bindings;
mod bound;
mod fault;
mod feature_range;
mod held;
mod joining;
mod laws;
mod leaving;
mod next_preferences;
mod preference;
mod prefs;
mod reading;
mod row_changes;
mod row_forms;
mod rows;
mod setting;
mod size;

pub use bindings::{Binding, Bindings, read_bindings};
pub use bound::bound_values;
pub use fault::{BindingFault, PrefsFault};
pub use laws::{
    held_is_kept, leave_undoes_join, one_list_of_rows, user_map_is_kept, user_sets_own,
};
pub use next_preferences::NextPreferences;
pub use preference::{Hold, Preference, is_value};
pub use prefs::Prefs;
pub use reading::{prefs_of, prefs_of_parts};
