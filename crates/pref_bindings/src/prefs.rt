// The preferences that have a value.
ghost use Rattle.std.specs.Prelude.{◌≡◌, ◌≤◌, ◌+◌, ◌^◌, [], ⊤, length, slice_range, IfOk, IsTrue, MatchOption, None, Some, option_map};
ghost use Rattle.std.specs.Option.{unwrap_or};
ghost use Rattle.std.specs.List.{AllByRecursion};
ghost use Rattle.plain_text.specs.Names.{is_name};
ghost use Rattle.row_batches.specs.Batch.{puts_text};
ghost use Rattle.pref_bindings.specs.Changes.{AreSettings, joined, left, set_by_user, without_name};
ghost use Rattle.pref_bindings.specs.Held.{held_preferences};
ghost use Rattle.pref_bindings.specs.Preferences.{AreHeld, IsPreference, IsSound, IsValue, found, holder_of, value_of};
ghost use Rattle.pref_bindings.specs.Rows.{rows_of};
ghost use Rattle.sequences.specs.ListParts.{IsPart};

use crate::held::held_preferences;
use crate::joining::joined;
use crate::leaving::{holds_any, left};
use crate::next_preferences::NextPreferences;
use crate::preference::Preference;
use crate::setting::{users_preference, with_preference, without_name};
use crate::size::{preferences_size, size_with, size_without};
use json_tree::Tree;
use plain_text::Slug;
use sequences::{ExactClone, Sequence, SharedList, Text};
use std::alloc::{AllocError, Global};
use std::marker::Model;

// The most bytes that the puts of the rows of preferences have.
const MOST_BYTES: u128 = 1 << 100;

/// The preferences that have a value, in order by name. Contracts see it as their list. A clone shares the list.
///
/// A recipe's slug that sets a preference holds it until it leaves, and the value of before is kept as long. One that is held
/// isn't set by another slug.
///
/// The size of their rows is counted when they are made: more than 2^100 bytes of rows are want of memory.
#[derive(Drop)]
pub struct Prefs {
    preferences: SharedList<Preference>,
    // Those of them that somebody holds.
    held: SharedList<Preference>,
    // How many bytes the puts of the rows have.
    size: u128,
}

impl Model for Prefs {
    ghost use Rattle.std.specs.Prelude.{List};
    ghost use Rattle.std.specs.Coded.{codes};
    ghost use Rattle.json_tree.specs.Json.{json_code};
    ghost use Rattle.pref_bindings.specs.declared.preference.Preference.{Preference};
    ghost use Rattle.pref_bindings.specs.Held.{AreKept};

    ghost Value = { List Preference };

    ghost coded = { Prim.hlevel (codes, json_code) };

    ghost view = { λ p. p.preferences };

    ghost invariant = { λ p. AreKept p.preferences p.held p.size };
}

/// The same preferences. It takes no memory.
impl Clone for Prefs {
    ghost is_clone = { λ p q. q ≡ p };

    fn clone(&self) -> Result<Prefs, AllocError> {
        Ok(Prefs {
            preferences: self.preferences.clone()?,
            held: self.held.clone()?,
            size: self.size,
        })
    }
}

impl ExactClone for Prefs {
    ghost exact = { λ p q same. same };
}

impl Prefs {
    /// No preferences. It takes no memory.
    pub fn new(alloc: Global) -> Prefs
        ensures { result ≡ [] }
    {
        Prefs {
            preferences: SharedList::new(alloc),
            held: SharedList::new(alloc),
            size: 0,
        }
    }

    /// The preferences, in order by name. It takes no memory.
    pub fn as_slice(&self) -> &[Preference]
        ensures preferences { result.now ≡ self.now }
        ensures sound { IsSound self.now }
    {
        self.preferences.as_slice()
    }

    /// So many of them from a place on. It takes no memory.
    #[tactic(auto, using(crate::proofs::Ranges::range_each))]
    pub(crate) fn part(&self, start: usize, count: usize) -> &[Preference]
        requires { start + count ≤ length self.now }
        ensures preferences { result.now ≡ slice_range self.now start (start + count) }
        ensures each { AllByRecursion IsPreference result.now }
    {
        &self.as_slice()[start..start + count]
    }

    /// Those that somebody holds, in order by name. It takes no memory.
    pub(crate) fn held(&self) -> &[Preference]
        ensures { result.now ≡ held_preferences self.now }
    {
        self.held.as_slice()
    }

    /// How many bytes the puts of the preferences' rows have, of holds and of values. They were counted before. It takes no memory.
    pub fn size(&self) -> u128
        ensures size { result ≡ length (puts_text (rows_of self.now)) }
        ensures bound { result ≤ 2 ^ 100 }
    {
        self.size
    }

    /// The present value of a name, where it has one. It takes no memory.
    pub fn get(&self, name: &str) -> Option<&Tree>
        ensures { option_map (λ value. value.now) result ≡ value_of name.now self.now }
    {
        Some(&self.find(name)?.value)
    }

    /// The slug that holds a name, where one does. It takes no memory.
    pub fn holder(&self, name: &str) -> Option<&Slug>
        ensures { option_map (λ slug. slug.now) result ≡ holder_of name.now self.now }
    {
        let hold = self.find(name)?.hold.as_ref()?;
        Some(&hold.holder)
    }

    // The preference of a name, by a binary search.
    fn find(&self, name: &str) -> Option<&Preference>
        ensures { option_map (λ preference. preference.now) result ≡ found name.now self.now }
    {
        let preferences = self.as_slice();
        match preferences.binary_search_by(|preference| preference.name.as_str().cmp(name)) {
            Ok(place) => Some(&preferences[place]),
            Err(_) => None,
        }
    }

    /// The preferences where a slug sets each of these that nobody holds, and holds it: its value of before, or that there was
    /// none, is kept. One that is held stays. Where each is held there are no next preferences, since these stay, and it takes no
    /// memory; else both lists are walked once. The one error is want of memory.
    pub fn join(
        &self,
        alloc: Global,
        slug: &Slug,
        values: &[(Text, Tree)],
    ) -> Result<Option<Prefs>, AllocError>
        requires { AreSettings values.now }
        ensures { IfOk result (λ next. unwrap_or next self.now ≡ joined slug.now values.now self.now) }
    {
        let preferences = self.as_slice();
        if self.are_held(values) {
            return Ok(None);
        }
        let joined = joined(alloc, slug, preferences, values)?;
        Ok(Some(Prefs::of_preferences(alloc, joined)?))
    }

    // Whether somebody holds each of these. It takes no memory.
    fn are_held(&self, values: &[(Text, Tree)]) -> bool
        ensures { IsTrue result → AreHeld values.now self.now }
    {
        for value in values {
            if self.holder(value.0.as_str()).is_none() {
                return false;
            }
        }
        true
    }

    /// The preferences where each that the slug holds has its value of before again, or none where there was none. Where the slug
    /// holds none there are no next preferences, since these stay: only those that somebody holds are walked, which takes no
    /// memory; else all are walked. The one error is want of memory.
    #[tactic(auto, using(crate::proofs::HeldApart::left_held))]
    pub fn leave(&self, alloc: Global, slug: &Slug) -> Result<Option<Prefs>, AllocError>
        ensures { IfOk result (λ next. unwrap_or next self.now ≡ left slug.now self.now) }
    {
        if !holds_any(slug, self.held()) {
            return Ok(None);
        }
        let preferences = left(alloc, slug, self.as_slice())?;
        Ok(Some(Prefs::of_preferences(alloc, preferences)?))
    }

    /// The preferences where the user sets this one, or takes its value away, and the part that has this one alone. The one error
    /// is want of memory. These are lent to that, and stay the same: the next list is made in the place of the one that theirs was
    /// made of, and only the rows of this preference are counted.
    pub fn user_set(
        &mut self,
        name: &Text,
        value: Option<&Tree>,
    ) -> Result<NextPreferences, AllocError>
        requires free { holder_of name.now self.old ≡ None }
        requires name { IsTrue (is_name name.now) }
        requires value { MatchOption value ⊤ (λ v. IsValue v.now) }
        ensures same { self.new ≡ self.old }
        ensures set { IfOk result (λ next. next.preferences ≡ set_by_user name.now (option_map (λ v. v.now) value.entry) self.old) }
        ensures part { IfOk result (λ next. IsPart next.part self.old next.preferences) }
    {
        match value {
            Some(value) => self.with_value(name, value),
            None => self.without_value(name),
        }
    }

    // The preferences where the user sets this one.
    fn with_value(&mut self, name: &Text, value: &Tree) -> Result<NextPreferences, AllocError>
        requires free { holder_of name.now self.old ≡ None }
        requires name { IsTrue (is_name name.now) }
        requires value { IsValue value.now }
        ensures same { self.new ≡ self.old }
        ensures set { IfOk result (λ next. next.preferences ≡ set_by_user name.now (Some value.now) self.old) }
        ensures part { IfOk result (λ next. IsPart next.part self.old next.preferences) }
    {
        let preference = users_preference(name, value)?;
        let others = self.size_of_others(name.as_str());
        let Some(size) = size_with(others, &preference, MOST_BYTES) else {
            return Err(AllocError);
        };
        let held = self.held.clone()?;
        let next = with_preference(&mut self.preferences, preference)?;
        Ok(NextPreferences {
            preferences: Prefs {
                preferences: next.list,
                held,
                size,
            },
            part: next.part,
        })
    }

    // The preferences where the user takes the value of this one away.
    fn without_value(&mut self, name: &Text) -> Result<NextPreferences, AllocError>
        requires { holder_of name.now self.old ≡ None }
        ensures same { self.new ≡ self.old }
        ensures set { IfOk result (λ next. next.preferences ≡ set_by_user name.now None self.old) }
        ensures part { IfOk result (λ next. IsPart next.part self.old next.preferences) }
    {
        let size = self.size_of_others(name.as_str());
        let held = self.held.clone()?;
        let next = without_name(&mut self.preferences, name)?;
        Ok(NextPreferences {
            preferences: Prefs {
                preferences: next.list,
                held,
                size,
            },
            part: next.part,
        })
    }

    // How many bytes the puts of the rows of the preferences of other names have. It takes no memory.
    fn size_of_others(&self, name: &str) -> u128
        ensures size { result ≡ length (puts_text (rows_of (without_name name.now self.now))) }
        ensures bound { result ≤ 2 ^ 100 }
    {
        match self.find(name) {
            Some(preference) => size_without(self.size, preference),
            None => self.size,
        }
    }

    /// The preferences of a list. More than 2^100 bytes of rows are want of memory.
    pub(crate) fn of_preferences(
        alloc: Global,
        preferences: Sequence<Preference>,
    ) -> Result<Prefs, AllocError>
        requires { IsSound preferences }
        ensures { IfOk result (λ prefs. prefs ≡ preferences) }
    {
        let size = preferences_size(preferences.as_slice(), MOST_BYTES).ok_or(AllocError)?;
        let held = held_preferences(alloc, preferences.as_slice())?;
        Ok(Prefs {
            preferences: SharedList::from_sequence(alloc, preferences)?,
            held: SharedList::from_sequence(alloc, held)?,
            size,
        })
    }
}
