// Bindings of variables to preferences.
ghost use Rattle.std.specs.Prelude.{◌≡◌, ◌&&◌, ◌++◌, ◌∷◌, [], false, not, IfOk, OnOk};
ghost use Rattle.json_tree.specs.Tree.{json_of};
ghost use Rattle.plain_text.specs.Names.{is_name};
ghost use Rattle.recipe_reader.specs.Outcome.{only_if};
ghost use Rattle.enrol_states.specs.Order.{is_in};
ghost use Rattle.pref_bindings.specs.Bindings.{AreBindings, AreByVariable, GivesBindings, HasPreferences, bindings_of, preferences_of, with_feature, with_variable};

use crate::fault::BindingFault;
use json_tree::Tree;
use plain_text::is_name;
use sequences::{Sequence, Text};
use std::alloc::{AllocError, Global};
use std::collections::BTreeSet;
use std::marker::Model;

/// That a feature's variable sets a preference.
#[derive(Drop)]
pub struct Binding {
    pub feature: Text,
    pub variable: Text,
    /// 1 to 80 ASCII letters, digits, `-`, `_` and `.`.
    pub preference: Text,
}

/// Bindings in order by feature, and of one feature by variable: no two have one variable, and no two have one preference. Contracts
/// see them as their list.
#[derive(Drop)]
pub struct Bindings {
    bindings: Sequence<Binding>,
}

impl Model for Bindings {
    ghost use Rattle.std.specs.Prelude.{List};
    ghost use Rattle.std.specs.Coded.{codes};
    ghost use Rattle.pref_bindings.specs.declared.bindings.Binding.{Binding};
    ghost use Rattle.pref_bindings.specs.Bindings.{AreBindings, AreByVariable};

    ghost Value = { List Binding };

    ghost coded = { Prim.hlevel codes };

    ghost view = { λ b. b.bindings };

    ghost invariant = { λ b. AreBindings b.bindings × AreByVariable b.bindings };
}

impl Bindings {
    /// The bindings. It takes no memory.
    pub fn as_slice(&self) -> &[Binding]
        ensures bindings { result.now ≡ self.now }
        ensures are { AreBindings self.now }
        ensures order { AreByVariable self.now }
    {
        self.bindings.as_slice()
    }
}

/// The bindings that a tree is, in its order: an object from features to objects from variables to preferences, each of which is a
/// name and stands once. `BadBinding` names the first feature at which this fails, and is the empty text where the tree is no
/// object.
#[tactic(auto, using(crate::proofs::FoundBindings::found_none), unfolding(crate::specs::Bindings::bindings_of))]
pub fn read_bindings(alloc: Global, tree: &Tree) -> Result<Bindings, BindingFault>
    ensures bindings { GivesBindings result (bindings_of (json_of tree.now)) }
    ensures are { IfOk result AreBindings }
{
    let Tree::Object(features) = tree else {
        return Err(BindingFault::BadBinding(Text::new(alloc, "")?));
    };
    let members = features.as_slice();
    let mut found = Found {
        bindings: Sequence::new(alloc),
        preferences: BTreeSet::new(alloc),
    };
    for (feature, variables) in members {
        if !found.add_feature(feature, variables)? {
            return Err(BindingFault::BadBinding(feature.clone()?));
        }
    }
    Ok(Bindings {
        bindings: found.bindings,
    })
}

/// The bindings found so far, and their preferences as a set.
#[derive(Drop)]
pub(crate) struct Found {
    pub bindings: Sequence<Binding>,
    pub preferences: BTreeSet<Text>,
}

impl Found {
    // Adds those of a feature, and says whether it could.
    fn add_feature(&mut self, feature: &Text, tree: &Tree) -> Result<bool, AllocError>
        requires { HasPreferences self.old }
        ensures added { IfOk result (λ added. with_feature self.old.bindings feature.now (json_of tree.now) ≡ only_if added self.new.bindings) }
        ensures preferences { OnOk result (HasPreferences self.new) }
    {
        let Tree::Object(variables) = tree else {
            return Ok(false);
        };
        let members = variables.as_slice();
        for (variable, tree) in members {
            if !self.add_variable(feature, variable, tree)? {
                return Ok(false);
            }
        }
        Ok(true)
    }

    // Adds that of a variable, where the tree is a name that is no other's preference, and says whether it did.
    #[tactic(auto, using(crate::proofs::FoundBindings::free_is_new))]
    fn add_variable(
        &mut self,
        feature: &Text,
        variable: &Text,
        tree: &Tree,
    ) -> Result<bool, AllocError>
        requires { HasPreferences self.old }
        ensures added { IfOk result (λ added. with_variable feature.now self.old.bindings variable.now (json_of tree.now) ≡ only_if added self.new.bindings) }
        ensures preferences { OnOk result (HasPreferences self.new) }
    {
        match tree {
            Tree::Text(preference) if self.is_free(preference) => {
                self.add(Binding {
                    feature: feature.clone()?,
                    variable: variable.clone()?,
                    preference: preference.clone()?,
                })?;
                Ok(true)
            }
            _ => Ok(false),
        }
    }

    // Whether the text is a name that is no other's preference.
    fn is_free(&self, preference: &Text) -> bool
        requires { HasPreferences self.now }
        ensures { result ≡ (is_name preference.now && not (is_in (preferences_of self.now.bindings) preference.now)) }
    {
        is_name(preference.as_str().as_bytes()) && !self.preferences.contains(preference)
    }

    // Adds a binding.
    fn add(&mut self, binding: Binding) -> Result<(), AllocError>
        requires preferences { HasPreferences self.old }
        requires is_new { is_in (preferences_of self.old.bindings) binding.preference ≡ false }
        ensures bindings { OnOk result (self.new.bindings ≡ self.old.bindings ++ binding ∷ []) }
        ensures preferences { OnOk result (HasPreferences self.new) }
    {
        self.preferences.insert(binding.preference.clone()?)?;
        self.bindings.push(binding)?;
        Ok(())
    }
}
