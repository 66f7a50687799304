// The features that granted wishes hold.
ghost use Rattle.std.specs.Prelude.{◌≡◌, ◌||◌, ◌&&◌, ℕ, List, false, not, bytes_eq, OnOk};
ghost use Rattle.recipe_reader.specs.Kinds.{kind_eq};
ghost use Rattle.enrol_states.specs.Order.{is_in};
ghost use Rattle.enrol_states.specs.TextSets.{has_text};
ghost use Rattle.enrol_conflicts.specs.Held.{features_of_kind, is_held, is_taken};

use crate::Candidate;
use crate::names::has_text;
use recipe_reader::Kind;
use sequences::Text;
use std::alloc::{AllocError, Global};
use std::collections::BTreeSet;

/// The features that granted wishes hold, of each kind, but for those that may be shared.
#[derive(Drop)]
pub(crate) struct HeldFeatures<'a> {
    experiments: BTreeSet<&'a str>,
    rollouts: BTreeSet<&'a str>,
}

impl<'a> HeldFeatures<'a> {
    /// No features. It takes no memory.
    pub(crate) fn new(alloc: Global) -> HeldFeatures<'a>
        ensures { (kind : Kind) (f : List ℕ) → is_held result kind f ≡ false }
    {
        HeldFeatures {
            experiments: BTreeSet::new(alloc),
            rollouts: BTreeSet::new(alloc),
        }
    }

    /// The features that are held by wishes of the kind.
    fn features_of_kind(&self, kind: Kind) -> &BTreeSet<&'a str>
        ensures { result.now ≡ features_of_kind self.now kind }
    {
        match kind {
            Kind::Experiment => &self.experiments,
            Kind::Rollout => &self.rollouts,
        }
    }

    /// Whether a feature of the wish is held by a wish of its kind.
    pub(crate) fn are_taken_from(&self, wish: &'a Candidate) -> bool
        ensures { result ≡ is_taken self.now wish.now }
    {
        let held = self.features_of_kind(wish.kind);
        let features = wish.features.as_slice();
        for feature in features {
            if has_text(held, feature.as_str()) {
                return true;
            }
        }
        false
    }

    /// Puts the wish's features in, but for those that may be shared.
    pub(crate) fn add(
        &mut self,
        wish: &'a Candidate,
        shared: &BTreeSet<&'a str>,
    ) -> Result<(), AllocError>
        ensures { OnOk result ((kind : Kind) (f : List ℕ) → is_held self.new kind f ≡ (is_held self.old kind f || (kind_eq wish.now.kind kind && (is_in wish.now.features f && not (has_text shared.now f))))) }
    {
        let features = wish.features.as_slice();
        match wish.kind {
            Kind::Experiment => add_features(&mut self.experiments, features, shared)?,
            Kind::Rollout => add_features(&mut self.rollouts, features, shared)?,
        }
        Ok(())
    }
}

fn add_features<'a>(
    held: &mut BTreeSet<&'a str>,
    features: &'a [Text],
    shared: &BTreeSet<&'a str>,
) -> Result<(), AllocError>
    ensures { OnOk result ((f : List ℕ) → has_text held.new f ≡ (has_text held.old f || (is_in features.now f && not (has_text shared.now f)))) }
{
    for feature in features {
        add_feature(held, feature.as_str(), shared)?;
    }
    Ok(())
}

fn add_feature<'a>(
    held: &mut BTreeSet<&'a str>,
    feature: &'a str,
    shared: &BTreeSet<&'a str>,
) -> Result<(), AllocError>
    ensures { OnOk result ((f : List ℕ) → has_text held.new f ≡ (has_text held.old f || (bytes_eq feature.now f && not (has_text shared.now f)))) }
{
    if has_text(shared, feature) {
        return Ok(());
    }
    held.insert(feature)?;
    Ok(())
}
