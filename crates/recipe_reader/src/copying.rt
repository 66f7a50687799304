// Copies of recipes, each equal to what it is a copy of.
ghost use Rattle.std.specs.Prelude.{◌≡◌, IfOk};

use crate::recipe::{Branch, Bucket, FeatureValue, Recipe};
use sequences::{ExactClone, Sequence, Text};
use std::alloc::AllocError;

impl Clone for Recipe {
    ghost is_clone = { λ r s. s ≡ r };

    fn clone(&self) -> Result<Recipe, AllocError> {
        Ok(Recipe {
            slug: self.slug.clone()?,
            app_name: copy_of_text(&self.app_name)?,
            channel: copy_of_text(&self.channel)?,
            paused: self.paused,
            rollout: self.rollout,
            bucket: self.bucket.clone()?,
            branches: copy_of_branches(&self.branches)?,
            targeting: copy_of_text(&self.targeting)?,
            published: copy_of_text(&self.published)?,
        })
    }
}

impl ExactClone for Recipe {
    ghost exact = { λ r s same. same };
}

impl Clone for Bucket {
    ghost is_clone = { λ b c. c ≡ b };

    fn clone(&self) -> Result<Bucket, AllocError> {
        Ok(Bucket {
            unit: self.unit.clone()?,
            namespace: self.namespace.clone()?,
            start: self.start,
            count: self.count,
            total: self.total,
        })
    }
}

impl Clone for Branch {
    ghost is_clone = { λ b c. c ≡ b };

    fn clone(&self) -> Result<Branch, AllocError> {
        Ok(Branch {
            slug: self.slug.clone()?,
            ratio: self.ratio,
            features: copy_of_features(&self.features)?,
        })
    }
}

impl Clone for FeatureValue {
    ghost is_clone = { λ f g. g ≡ f };

    fn clone(&self) -> Result<FeatureValue, AllocError> {
        Ok(FeatureValue {
            feature: self.feature.clone()?,
            value: self.value.clone()?,
        })
    }
}

fn copy_of_text(text: &Option<Text>) -> Result<Option<Text>, AllocError>
    ensures { IfOk result (λ t. t ≡ text.now) }
{
    match text {
        Some(text) => Ok(Some(text.clone()?)),
        None => Ok(None),
    }
}

#[tactic(auto, using(crate::proofs::Copies::same_branches))]
fn copy_of_branches(branches: &Sequence<Branch>) -> Result<Sequence<Branch>, AllocError>
    ensures { IfOk result (λ bs. bs ≡ branches.now) }
{
    branches.clone()
}

#[tactic(auto, using(crate::proofs::Copies::same_features))]
fn copy_of_features(features: &Sequence<FeatureValue>) -> Result<Sequence<FeatureValue>, AllocError>
    ensures { IfOk result (λ fs. fs ≡ features.now) }
{
    features.clone()
}
