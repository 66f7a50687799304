// Equality of recipes: they are equal where they are the same in each part.
ghost use Rattle.std.specs.Prelude.{◌≡◌};
ghost use Rattle.recipe_reader.specs.Equal.{text_eq, fields_eq};

use crate::recipe::{Branch, Bucket, FeatureValue, Recipe};
use sequences::Text;

impl PartialEq for Recipe {
    ghost use Rattle.std.specs.Cmp.{partial_equiv_from_equiv};
    ghost use Rattle.recipe_reader.specs.Equal.{recipe_eq};
    ghost use Rattle.recipe_reader.specs.Equals.{recipe_equivalence};

    ghost eq = { λ r s. recipe_eq r s };

    ghost laws = { partial_equiv_from_equiv recipe_equivalence };

    fn eq(&self, other: &Recipe) -> bool {
        same_fields(self, other) && self.bucket == other.bucket && self.branches == other.branches
    }
}

impl PartialEq for Bucket {
    ghost use Rattle.std.specs.Cmp.{partial_equiv_from_equiv};
    ghost use Rattle.recipe_reader.specs.Equal.{bucket_eq};
    ghost use Rattle.recipe_reader.specs.Equals.{bucket_equivalence};

    ghost eq = { λ b c. bucket_eq b c };

    ghost laws = { partial_equiv_from_equiv bucket_equivalence };

    fn eq(&self, other: &Bucket) -> bool {
        self.unit == other.unit
            && self.namespace == other.namespace
            && self.start == other.start
            && self.count == other.count
            && self.total == other.total
    }
}

impl PartialEq for Branch {
    ghost use Rattle.std.specs.Cmp.{partial_equiv_from_equiv};
    ghost use Rattle.recipe_reader.specs.Equal.{branch_eq};
    ghost use Rattle.recipe_reader.specs.Equals.{branch_equivalence};

    ghost eq = { λ b c. branch_eq b c };

    ghost laws = { partial_equiv_from_equiv branch_equivalence };

    fn eq(&self, other: &Branch) -> bool {
        self.slug == other.slug && self.ratio == other.ratio && self.features == other.features
    }
}

impl PartialEq for FeatureValue {
    ghost use Rattle.std.specs.Cmp.{partial_equiv_from_equiv};
    ghost use Rattle.recipe_reader.specs.Equal.{feature_eq};
    ghost use Rattle.recipe_reader.specs.Equals.{feature_equivalence};

    ghost eq = { λ f g. feature_eq f g };

    ghost laws = { partial_equiv_from_equiv feature_equivalence };

    fn eq(&self, other: &FeatureValue) -> bool {
        self.feature == other.feature && self.value == other.value
    }
}

/// Whether the recipes say the same beside their buckets and branches.
fn same_fields(left: &Recipe, right: &Recipe) -> bool
    ensures { result ≡ fields_eq left.now right.now }
{
    left.slug == right.slug
        && same_texts(&left.app_name, &right.app_name)
        && same_texts(&left.channel, &right.channel)
        && left.paused == right.paused
        && left.rollout == right.rollout
        && same_texts(&left.targeting, &right.targeting)
        && same_texts(&left.published, &right.published)
}

fn same_texts(left: &Option<Text>, right: &Option<Text>) -> bool
    ensures { result ≡ text_eq left.now right.now }
{
    match (left, right) {
        (None, None) => true,
        (Some(left), Some(right)) => left == right,
        _ => false,
    }
}
