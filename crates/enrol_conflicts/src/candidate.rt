// A wish to be enrolled.

use plain_text::Slug;
use recipe_reader::Kind;
use sequences::{Sequence, Text};

/// A recipe whose client is enrolled in it, or would be, unless its features are taken.
#[derive(Drop)]
pub struct Candidate {
    /// The recipe's slug.
    pub slug: Slug,
    /// Wishes of different kinds share features freely.
    pub kind: Kind,
    /// The features of all the recipe's branches, in any order; a feature may come twice.
    pub features: Sequence<Text>,
    /// Whether the client is enrolled in the recipe already.
    pub was_enrolled: bool,
    /// When the recipe was published, in seconds since 1970 began.
    pub published: Option<i64>,
}
